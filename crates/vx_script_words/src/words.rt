ghost use Rattle.std.specs.Prelude.{◌≡◌, ◌==◌, ◌≤◌, length, Bool, ℕ};
ghost use Rattle.std.specs.List.{position_or_len};
ghost use Rattle.vx_script_words.specs.Words.{is_blank, is_not_blank, from_word, first_word, past_word, up_to, past};

fn is_blank(byte: u8) -> bool
    ensures { result ≡ is_blank byte }
{
    byte == b' ' || byte == b'\t'
}

/// The text from its first word on.
pub fn from_word(text: &[u8]) -> &[u8]
    ensures { result.now ≡ from_word text.now }
{
    &text[blanks(text)..]
}

/// The word that the text begins with.
pub fn first_word(text: &[u8]) -> &[u8]
    ensures { result.now ≡ first_word text.now }
{
    &text[..word_len(text)]
}

/// What follows the word that the text begins with.
pub fn past_word(text: &[u8]) -> &[u8]
    ensures { result.now ≡ past_word text.now }
{
    &text[word_len(text)..]
}

/// The word that the text begins with, and what follows it.
pub fn split_word(text: &[u8]) -> (&[u8], &[u8])
    ensures word { result.0.now ≡ first_word text.now }
    ensures rest { result.1.now ≡ past_word text.now }
{
    text.split_at(word_len(text))
}

/// What stands before the first such byte.
pub fn up_to(byte: u8, text: &[u8]) -> &[u8]
    ensures { result.now ≡ up_to byte text.now }
{
    &text[..place_of(byte, text)]
}

/// What stands behind the first such byte.
pub fn past(byte: u8, text: &[u8]) -> &[u8]
    ensures { result.now ≡ past byte text.now }
{
    let place = place_of(byte, text);
    if place == text.len() {
        return &text[place..];
    }
    &text[place + 1..]
}

fn blanks(text: &[u8]) -> usize
    ensures place { result ≡ position_or_len is_not_blank text.now }
    ensures inside { result ≤ length text.now }
{
    for (n, b) in text.iter().enumerate() {
        if !is_blank(*b) {
            return n;
        }
    }
    text.len()
}

fn word_len(text: &[u8]) -> usize
    ensures place { result ≡ position_or_len is_blank text.now }
    ensures inside { result ≤ length text.now }
{
    for (n, b) in text.iter().enumerate() {
        if is_blank(*b) {
            return n;
        }
    }
    text.len()
}

fn place_of(byte: u8, text: &[u8]) -> usize
    ensures place { result ≡ position_or_len (λ x. x == byte) text.now }
    ensures inside { result ≤ length text.now }
{
    for (n, b) in text.iter().enumerate() {
        if *b == byte {
            return n;
        }
    }
    text.len()
}
