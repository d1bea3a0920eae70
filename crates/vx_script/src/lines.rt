ghost use Rattle.std.specs.Prelude.{◌≡◌, ◌∷◌, ◌<◌, ◌≤◌, ◌+◌, [], length};
ghost use Rattle.vx_script.specs.Lines.{lines_of, is_bad, bad_from, bad_word, begins_comment, is_passed_over, or_here};
ghost use Rattle.vx_script_words.specs.Words.{is_blank};

use vx_script_words::from_word;

/// The first line of a text, and what follows it.
pub fn split_line(text: &[u8]) -> (&[u8], &[u8])
    requires { 0 < length text.now }
    ensures lines { lines_of text.now ≡ result.0.now ∷ lines_of result.1.now }
    ensures less { length result.1.now + 1 ≤ length text.now }
{
    for (n, b) in text.iter().enumerate() {
        if *b == b'\n' {
            return (&text[..n], &text[n + 1..]);
        }
    }
    (text, &text[text.len()..])
}

fn is_blank(byte: u8) -> bool
    ensures { result ≡ is_blank byte }
{
    byte == b' ' || byte == b'\t'
}

fn is_bad(byte: u8) -> bool
    ensures { result ≡ is_bad byte }
{
    !(byte >= b' ' && byte <= b'~' || byte == b'\t')
}

/// How much of the line is left from the first word on that has a byte outside the alphabet.
#[tactic(auto, unfolding(crate::specs::Lines::bad_word))]
pub fn bad_word(line: &[u8]) -> Option<usize>
    ensures { result ≡ bad_word line.now }
{
    let mut word = None;
    for k in 0..line.len() {
        if is_blank(line[k]) {
            word = None;
        } else {
            let left = or_here(word, line.len() - k);
            if is_bad(line[k]) {
                return Some(left);
            }
            word = Some(left);
        }
    }
    None
}

fn or_here(word: Option<usize>, here: usize) -> usize
    ensures { result ≡ or_here word here }
{
    match word {
        None => here,
        Some(left) => left,
    }
}

/// Without words, or a comment.
pub fn is_passed_over(line: &[u8]) -> bool
    ensures { result ≡ is_passed_over line.now }
{
    begins_comment(line) || from_word(line).len() == 0
}

pub fn begins_comment(line: &[u8]) -> bool
    ensures { result ≡ begins_comment line.now }
{
    match line {
        [] => false,
        [first, ..] => *first == b'#',
    }
}
