ghost use Rattle.std.specs.Prelude.{◌≡◌, ◌*◌, ◌<◌, ◌↔◌, length, replicate, IsTrue, IsOk, OnOk, OnErr, List, ℕ};
ghost use Rattle.std.specs.List.{list_all};
ghost use Rattle.vx_block.specs.Word.{block_word};
ghost use Rattle.vx_block.specs.Reading.{is_hex_digit, digit_value, byte_value, bytes_of, is_short_word, is_long_word, is_block_word, spelled_block, AreBytes};

/// A word that is no block's.
#[derive(Clone, Copy, Debug, PartialEq, Eq)]
pub enum BlockFault {
    /// It is neither `=XX` nor 1,024 lower-case hexadecimal digits.
    NotABlock,
}

/// Reads the word of a block into its 512 bytes. A word of all digits may have equal bytes.
pub fn read_block(word: &[u8], out: &mut [u8]) -> Result<(), BlockFault>
    requires { length out.old ≡ 512 }
    ensures form { IsOk result ↔ IsTrue (is_block_word word.now) }
    ensures ok { OnOk result (out.new ≡ spelled_block word.now) }
    ensures err { OnErr result (out.new ≡ out.old) }
    // What was printed is read back.
    ensures printed { (block : List ℕ) → length block ≡ 512 → AreBytes block → word.now ≡ block_word block →
        IsOk result × (out.new ≡ block) }
{
    if is_short_word(word) {
        fill(out, byte_value(word[1], word[2]));
        return Ok(());
    }
    if is_long_word(word) {
        read_bytes(word, out);
        return Ok(());
    }
    Err(BlockFault::NotABlock)
}

fn is_short_word(word: &[u8]) -> bool
    ensures { result ≡ is_short_word word.now }
{
    word.len() == 3 && word[0] == b'=' && are_hex_digits(&word[1..])
}

fn is_long_word(word: &[u8]) -> bool
    ensures { result ≡ is_long_word word.now }
{
    word.len() == 1024 && are_hex_digits(word)
}

fn are_hex_digits(digits: &[u8]) -> bool
    ensures { result ≡ list_all is_hex_digit digits.now }
{
    digits.iter().all(|digit| is_hex_digit(*digit))
}

fn is_hex_digit(digit: u8) -> bool
    ensures { result ≡ is_hex_digit digit }
{
    matches!(digit, b'0'..=b'9' | b'a'..=b'f')
}

fn byte_value(high: u8, low: u8) -> u8
    requires high { IsTrue (is_hex_digit high) }
    requires low { IsTrue (is_hex_digit low) }
    ensures { result ≡ byte_value high low }
{
    16 * digit_value(high) + digit_value(low)
}

fn digit_value(digit: u8) -> u8
    requires { IsTrue (is_hex_digit digit) }
    ensures value { result ≡ digit_value digit }
    ensures below { result < 16 }
{
    if digit < b'0' + 10 {
        digit - b'0'
    } else {
        digit - (b'a' - 10)
    }
}

fn fill(out: &mut [u8], byte: u8)
    ensures { out.new ≡ replicate (length out.old) byte }
{
    for i in 0..out.len() {
        out[i] = byte;
    }
}

fn read_bytes(digits: &[u8], out: &mut [u8])
    requires two { length digits.now ≡ 2 * length out.old }
    requires digits { IsTrue (list_all is_hex_digit digits.now) }
    ensures { out.new ≡ bytes_of digits.now }
{
    for i in 0..out.len() {
        out[i] = byte_value(digits[2 * i], digits[2 * i + 1]);
    }
}
