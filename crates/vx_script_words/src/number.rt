ghost use Rattle.std.specs.Prelude.{◌≡◌, ◌≤◌, IfSome};
ghost use Rattle.vx_script_words.specs.Number.{number_of, within, length_of};

use vx_names::{read_length, read_number};

/// A number in a range.
pub fn number_within(low: u64, high: u64, word: &[u8]) -> Option<u64>
    ensures value { result ≡ within low high (number_of word.now) }
    ensures most { IfSome result (λ n. n ≤ high) }
{
    let n = number_of(word)?;
    if low <= n && n <= high { Some(n) } else { None }
}

/// A decimal number without leading zeros, below 2^40.
fn number_of(word: &[u8]) -> Option<u64>
    ensures { result ≡ number_of word.now }
{
    read_number(word)
}

/// A length in sectors, 1 to 2^40.
pub fn length_of(word: &[u8]) -> Option<u64>
    ensures { result ≡ length_of word.now }
{
    match read_length(word) {
        Ok(sectors) => Some(sectors),
        Err(_) => None,
    }
}
