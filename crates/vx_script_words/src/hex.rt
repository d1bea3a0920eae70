ghost use Rattle.std.specs.List.{list_all};
ghost use Rattle.std.specs.Prelude.{◌≡◌, ◌==◌, ◌<◌, IfOk, IfSome, IsTrue, MatchOption, Some, None, true};
ghost use Rattle.vx_block.specs.Reading.{digit_value, is_hex_digit};
ghost use Rattle.vx_script_words.specs.Hex.{byte_of, block_of};
ghost use Rattle.vx_script_words.specs.Blocks.{block_bytes, is_whole};

use crate::BlockOf;
use std::alloc::Global;
use vx_base::OutOfMemory;
use vx_block::{BLOCK, read_block};

/// The byte of two lower-case hexadecimal digits.
pub fn byte_of(word: &[u8]) -> Option<u8>
    ensures { result ≡ byte_of word.now }
{
    match word {
        [a, b] if is_hex_digit(*a) && is_hex_digit(*b) => {
            Some(16 * digit_value(*a) + digit_value(*b))
        }
        _ => None,
    }
}

fn is_hex_digit(byte: u8) -> bool
    ensures { result ≡ is_hex_digit byte }
{
    matches!(byte, b'0'..=b'9' | b'a'..=b'f')
}

fn digit_value(digit: u8) -> u8
    requires { IsTrue (is_hex_digit digit) }
    ensures value { result ≡ digit_value digit }
    ensures small { result < 16 }
{
    if digit <= b'9' {
        digit - b'0'
    } else {
        digit - (b'a' - 10)
    }
}

/// The block that a word spells.
#[tactic(auto, unfolding(crate::specs::Hex::block_of))]
pub fn block_of(alloc: Global, word: &[u8]) -> Result<Option<BlockOf>, OutOfMemory>
    ensures found { IfOk result (λ found. MatchOption found (block_of word.now ≡ None) (λ block. block_of word.now ≡ Some (block_bytes block))) }
    ensures whole { IfOk result (λ found. IfSome found (λ block. is_whole block ≡ true)) }
{
    let mut bytes = [0; BLOCK];
    match read_block(word, &mut bytes) {
        Ok(()) => Ok(Some(kept(alloc, bytes)?)),
        Err(_) => Ok(None),
    }
}

fn kept(alloc: Global, bytes: [u8; BLOCK]) -> Result<BlockOf, OutOfMemory>
    ensures bytes { IfOk result (λ block. block_bytes block ≡ bytes) }
    ensures whole { IfOk result (λ block. is_whole block ≡ true) }
{
    let first = bytes[0];
    if are_equal(&bytes, first) {
        return Ok(BlockOf::Equal(first));
    }
    Ok(BlockOf::Whole(Box::new(alloc, bytes)?))
}

fn are_equal(bytes: &[u8], byte: u8) -> bool
    ensures { result ≡ list_all (λ x. x == byte) bytes.now }
{
    bytes.iter().all(|b| *b == byte)
}
