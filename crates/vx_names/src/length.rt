ghost use Rattle.std.specs.Prelude.{◌≡◌, ℕ, List, IfOk, IfErr, Ok, ◌≤◌, length};
ghost use Rattle.std.specs.List.{prefix_len};
ghost use Rattle.vx_names.specs.Number.{is_digit};
ghost use Rattle.vx_names.specs.Length.{unit_sectors, Measures, IsBadLength, length_place, numeral_front, unit_front};

use crate::name::begins_with;
use crate::number::{CAP, capped_value, is_digit, is_numeral};

/// A word that is no length.
#[derive(Clone, Copy, Debug, PartialEq, Eq)]
pub enum LengthFault {
    /// The first byte at which no length goes on, or the word's length.
    BadLength(u64),
}

/// The sectors that the word measures: a number, then none or one of `s`, `k`, `m` and `g`.
pub fn read_length(word: &[u8]) -> Result<u64, LengthFault>
    ensures measured { IfOk result (Measures word.now) }
    ensures only { (sectors : ℕ) → Measures word.now sectors → result ≡ Ok sectors }
    ensures place { IfErr result (IsBadLength word.now) }
{
    let front = numeral_front(word);
    let (digits, unit) = word.split_at(front);
    let each = unit_sectors(unit);
    if !is_numeral(digits) || each == 0 {
        return Err(LengthFault::BadLength(length_place(word) as u64));
    }
    let sectors = capped_value(digits) * each;
    if sectors == 0 || sectors > CAP {
        return Err(LengthFault::BadLength(word.len() as u64));
    }
    Ok(sectors)
}

/// The end of the longest front of the word with which a length begins.
fn length_place(word: &[u8]) -> usize
    ensures { result ≡ length_place word.now }
{
    let front = numeral_front(word);
    if front == 0 {
        0
    } else {
        front + unit_front(&word[front..])
    }
}

fn unit_sectors(unit: &[u8]) -> u64
    ensures { result ≡ unit_sectors unit.now }
{
    match unit {
        [] | [b's'] => 1,
        [b'k'] => 2,
        [b'm'] => 2048,
        [b'g'] => 2_097_152,
        _ => 0,
    }
}

fn numeral_front(word: &[u8]) -> usize
    ensures bytes { result ≡ numeral_front word.now }
    ensures inside { result ≤ length word.now }
{
    if begins_with(word, b'0') {
        1
    } else {
        digits_front(word)
    }
}

fn digits_front(word: &[u8]) -> usize
    ensures { result ≡ prefix_len is_digit word.now }
{
    word.iter().take_while(|b| is_digit(**b)).count()
}

fn unit_front(unit: &[u8]) -> usize
    ensures { result ≡ unit_front unit.now }
{
    match unit {
        [] => 0,
        [letter, ..] => (unit_sectors(&[*letter]) > 0) as usize,
    }
}
