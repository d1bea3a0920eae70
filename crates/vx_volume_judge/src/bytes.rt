//! Numbers and sectors in the bytes of an image, and words and numbers in texts.

/// The bytes of a sector.
const SECTOR: u64 = 512;

/// The number that these bytes spell, the first of them the highest.
pub fn number(bytes: &[u8]) -> u64 {
    let mut number = 0u64;
    for byte in bytes {
        number = number.wrapping_mul(256) | u64::from(*byte);
    }
    number
}

/// These bytes of a sector: none where it ends before them.
pub fn part(sector: &[u8], first: usize, count: usize) -> &[u8] {
    match sector.get(first..first.saturating_add(count)) {
        Some(bytes) => bytes,
        None => &[],
    }
}

/// The number that these bytes of a sector spell.
pub fn field(sector: &[u8], first: usize, count: usize) -> u64 {
    number(part(sector, first, count))
}

/// These sectors of an image, where it has them.
pub fn sectors(image: &[u8], first: u64, count: u64) -> Option<&[u8]> {
    let from = first.saturating_mul(SECTOR);
    let to = first.saturating_add(count).saturating_mul(SECTOR);
    image.get(from as usize..to as usize)
}

/// Whether all bytes are zero.
pub fn are_zero(bytes: &[u8]) -> bool {
    are_full_of(bytes, 0)
}

/// Whether all bytes are this one.
fn are_full_of(bytes: &[u8], wanted: u8) -> bool {
    for byte in bytes {
        if *byte != wanted {
            return false;
        }
    }
    true
}

/// The byte that all these bytes are.
pub fn fill_of(bytes: &[u8]) -> Option<u8> {
    let first = *bytes.first()?;
    if are_full_of(bytes, first) {
        Some(first)
    } else {
        None
    }
}

/// Whether a set of numbers below 64, as the bits of a number, has this one.
pub fn has(set: u64, number: u64) -> bool {
    set & only(number) != 0
}

/// The set that has just this number, or none where it is not below 64.
pub fn only(number: u64) -> u64 {
    if number < 64 { 1u64 << number } else { 0 }
}

/// Whether a field of a sector has this word, and zeros behind it.
pub fn spells(field: &[u8], word: &str) -> bool {
    match field.strip_prefix(word.as_bytes()) {
        Some(rest) => are_zero(rest),
        None => false,
    }
}

/// The text before a sign, and the text behind it.
pub fn cut(text: &str, sign: char) -> Option<(&str, &str)> {
    text.split_once(sign)
}

/// The number of a word of decimal digits.
pub fn decimal(word: &str) -> Option<u64> {
    let mut number = 0u64;
    for byte in word.as_bytes() {
        let digit = digit_of(*byte)?;
        number = number.checked_mul(10)?.checked_add(digit)?;
    }
    if word.is_empty() { None } else { Some(number) }
}

fn digit_of(byte: u8) -> Option<u64> {
    match byte {
        b'0'..=b'9' => Some(u64::from(byte - b'0')),
        _ => None,
    }
}

/// The byte of a word of two hexadecimal digits.
pub fn hexadecimal(word: &str) -> Option<u8> {
    if word.len() == 2 {
        u8::from_str_radix(word, 16).ok()
    } else {
        None
    }
}
