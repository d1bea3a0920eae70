ghost use Rattle.std.specs.Prelude.{◌≡◌, ◌↔◌, List, ℕ, IsTrue, IsOk, IfOk};
ghost use Rattle.std.specs.List.{list_all, prefix_len};
ghost use Rattle.std.specs.Prelude.{◌++◌, drop, decimal, false, length, min, ◌≤◌, IfErr, OnOk};
ghost use Rattle.std.proofs.Common.{rules};
ghost use Rattle.std.specs.Cmp.{partial_order_from_own_ties};
ghost use Rattle.std.specs.Cmp.Rules.{comparing};
ghost use Rattle.std.specs.Cmp.Lexicographic.{slice_cmp};
ghost use Rattle.std.specs.Ordering.{nat_cmp, as_partial_cmp};
ghost use Rattle.std.specs.Str.{bytes_eq};
ghost use Rattle.vx_names.specs.Form.{is_name, begins_well, begins_with, is_letter_or_digit, is_name_byte};
ghost use Rattle.vx_names.specs.Named.{IsBadName, name_front};

use itoa::Buffer;
use std::cmp::Ordering;
use std::marker::Model;
use vx_base::OutOfMemory;

/// A name: 1 to 31 letters, digits, `_`, `-` and `.`, the first a letter or a digit.
#[derive(Clone, Copy, Debug)]
pub struct Name {
    bytes: [u8; 31],
    len: u8,
}

impl Model for Name {
    ghost use Rattle.std.specs.Prelude.{List, ℕ};

    ghost Value = { List ℕ };

    ghost use Rattle.vx_names.specs.Inside.{name_bytes, IsPadded, padded, padded-name_bytes};

    ghost view = { name_bytes };

    ghost invariant = { IsPadded };

    ghost inverse = { padded };

    ghost inverse_ok = { padded-name_bytes };
}

/// A word that is no name.
#[derive(Clone, Copy, Debug, PartialEq, Eq)]
pub enum NameFault {
    /// The first byte at which no name goes on, or the word's length.
    BadName(u64),
}

impl Name {
    /// The name that the word spells.
    pub fn read(word: &[u8]) -> Result<Name, NameFault>
        ensures form { IsOk result ↔ IsTrue (is_name word.now) }
        ensures bytes { IfOk result (λ name. name ≡ word.now) }
        ensures place { IfErr result (IsBadName word.now) }
    {
        if !has_form(word) {
            return Err(NameFault::BadName(name_front(word) as u64));
        }
        let mut bytes = [0; 31];
        bytes[..word.len()].copy_from_slice(word);
        Ok(Name {
            bytes,
            len: word.len() as u8,
        })
    }

    /// The name that is the number's decimal digits.
    pub fn number(number: u64) -> Name
        ensures { result ≡ decimal number }
    {
        let mut buffer = Buffer::new();
        let digits = buffer.format(number).as_bytes();
        let mut bytes = [0; 31];
        bytes[..digits.len()].copy_from_slice(digits);
        Name {
            bytes,
            len: digits.len() as u8,
        }
    }

    /// How many bytes the name has: 1 to 31.
    pub fn len(&self) -> usize
        ensures bytes { result ≡ length self.now }
        ensures form { IsTrue (is_name self.now) }
    {
        self.len as usize
    }

    /// Appends the name.
    pub fn put(&self, out: &mut Vec<u8>) -> Result<(), OutOfMemory>
        ensures text { OnOk result (out.new.items ≡ out.old.items ++ self.now) }
        ensures form { IsTrue (is_name self.now) }
    {
        let _bytes = &self.bytes;
        out.extend_from_slice(self.as_bytes())?;
        Ok(())
    }

    pub fn as_bytes(&self) -> &[u8]
        ensures { result.now ≡ self.now }
    {
        &self.bytes[..self.len as usize]
    }
}

impl PartialEq for Name {
    ghost eq = { bytes_eq };

    ghost laws = { Prim.search (comparing, rules) };

    fn eq(&self, other: &Name) -> bool {
        self.as_bytes() == other.as_bytes()
    }
}

impl Eq for Name {
    ghost laws = { Prim.search (comparing, rules) };
}

impl Ord for Name {
    ghost cmp = { slice_cmp nat_cmp };

    ghost total = { Prim.search (comparing, rules) };

    ghost matches_partial_cmp = { Prim.search (comparing, rules) };

    ghost matches_eq = { Prim.search (comparing, rules) };

    fn cmp(&self, other: &Name) -> Ordering {
        self.as_bytes().cmp(other.as_bytes())
    }
}

impl PartialOrd for Name {
    ghost partial_cmp = { as_partial_cmp (slice_cmp nat_cmp) };

    ghost laws = { partial_order_from_own_ties (Prim.search (comparing, rules)) (Prim.search (comparing, rules)) };

    fn partial_cmp(&self, other: &Name) -> Option<Ordering> {
        Some(self.cmp(other))
    }
}

/// The longest front of the word with which a name begins.
pub(crate) fn name_front(word: &[u8]) -> usize
    ensures bytes { result ≡ name_front word.now }
    ensures inside { result ≤ length word.now }
{
    if begins_well(word) {
        leading(word).min(31)
    } else {
        0
    }
}

fn leading(word: &[u8]) -> usize
    ensures { result ≡ prefix_len is_name_byte word.now }
{
    word.iter().take_while(|b| is_name_byte(**b)).count()
}

fn has_form(word: &[u8]) -> bool
    ensures { result ≡ is_name word.now }
{
    begins_well(word) && word.len() <= 31 && all_name_bytes(word)
}

fn all_name_bytes(word: &[u8]) -> bool
    ensures { result ≡ list_all is_name_byte word.now }
{
    word.iter().all(|b| is_name_byte(*b))
}

fn begins_well(word: &[u8]) -> bool
    ensures { result ≡ begins_well word.now }
{
    match word {
        [] => false,
        [first, ..] => is_letter_or_digit(*first),
    }
}

/// The word without its first bytes.
pub(crate) fn after(word: &[u8], count: usize) -> &[u8]
    requires { count ≤ length word.now }
    ensures { result.now ≡ drop count word.now }
{
    word.split_at(count).1
}

pub(crate) fn begins_with(word: &[u8], byte: u8) -> bool
    ensures { result ≡ begins_with byte word.now }
{
    match word {
        [] => false,
        [first, ..] => *first == byte,
    }
}

fn is_letter_or_digit(byte: u8) -> bool
    ensures { result ≡ is_letter_or_digit byte }
{
    matches!(byte, b'0'..=b'9' | b'A'..=b'Z' | b'a'..=b'z')
}

fn is_name_byte(byte: u8) -> bool
    ensures { result ≡ is_name_byte byte }
{
    is_letter_or_digit(byte) || byte == b'_' || byte == b'-' || byte == b'.'
}
