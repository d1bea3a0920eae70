ghost use Rattle.std.specs.Prelude.{◌≡◌, ◌++◌, ◌≤◌, [], IfOk, OnOk, IfSome, MatchOption, None, Some};
ghost use Rattle.vx_new_volumes.specs.Naming.{as_name, two_digits, numbered, name_at, next_name, names_behind};

use crate::known::Known;
use std::alloc::Global;
use vx_base::OutOfMemory;
use vx_names::Name;

/// A new name, and the number in it.
#[derive(Clone, Copy)]
pub(crate) struct Numbered {
    pub(crate) name: Name,
    pub(crate) number: u64,
}

/// The word, where it is a name.
pub(crate) fn as_name(word: &[u8]) -> Option<Name>
    ensures { result ≡ as_name word.now }
{
    Name::read(word).ok()
}

/// Appends a number in at least two digits.
fn put_two_digits(word: &mut Vec<u8>, number: u64) -> Result<(), OutOfMemory>
    ensures { OnOk result (word.new.items ≡ word.old.items ++ two_digits number) }
{
    if number < 10 {
        word.push(b'0')?;
    }
    Name::number(number).put(word)
}

fn word_of(alloc: Global, stem: &[u8], number: u64) -> Result<Vec<u8>, OutOfMemory>
    ensures { IfOk result (λ word. word.items ≡ numbered stem.now number) }
{
    let mut word = Vec::new(alloc);
    word.extend_from_slice(stem)?;
    word.push(b'-')?;
    put_two_digits(&mut word, number)?;
    Ok(word)
}

/// The name of a number of at most six digits, where it is one.
fn name_at(alloc: Global, stem: &[u8], number: u64) -> Result<Option<Name>, OutOfMemory>
    ensures name { IfOk result (λ name. name ≡ name_at stem.now number) }
    ensures few { IfOk result (λ name. IfSome name (λ _. number ≤ 999999)) }
{
    if number > 999_999 {
        return Ok(None);
    }
    let word = word_of(alloc, stem, number)?;
    Ok(as_name(&word))
}

/// The first number from one on whose name is not known.
pub(crate) fn next_name(
    alloc: Global,
    known: &Known,
    stem: &[u8],
    from: u64,
) -> Result<Option<Numbered>, OutOfMemory>
    ensures name { IfOk result (λ made. MatchOption made (next_name known.now.names.items stem.now from ≡ None) (λ t. next_name known.now.names.items stem.now from ≡ Some (record { name = t.name; number = t.number }))) }
    ensures few { IfOk result (λ made. IfSome made (λ t. t.number ≤ 999999)) }
{
    let mut number = from;
    for _ in 0..=known.names.len() {
        let Some(name) = name_at(alloc, stem, number)? else {
            return Ok(None);
        };
        if !known.has(&name) {
            return Ok(Some(Numbered { name, number }));
        }
        number += 1;
    }
    Ok(None)
}

/// So many new names with rising numbers from 1 on.
pub(crate) fn new_names(
    alloc: Global,
    known: &Known,
    count: usize,
    stem: &[u8],
) -> Result<Option<Vec<Name>>, OutOfMemory>
    ensures { IfOk result (λ made. MatchOption made (names_behind count [] known.now.names.items stem.now 1 ≡ None) (λ names. names_behind count [] known.now.names.items stem.now 1 ≡ Some names.items)) }
{
    let mut names = Vec::new(alloc);
    let mut from = 1;
    for _ in 0..count {
        let Some(next) = next_name(alloc, known, stem, from)? else {
            return Ok(None);
        };
        names.push(next.name)?;
        from = next.number + 1;
    }
    Ok(Some(names))
}
