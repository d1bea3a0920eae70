ghost use Rattle.std.specs.Prelude.{◌≡◌, IfSome, MatchOption, Some, None};
ghost use Rattle.vx_script_words.specs.Parts.{behind, name_of, name_behind, cut_of, pair_of, plex_of, break_off_of, both};

use crate::{DiskAt, Value, number_within, past, up_to};
use vx_names::Name;

const LAST: u64 = (1 << 40) - 1;

/// What follows the front, where the word begins with it.
pub fn behind<'a>(front: &[u8], word: &'a [u8]) -> Option<&'a [u8]>
    ensures { MatchOption result (behind front.now word.now ≡ None) (λ rest. behind front.now word.now ≡ Some rest.now) }
{
    if word.len() < front.len() {
        return None;
    }
    let (head, rest) = word.split_at(front.len());
    if head == front { Some(rest) } else { None }
}

pub fn name_of(word: &[u8]) -> Option<Name>
    ensures { result ≡ name_of word.now }
{
    match Name::read(word) {
        Ok(name) => Some(name),
        Err(_) => None,
    }
}

fn name_behind(front: &[u8], word: &[u8]) -> Option<Name>
    ensures { result ≡ name_behind (behind front.now word.now) }
{
    let rest = behind(front, word)?;
    name_of(rest)
}

/// The number of a word `cut=N`.
pub fn cut_of(word: &[u8]) -> Option<u64>
    ensures { result ≡ cut_of word.now }
{
    let rest = behind(b"cut=", word)?;
    number_within(0, LAST, rest)
}

/// A disk and its device. A word `cut=N` is none.
pub fn pair_of(word: &[u8]) -> Option<DiskAt>
    ensures { result ≡ pair_of word.now }
{
    if cut_of(word).is_some() {
        return None;
    }
    let disk = name_of(up_to(b'=', word))?;
    let device = name_of(past(b'=', word))?;
    Some(DiskAt { disk, device })
}

fn plex_of(word: &[u8]) -> Option<Option<Name>>
    ensures { result ≡ plex_of word.now }
{
    if word == b"nmirror=1".as_slice() {
        return Some(None);
    }
    let plex = name_behind(b"plex=", word)?;
    Some(Some(plex))
}

/// The volume, the snapshot, and its plex where it is named.
pub fn break_off_of(word: &[u8]) -> Option<Value>
    ensures { result ≡ break_off_of word.now }
{
    let vol = name_of(up_to(b'/', word))?;
    let rest = past(b'/', word);
    let snap = name_behind(b"newvol=", up_to(b'/', rest))?;
    let plex = plex_of(past(b'/', rest))?;
    Some(Value::BreakOff { vol, snap, plex })
}
