ghost use Rattle.std.specs.Prelude.{◌≡◌, ◌++◌, List, ℕ, Option, IsTrue, IfOk, IfErr, OnOk, Ok};
ghost use Rattle.std.specs.Prelude.{◌∷◌, IfSome, IfNone};
ghost use Rattle.vx_names.specs.Attribute.{is_attr, is_value, value_word, attr_word, IsBadAttr, IsAttrWord, IsValueWord};
ghost use Rattle.vx_names.specs.Form.{is_name};
ghost use Rattle.vx_names.specs.Named.{name_front};
ghost use Rattle.vx_names.specs.Place.{IsPlace};

use crate::name::{Name, after, begins_with, name_front};
use vx_base::OutOfMemory;

/// An attribute: a name and its value, which may be none.
#[derive(Clone, Copy, Debug, PartialEq, Eq)]
pub struct Attr {
    pub name: Name,
    pub value: Option<Name>,
}

/// A word that is no attribute.
#[derive(Clone, Copy, Debug, PartialEq, Eq)]
pub enum AttrFault {
    /// The first byte at which no attribute goes on, or the word's length.
    BadAttr(u64),
}

impl Attr {
    /// The attribute that the word `name=value` spells; the value `-` is none.
    pub fn read(word: &[u8]) -> Result<Attr, AttrFault>
        ensures spelled { IfOk result (λ attr. word.now ≡ attr_word attr) }
        ensures form { IfOk result (λ attr. IsTrue (is_attr attr)) }
        ensures only { (attr : Attr) → IsTrue (is_attr attr) → word.now ≡ attr_word attr → result ≡ Ok attr }
        ensures place { IfErr result (IsBadAttr word.now) }
    {
        let front = name_front(word);
        let Ok(name) = Name::read(&word[..front]) else {
            return Err(AttrFault::BadAttr(front as u64));
        };
        let rest = after(word, front);
        if !begins_with(rest, b'=') {
            return Err(AttrFault::BadAttr(front as u64));
        }
        match read_value(after(rest, 1)) {
            Ok(value) => Ok(Attr { name, value }),
            Err(place) => Err(AttrFault::BadAttr((front + 1 + place) as u64)),
        }
    }

    /// Appends `name=value`.
    pub fn put(&self, out: &mut Vec<u8>) -> Result<(), OutOfMemory>
        ensures text { OnOk result (out.new.items ≡ out.old.items ++ attr_word self.now) }
        ensures form { OnOk result (IsTrue (is_attr self.now)) }
    {
        self.name.put(out)?;
        out.push(b'=')?;
        match &self.value {
            None => out.push(b'-')?,
            Some(value) => value.put(out)?,
        }
        Ok(())
    }
}

/// The value that the word spells, or its place; `-` is none.
fn read_value(word: &[u8]) -> Result<Option<Name>, usize>
    ensures spelled { IfOk result (λ value. word.now ≡ value_word value) }
    ensures form { IfOk result (λ value. IsTrue (is_value value)) }
    ensures not { IfErr result (λ _. IsValueWord word.now → ⊥) }
    ensures place { IfErr result (IsPlace IsValueWord word.now) }
{
    if begins_with(word, b'-') {
        return if word.len() == 1 { Ok(None) } else { Err(1) };
    }
    match Name::read(word) {
        Ok(name) => Ok(Some(name)),
        Err(_) => Err(name_front(word)),
    }
}
