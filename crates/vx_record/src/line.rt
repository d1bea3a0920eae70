ghost use Rattle.std.specs.Prelude.{◌≡◌, ℕ, List, ◌∷◌, ◌++◌, [], ◌<◌, ◌≤◌, ◌==◌, not, length, take, drop, IsTrue, IfSome, IfNone};
ghost use Rattle.std.specs.List.{prefix_len};
ghost use Rattle.vx_names.specs.Attribute.{is_attr};
ghost use Rattle.vx_names.specs.Form.{is_name};
ghost use Rattle.vx_record.specs.Grammar.{head_line, attr_line, lines};
ghost use Rattle.vx_record.specs.Reading.{kind_of, is_enclosed, IsNoHead, IsNoAttr};
ghost use Rattle.vx_record.specs.Table.{attr_fits};
ghost use Rattle.vx_record.specs.Words.{kind_word};

use crate::column::{Column, fits, is};
use crate::kind::Kind;
use vx_names::{Attr, Name};

/// The first line of a record.
#[derive(Clone, Copy)]
pub(crate) struct Head {
    pub(crate) kind: Kind,
    pub(crate) name: Name,
}

/// The bytes of the first line, with its newline if it has one.
pub(crate) fn line_len(text: &[u8]) -> usize
    ensures inside { result ≤ length text.now }
    ensures some { 0 < length text.now → 0 < result }
    ensures first { 0 < length text.now → lines text.now ≡ take result text.now ∷ lines (drop result text.now) }
{
    let front = front_len(text, b'\n');
    if front < text.len() { front + 1 } else { front }
}

/// The bytes before the first such byte.
fn front_len(text: &[u8], byte: u8) -> usize
    ensures { result ≡ prefix_len (λ b. not (b == byte)) text.now }
{
    text.iter().take_while(|b| **b != byte).count()
}

/// The head that the line is.
pub(crate) fn read_head(line: &[u8]) -> Option<Head>
    ensures spelled { IfSome result (λ h. line.now ≡ head_line h.kind h.name) }
    ensures named { IfSome result (λ h. IsTrue (is_name h.name)) }
    ensures none { IfNone result (IsNoHead line.now) }
{
    let space = front_len(line, b' ');
    let (word, rest) = line.split_at(space);
    let kind = kind_of(word)?;
    let name = Name::read(enclosed(b' ', rest)?).ok()?;
    Some(Head { kind, name })
}

/// The attribute that the line is, where it may stand in the column.
pub(crate) fn read_attr(line: &[u8], column: Column) -> Option<Attr>
    ensures spelled { IfSome result (λ a. line.now ≡ attr_line a) }
    ensures named { IfSome result (λ a. IsTrue (is_attr a)) }
    ensures fits { IfSome result (λ a. IsTrue (attr_fits column a)) }
    ensures none { IfNone result (IsNoAttr column line.now) }
{
    let attr = Attr::read(enclosed(b'\t', line)?).ok()?;
    if fits(column, &attr) {
        Some(attr)
    } else {
        None
    }
}

/// What stands between the byte and the newline at the end.
fn enclosed(first: u8, line: &[u8]) -> Option<&[u8]>
    ensures some { IfSome result (λ m. line.now ≡ first ∷ m.now ++ 10 ∷ []) }
    ensures none { IfNone result ((m : List ℕ) → line.now ≡ first ∷ m ++ 10 ∷ [] → ⊥) }
{
    if is_enclosed(first, line) {
        Some(line.split_at(line.len() - 1).0.split_at(1).1)
    } else {
        None
    }
}

fn is_enclosed(first: u8, line: &[u8]) -> bool
    ensures { result ≡ is_enclosed first line.now }
{
    line.len() >= 2 && line[0] == first && line[line.len() - 1] == b'\n'
}

/// The kind that the word names.
fn kind_of(word: &[u8]) -> Option<Kind>
    ensures some { IfSome result (λ kind. word.now ≡ kind_word kind) }
    ensures value { result ≡ kind_of word.now }
{
    if is(b"dg", word) {
        Some(Kind::Dg)
    } else if is(b"dm", word) {
        Some(Kind::Dm)
    } else if is(b"sd", word) {
        Some(Kind::Sd)
    } else if is(b"plex", word) {
        Some(Kind::Plex)
    } else if is(b"vol", word) {
        Some(Kind::Vol)
    } else if is(b"dco", word) {
        Some(Kind::Dco)
    } else if is(b"snap", word) {
        Some(Kind::Snap)
    } else {
        None
    }
}
