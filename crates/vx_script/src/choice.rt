ghost use Rattle.std.specs.Prelude.{◌≡◌, MatchResult, IsTrue, Ok};
ghost use Rattle.std.specs.List.{flat_map};
ghost use Rattle.vx_script.specs.Choice.{choose, are_apart};
ghost use Rattle.vx_script_forms.specs.Table.{kinds_of};
ghost use Rattle.vx_script_words.specs.Gives.{Fails};

use std::alloc::Global;
use vx_script_forms::{Head, Kind, head_key, items_of, kinds_of};
use vx_script_words::{LineFault, Value, first_word, from_word, key_text, row};

/// A line's form, and the N of its `cut=N`.
#[derive(Clone, Copy)]
pub struct Chosen {
    pub kind: Kind,
    pub cut: Option<u64>,
}

/// The first of the kinds whose parts the line fits, and its values. Those that begin with another word than the line are
/// not tried. What the values were is lost; their memory serves again.
pub fn choose(
    alloc: Global,
    may_be_cut: bool,
    heads: &[Head],
    values: &mut Vec<Value>,
    text: &[u8],
) -> Result<Chosen, LineFault>
    requires { IsTrue (are_apart heads.now) }
    ensures { MatchResult result (λ chosen. choose may_be_cut (flat_map kinds_of heads.now) text.now ≡ Ok (record { kind = chosen.kind; values = values.new.items; cut = chosen.cut })) (λ stop. Fails stop (choose may_be_cut (flat_map kinds_of heads.now) text.now)) }
{
    let from = from_word(text);
    let word = first_word(from);
    for head in heads {
        if word == key_text(head_key(*head)) {
            return among(alloc, may_be_cut, kinds_of(*head), values, text);
        }
    }
    Err(LineFault::Left(from.len()))
}

fn among(
    alloc: Global,
    may_be_cut: bool,
    kinds: &[Kind],
    values: &mut Vec<Value>,
    text: &[u8],
) -> Result<Chosen, LineFault>
    ensures { MatchResult result (λ chosen. choose may_be_cut kinds.now text.now ≡ Ok (record { kind = chosen.kind; values = values.new.items; cut = chosen.cut })) (λ stop. Fails stop (choose may_be_cut kinds.now text.now)) }
{
    let mut least = from_word(text).len();
    for kind in kinds {
        values.clear();
        match row(alloc, may_be_cut, items_of(*kind), values, text) {
            Ok(cut) => return Ok(Chosen { kind: *kind, cut }),
            Err(LineFault::OutOfMemory) => return Err(LineFault::OutOfMemory),
            Err(LineFault::Left(left)) => least = least.min(left),
        }
    }
    Err(LineFault::Left(least))
}
