ghost use Rattle.std.specs.Prelude.{◌≡◌, MatchResult, MatchOption, Ok, Err, IfOk, IfNone, List, [], length};
ghost use Rattle.vx_script_words.specs.Words.{from_word};
ghost use Rattle.vx_script_words.specs.declared.value.Value.{Value};
ghost use Rattle.vx_script_words.specs.Gives.{Fails};
ghost use Rattle.vx_script_words.specs.Row.{one, maybe, group, item, items, ends, row, may_cut, line_end, any_name, Read};

use crate::lists::{more_blocks, more_pairs, some_names};
use crate::parts::pair_of;
use crate::read::put_said;
use crate::words::{first_word, from_word, past_word, split_word};
use crate::{Blocks, Class, Disks, Item, Key, LineFault, Sort, Value, block_of, cut_of};
use std::alloc::Global;
use vx_base::OutOfMemory;

/// The line's words under the parts of a form: a value for each part is put behind those that there are, and the N of
/// `cut=N` is given, which may end the line where `may_be_cut` says so. Before the first word is found nothing is
/// allocated.
#[tactic(auto, unfolding(crate::specs::Row::row))]
pub fn row(
    alloc: Global,
    may_be_cut: bool,
    form: &[Item],
    values: &mut Vec<Value>,
    text: &[u8],
) -> Result<Option<u64>, LineFault>
    requires { values.old.items ≡ [] }
    ensures { MatchResult result (λ cut. row may_be_cut form.now text.now ≡ Ok (record { values = values.new.items; cut = cut })) (λ stop. Fails stop (row may_be_cut form.now text.now)) }
{
    let rest = items(alloc, form, values, text)?;
    line_end(may_be_cut, rest)
}

fn line_end(may_be_cut: bool, text: &[u8]) -> Result<Option<u64>, LineFault>
    ensures { (values : List Value) → MatchResult result (λ cut. line_end may_be_cut (record { values = values; rest = text.now }) ≡ Ok (record { values = values; cut = cut })) (λ stop. Fails stop (line_end may_be_cut (record { values = values; rest = text.now }))) }
{
    if may_be_cut {
        may_cut(text)
    } else {
        ends(None, text)
    }
}

fn may_cut(text: &[u8]) -> Result<Option<u64>, LineFault>
    ensures { (values : List Value) → MatchResult result (λ cut. may_cut (record { values = values; rest = text.now }) ≡ Ok (record { values = values; cut = cut })) (λ stop. Fails stop (may_cut (record { values = values; rest = text.now }))) }
{
    let text = from_word(text);
    match cut_of(first_word(text)) {
        None => ends(None, text),
        Some(n) => ends(Some(n), past_word(text)),
    }
}

/// Nothing but blanks.
fn ends(cut: Option<u64>, text: &[u8]) -> Result<Option<u64>, LineFault>
    ensures { (values : List Value) → MatchResult result (λ read. ends {A = Read} (record { values = values; cut = cut }) text.now ≡ Ok (record { values = values; cut = read })) (λ stop. Fails stop (ends {A = Read} (record { values = values; cut = cut }) text.now)) }
{
    let text = from_word(text);
    match text {
        [] => Ok(cut),
        _ => Err(LineFault::Left(text.len())),
    }
}

fn items<'a>(
    alloc: Global,
    form: &[Item],
    values: &mut Vec<Value>,
    text: &'a [u8],
) -> Result<&'a [u8], LineFault>
    ensures { MatchResult result (λ rest. items form.now (Ok (record { values = values.old.items; rest = text.now })) ≡ Ok (record { values = values.new.items; rest = rest.now })) (λ stop. Fails stop (items form.now (Ok (record { values = values.old.items; rest = text.now })))) }
{
    let mut rest = text;
    for part in form {
        match item(alloc, *part, values, rest) {
            Ok(next) => rest = next,
            Err(stop) => return Err(stop),
        }
    }
    Ok(rest)
}

fn item<'a>(
    alloc: Global,
    part: Item,
    values: &mut Vec<Value>,
    text: &'a [u8],
) -> Result<&'a [u8], LineFault>
    ensures { MatchResult result (λ rest. item part values.old.items text.now ≡ Ok (record { values = values.new.items; rest = rest.now })) (λ stop. Fails stop (item part values.old.items text.now)) }
{
    match part {
        Item::One(class) => one(class, values, text),
        Item::Maybe(class) => maybe(class, values, text),
        Item::Group => group(values, text),
        Item::NoGroup => nothing(values, text),
        Item::Names => names(alloc, values, text),
        Item::Pairs => pairs(alloc, values, text),
        Item::Blocks => blocks(alloc, values, text),
    }
}

fn nothing<'a>(values: &mut Vec<Value>, text: &'a [u8]) -> Result<&'a [u8], LineFault>
    ensures { MatchResult result (λ rest. item Item.NoGroup values.old.items text.now ≡ Ok (record { values = values.new.items; rest = rest.now })) (λ stop. Fails stop (item Item.NoGroup values.old.items text.now)) }
{
    values.push(Value::Nothing)?;
    Ok(text)
}

fn group<'a>(values: &mut Vec<Value>, text: &'a [u8]) -> Result<&'a [u8], LineFault>
    ensures { MatchResult result (λ rest. group values.old.items text.now ≡ Ok (record { values = values.new.items; rest = rest.now })) (λ stop. Fails stop (group values.old.items text.now)) }
{
    let from = from_word(text);
    if first_word(from) != b"-g".as_slice() {
        return nothing(values, text);
    }
    let class = Class {
        front: Key::Nothing,
        sort: Sort::Named,
    };
    one(class, values, past_word(from))
}

fn one<'a>(class: Class, values: &mut Vec<Value>, text: &'a [u8]) -> Result<&'a [u8], LineFault>
    ensures { MatchResult result (λ rest. one class values.old.items text.now ≡ Ok (record { values = values.new.items; rest = rest.now })) (λ stop. Fails stop (one class values.old.items text.now)) }
{
    match taken(class, values, text)? {
        Some(rest) => Ok(rest),
        None => Err(LineFault::Left(from_word(text).len())),
    }
}

fn maybe<'a>(class: Class, values: &mut Vec<Value>, text: &'a [u8]) -> Result<&'a [u8], LineFault>
    ensures { MatchResult result (λ rest. maybe class values.old.items text.now ≡ Ok (record { values = values.new.items; rest = rest.now })) (λ stop. Fails stop (maybe class values.old.items text.now)) }
{
    match taken(class, values, text)? {
        Some(rest) => Ok(rest),
        None => nothing(values, text),
    }
}

/// One word of the class, whose value is put behind the others, and what follows it.
fn taken<'a>(
    class: Class,
    values: &mut Vec<Value>,
    text: &'a [u8],
) -> Result<Option<&'a [u8]>, OutOfMemory>
    ensures found { IfOk result (λ found. MatchOption found (one class values.old.items text.now ≡ Err (length (from_word text.now))) (λ rest. one class values.old.items text.now ≡ Ok (record { values = values.new.items; rest = rest.now }))) }
    ensures kept { IfOk result (λ found. IfNone found (values.new.items ≡ values.old.items)) }
{
    let (word, rest) = split_word(from_word(text));
    if put_said(class, word, values)? {
        Ok(Some(rest))
    } else {
        Ok(None)
    }
}

fn names<'a>(alloc: Global, values: &mut Vec<Value>, text: &'a [u8]) -> Result<&'a [u8], LineFault>
    ensures { MatchResult result (λ rest. item Item.Names values.old.items text.now ≡ Ok (record { values = values.new.items; rest = rest.now })) (λ stop. Fails stop (item Item.Names values.old.items text.now)) }
{
    let (names, rest) = some_names(alloc, text)?;
    values.push(Value::Names(names))?;
    Ok(rest)
}

fn pairs<'a>(alloc: Global, values: &mut Vec<Value>, text: &'a [u8]) -> Result<&'a [u8], LineFault>
    ensures { MatchResult result (λ rest. item Item.Pairs values.old.items text.now ≡ Ok (record { values = values.new.items; rest = rest.now })) (λ stop. Fails stop (item Item.Pairs values.old.items text.now)) }
{
    let text = from_word(text);
    let Some(first) = pair_of(first_word(text)) else {
        return Err(LineFault::Left(text.len()));
    };
    let disks = Disks::new(alloc).with(first)?;
    let (disks, rest) = more_pairs(disks, past_word(text))?;
    values.push(Value::Pairs(disks))?;
    Ok(rest)
}

fn blocks<'a>(alloc: Global, values: &mut Vec<Value>, text: &'a [u8]) -> Result<&'a [u8], LineFault>
    ensures { MatchResult result (λ rest. item Item.Blocks values.old.items text.now ≡ Ok (record { values = values.new.items; rest = rest.now })) (λ stop. Fails stop (item Item.Blocks values.old.items text.now)) }
{
    let text = from_word(text);
    let Some(first) = block_of(alloc, first_word(text))? else {
        return Err(LineFault::Left(text.len()));
    };
    let blocks = Blocks::new(alloc).with(first)?;
    let (blocks, rest) = more_blocks(alloc, blocks, past_word(text))?;
    values.push(Value::Blocks(blocks))?;
    Ok(rest)
}
