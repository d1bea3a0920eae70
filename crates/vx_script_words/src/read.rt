ghost use Rattle.std.specs.Prelude.{◌≡◌, IfOk, is_some};
ghost use Rattle.vx_script_words.specs.Class.{sort_value, class_value, as_word, as_name, as_number};
ghost use Rattle.vx_script_words.specs.Hex.{byte_of};
ghost use Rattle.vx_script_words.specs.Number.{within, number_of};
ghost use Rattle.vx_script_words.specs.Parts.{name_of};
ghost use Rattle.vx_script_words.specs.Row.{with_said};

use crate::parts::{behind, break_off_of, name_of, pair_of};
use crate::{Class, Sort, Value, byte_of, key_text, length_of, number_within};
use vx_base::OutOfMemory;

/// Puts what the word says, where it is of the class, behind the values, and tells whether it is. The commonest sorts have
/// functions of their own, since a value is moved at some cost.
#[tactic(auto, unfolding(crate::specs::Class::class_value))]
pub fn put_said(class: Class, word: &[u8], values: &mut Vec<Value>) -> Result<bool, OutOfMemory>
    ensures said { IfOk result (λ said. said ≡ is_some (class_value class word.now)) }
    ensures values { IfOk result (λ said. values.new.items ≡ with_said (class_value class word.now) values.old.items) }
{
    let Some(rest) = behind(key_text(class.front), word) else {
        return Ok(false);
    };
    match class.sort {
        Sort::Word => put_word(rest, values),
        Sort::Named => put_name(rest, values),
        Sort::Number { low, high } => put_number(low, high, rest, values),
        sort => put_other(sort, rest, values),
    }
}

fn put_word(word: &[u8], values: &mut Vec<Value>) -> Result<bool, OutOfMemory>
    ensures said { IfOk result (λ said. said ≡ is_some (as_word word.now)) }
    ensures values { IfOk result (λ said. values.new.items ≡ with_said (as_word word.now) values.old.items) }
{
    if word.is_empty() {
        values.push(Value::Word)?;
        return Ok(true);
    }
    Ok(false)
}

fn put_name(word: &[u8], values: &mut Vec<Value>) -> Result<bool, OutOfMemory>
    ensures said { IfOk result (λ said. said ≡ is_some (as_name (name_of word.now))) }
    ensures values { IfOk result (λ said. values.new.items ≡ with_said (as_name (name_of word.now)) values.old.items) }
{
    let Some(name) = name_of(word) else {
        return Ok(false);
    };
    values.push(Value::Named(name))?;
    Ok(true)
}

fn put_number(
    low: u64,
    high: u64,
    word: &[u8],
    values: &mut Vec<Value>,
) -> Result<bool, OutOfMemory>
    ensures said { IfOk result (λ said. said ≡ is_some (as_number (within low high (number_of word.now)))) }
    ensures values { IfOk result (λ said. values.new.items ≡ with_said (as_number (within low high (number_of word.now))) values.old.items) }
{
    let Some(n) = number_within(low, high, word) else {
        return Ok(false);
    };
    values.push(Value::Number(n))?;
    Ok(true)
}

#[inline(never)]
fn put_other(sort: Sort, word: &[u8], values: &mut Vec<Value>) -> Result<bool, OutOfMemory>
    ensures said { IfOk result (λ said. said ≡ is_some (sort_value sort word.now)) }
    ensures values { IfOk result (λ said. values.new.items ≡ with_said (sort_value sort word.now) values.old.items) }
{
    let Some(value) = sort_value(sort, word) else {
        return Ok(false);
    };
    values.push(value)?;
    Ok(true)
}

fn sort_value(sort: Sort, word: &[u8]) -> Option<Value>
    ensures { result ≡ sort_value sort word.now }
{
    match sort {
        Sort::Word => word_value(word),
        Sort::Named => name_of(word).map(Value::Named),
        Sort::Number { low, high } => number_within(low, high, word).map(Value::Number),
        Sort::Length => length_of(word).map(Value::Number),
        Sort::Byte => byte_value(word),
        Sort::Pair => pair_of(word).map(Value::Pair),
        Sort::BreakOff => break_off_of(word),
    }
}

fn word_value(word: &[u8]) -> Option<Value>
    ensures { result ≡ as_word word.now }
{
    match word {
        [] => Some(Value::Word),
        _ => None,
    }
}

fn byte_value(word: &[u8]) -> Option<Value>
    ensures { result ≡ as_number (byte_of word.now) }
{
    let byte = byte_of(word)?;
    Some(Value::Number(byte as u64))
}
