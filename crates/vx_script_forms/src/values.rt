ghost use Rattle.std.specs.Prelude.{◌≡◌};
ghost use Rattle.vx_script_forms.specs.Values.{numbered, maybe_named, maybe_numbered, small, byte, maybe_small, group_of};

use vx_names::Name;
use vx_script_words::Value;

fn numbered(value: &Value) -> Option<u64>
    ensures { result ≡ numbered value.now }
{
    match value {
        Value::Number(n) => Some(*n),
        _ => None,
    }
}

pub fn maybe_named(value: &Value) -> Option<Option<Name>>
    ensures { result ≡ maybe_named value.now }
{
    match value {
        Value::Nothing => Some(None),
        Value::Named(name) => Some(Some(*name)),
        _ => None,
    }
}

pub fn maybe_numbered(value: &Value) -> Option<Option<u64>>
    ensures { result ≡ maybe_numbered value.now }
{
    match value {
        Value::Nothing => Some(None),
        Value::Number(n) => Some(Some(*n)),
        _ => None,
    }
}

pub fn small(value: &Value) -> Option<u32>
    ensures { result ≡ small value.now }
{
    let n = numbered(value)?;
    if n < 1 << 32 { Some(n as u32) } else { None }
}

pub fn byte(value: &Value) -> Option<u8>
    ensures { result ≡ byte value.now }
{
    let n = numbered(value)?;
    if n < 1 << 8 { Some(n as u8) } else { None }
}

pub fn maybe_small(value: &Value) -> Option<Option<u32>>
    ensures { result ≡ maybe_small value.now }
{
    match maybe_numbered(value)? {
        None => Some(None),
        Some(n) => {
            if n < 1 << 32 {
                Some(Some(n as u32))
            } else {
                None
            }
        }
    }
}

/// The word after `-g`, which is the second value.
pub fn group_of(values: &[Value]) -> Option<Option<Name>>
    ensures { result ≡ group_of values.now }
{
    match values {
        [_, word, ..] => maybe_named(word),
        _ => None,
    }
}
