ghost use Rattle.std.specs.Prelude.{◌≡◌};
ghost use Rattle.std.specs.Str.{bytes_eq};
ghost use Rattle.vx_config_parts.specs.Objects.{comes_before, refers};

use std::cmp::Ordering;
use vx_names::Name;

/// The names are equal.
pub fn same(a: &Name, b: &Name) -> bool
    ensures { result ≡ bytes_eq a.now b.now }
{
    a.as_bytes() == b.as_bytes()
}

/// The attribute names that object.
pub fn refers(attribute: &Option<Name>, name: &Name) -> bool
    ensures { result ≡ refers attribute.now name.now }
{
    match attribute {
        None => false,
        Some(referred) => same(referred, name),
    }
}

/// The first name comes before the second, byte by byte.
pub fn comes_before(a: &Name, b: &Name) -> bool
    ensures { result ≡ comes_before a.now b.now }
{
    a.as_bytes().cmp(&b.as_bytes()) == Ordering::Less
}
