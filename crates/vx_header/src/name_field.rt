ghost use Rattle.std.specs.Prelude.{◌≡◌, ◌≤◌, ◌<◌, ◌+◌, ◌++◌, if◌then◌else◌, length, take, IsTrue};
ghost use Rattle.vx_names.specs.Form.{is_name};
ghost use Rattle.vx_header.specs.Sectors.{is_short_name, name_field};
ghost use Rattle.vx_header.specs.Nearest.{IsLongestName};

use vx_names::Name;
use vx_sector::{put, put_zeros};

/// Writes a name and zeros up to 32 bytes.
pub fn put_name(name: &Name, at: usize, out: &mut [u8])
    requires short { IsTrue (is_short_name name.now) }
    requires inside { at + 32 ≤ length out.old }
    ensures { take (at + 32) out.new ≡ take at out.old ++ name_field name.now }
{
    let bytes = name.as_bytes();
    put(bytes, at, out);
    put_zeros(32 - bytes.len(), at + bytes.len(), out);
}

/// The longest name of at most 24 characters that a field begins with. Where it begins with none, any name.
pub fn longest_name(field: &[u8]) -> Name
    requires { 24 ≤ length field.now }
    ensures short { IsTrue (is_short_name result) }
    ensures longest { IsLongestName field.now result }
{
    let mut longest = any_name();
    for len in 1..25 {
        longest = longer(longest, &field[..len]);
    }
    longest
}

fn any_name() -> Name
    ensures { IsTrue (is_short_name result) }
{
    Name::read(b"a").unwrap()
}

fn longer(name: Name, word: &[u8]) -> Name
    ensures { result ≡ (if is_name word.now then word.now else name) }
{
    match Name::read(word) {
        Ok(longer) => longer,
        Err(_) => name,
    }
}
