ghost use Rattle.std.specs.Prelude.{◌≡◌, ◌+◌, ◌≤◌, ◌++◌, length, take};
ghost use Rattle.vx_sector.specs.Fields.{zeros, eight_bytes, four_bytes};

/// Writes a field at a place, behind what stands before it. What lies past the field may be anything.
pub fn put(field: &[u8], at: usize, out: &mut [u8])
    requires { at + length field.now ≤ length out.old }
    ensures { take (at + length field.now) out.new ≡ take at out.old ++ field.now }
{
    out[at..at + field.len()].copy_from_slice(field);
}

/// Writes so many zero bytes at a place.
#[tactic(auto, unfolding(crate::specs::Fields::zeros))]
pub fn put_zeros(count: usize, at: usize, out: &mut [u8])
    requires { at + count ≤ length out.old }
    ensures { take (at + count) out.new ≡ take at out.old ++ zeros count }
{
    for i in 0..count {
        out[at + i] = 0;
    }
}

/// Writes a number in eight bytes, the highest first.
#[tactic(auto, unfolding(crate::specs::Fields::eight_bytes))]
pub fn put_u64(number: u64, at: usize, out: &mut [u8])
    requires { at + 8 ≤ length out.old }
    ensures { take (at + 8) out.new ≡ take at out.old ++ eight_bytes number }
{
    put(&number.to_be_bytes(), at, out);
}

/// Writes a number in four bytes, the highest first.
#[tactic(auto, unfolding(crate::specs::Fields::four_bytes))]
pub fn put_u32(number: u32, at: usize, out: &mut [u8])
    requires { at + 4 ≤ length out.old }
    ensures { take (at + 4) out.new ≡ take at out.old ++ four_bytes number }
{
    put(&number.to_be_bytes(), at, out);
}
