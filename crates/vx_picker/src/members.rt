//! The members of a mask in rising order.

ghost use Rattle.std.specs.Prelude.{◌≡◌, ◌<◌};
ghost use Rattle.vx_picker.specs.Picks.{IsMemberAt, members_below};

/// How many members a mask has.
pub fn count(mask: u64) -> u64
    ensures { result ≡ members_below mask 64 }
{
    let mut members = 0;
    for map in 0..64 {
        if vx_mask::contains(mask, map) {
            members += 1;
        }
    }
    members
}

/// The member of a mask at an index.
pub fn member_at(mask: u64, index: u64) -> u32
    requires { index < members_below mask 64 }
    ensures { IsMemberAt mask index result }
{
    let mut members = 0;
    for map in 0..64 {
        if vx_mask::contains(mask, map) {
            if members == index {
                return map;
            }
            members += 1;
        }
    }
    64
}
