ghost use Rattle.std.specs.Prelude.{◌≡◌, ◌<◌, ◌≤◌, length, insert, None, vec_len, vec_capacity, Option};
ghost use Rattle.vx_stage_import.specs.Places.{slots_of, PlaceIs, ArePlaced};

use vx_import::GroupDevice;
use vx_piece::Piece;

/// Where a device of the slot goes among others, in the order of slots; None where one of them has the slot.
pub(crate) fn place_of<P: Piece>(found: &[GroupDevice<P>], slot: u8) -> Option<usize>
    requires { ArePlaced (slots_of found.now) }
    ensures { PlaceIs result slot (slots_of found.now) }
{
    let mut i = 0;
    'slots: while i < found.len() {
        let here = found[i].header.slot;
        if here == slot {
            return None;
        }
        if here > slot {
            return Some(i);
        }
        i += 1;
    }
    Some(i)
}

/// Puts a device into its place, where there is room for it.
pub(crate) fn put_in<P: Piece>(
    finds: &mut Vec<GroupDevice<P>>,
    place: usize,
    found: GroupDevice<P>,
) -> Option<GroupDevice<P>>
    requires place { place ≤ length finds.old.items }
    requires room { vec_len finds.old < vec_capacity finds.old }
    ensures none { result ≡ None }
    ensures put { finds.new.items ≡ insert finds.old.items place found }
    ensures room { vec_capacity finds.old ≤ vec_capacity finds.new }
{
    match finds.insert(place, found) {
        Ok(_) => None,
        Err(failed) => Some(failed.value),
    }
}
