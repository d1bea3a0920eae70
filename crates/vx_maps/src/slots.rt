//! The pieces of one copy or of two by their sectors, with a hole where a page has taken its own.

ghost use Rattle.std.specs.Prelude.{◌≡◌, ◌<◌, true, None, length, is_some, map};
ghost use Rattle.std.specs.Option.{option_map};
ghost use Rattle.vx_pages.specs.Arming.{armed};
ghost use Rattle.vx_maps.specs.Arming.{armed_sheets};
ghost use Rattle.vx_pages.specs.Pieces.{copies_of};
ghost use Rattle.vx_maps.specs.Sheets.{sheets_seen};
ghost use Rattle.vx_maps.specs.Slots.{IsTakable, IsPlaceable, Moved, MovedBoth, slot_at, slots_seen};

use vx_pages::LocalPiece;

/// The pieces of each copy in order, the first at place 0.
#[derive(Drop)]
pub struct Sheets<P> {
    pub first: Vec<Option<P>>,
    pub second: Option<Vec<Option<P>>>,
}

/// Takes the piece at a place.
fn take<P: LocalPiece + Drop>(slots: &mut Vec<Option<P>>, at: usize) -> P
    requires inside { at < length slots.old.items }
    requires there { is_some (slot_at (slots_seen P.seen slots.old.items) at) ≡ true }
    ensures { Moved at (P.seen result) (slots_seen P.seen slots.old.items) (slots_seen P.seen slots.new.items) }
{
    slots[at].take().unwrap()
}

/// Puts a piece into a hole.
pub fn put<P: LocalPiece + Drop>(slots: &mut Vec<Option<P>>, at: usize, piece: P)
    requires inside { at < length slots.old.items }
    requires hole { slot_at (slots_seen P.seen slots.old.items) at ≡ None }
    ensures { Moved at (P.seen piece) (slots_seen P.seen slots.new.items) (slots_seen P.seen slots.old.items) }
{
    slots[at] = Some(piece);
}

/// Takes the piece of each copy at a place.
pub fn take_both<P: LocalPiece + Drop>(sheets: &mut Sheets<P>, at: usize) -> (P, Option<P>)
    requires { IsTakable at (sheets_seen P.seen sheets.old) }
    ensures { MovedBoth at (copies_of P.seen result.0 result.1) (sheets_seen P.seen sheets.old) (sheets_seen P.seen sheets.new) }
{
    let first = take(&mut sheets.first, at);
    match &mut sheets.second {
        Some(slots) => (first, Some(take(slots, at))),
        None => (first, None),
    }
}

/// Puts the piece of each copy into the holes at a place.
pub fn put_both<P: LocalPiece + Drop>(
    sheets: &mut Sheets<P>,
    at: usize,
    first: P,
    second: Option<P>,
)
    requires { IsPlaceable at (is_some second) (sheets_seen P.seen sheets.old) }
    ensures { MovedBoth at (copies_of P.seen first second) (sheets_seen P.seen sheets.new) (sheets_seen P.seen sheets.old) }
{
    put(&mut sheets.first, at, first);
    if let (Some(slots), Some(piece)) = (&mut sheets.second, second) {
        put(slots, at, piece);
    }
}

/// Sets when a power switch is to act on the pieces of each copy that are not cut.
pub fn arm_sheets<P: LocalPiece>(sheets: &mut Sheets<P>, stop: Option<u64>)
    ensures { sheets_seen P.seen sheets.new ≡ armed_sheets stop (sheets_seen P.seen sheets.old) }
{
    arm_slots(&mut sheets.first, stop);
    if let Some(slots) = &mut sheets.second {
        arm_slots(slots, stop);
    }
}

fn arm_slots<P: LocalPiece>(slots: &mut Vec<Option<P>>, stop: Option<u64>)
    ensures { slots_seen P.seen slots.new.items ≡ map (option_map (armed stop)) (slots_seen P.seen slots.old.items) }
{
    for index in 0..slots.len() {
        let slot = &mut slots[index];
        arm_slot(slot, stop);
    }
}

fn arm_slot<P: LocalPiece>(slot: &mut Option<P>, stop: Option<u64>)
    ensures { option_map P.seen slot.new ≡ option_map (armed stop) (option_map P.seen slot.old) }
{
    if let Some(piece) = slot {
        piece.arm(stop);
    }
}
