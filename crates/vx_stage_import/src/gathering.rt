ghost use Rattle.std.specs.Prelude.{◌≡◌, ◌<◌, ◌&&◌, ◌==◌, ◌++◌, ℕ, List, [], map, vec_capacity};
ghost use Rattle.std.specs.Str.{bytes_eq};
ghost use Rattle.std.specs.Cmp.Lexicographic.{slice_cmp};
ghost use Rattle.std.specs.Ordering.{nat_cmp};
ghost use Rattle.std.specs.declared.cmp.Ordering.{Ordering};
ghost use Rattle.std.specs.declared.cmp.Ordering.TheVariants.{Less};
ghost use Rattle.vx_base.specs.Named.{Word};
ghost use Rattle.vx_header.specs.Named.{label_of};
ghost use Rattle.vx_shelf.specs.Shelf.{IsWhole, IsOut};
ghost use Rattle.vx_shelf.specs.Listed.{IsRising};
ghost use Rattle.vx_import.specs.Looks.{looked};
ghost use Rattle.vx_house.specs.Holders.{Holder, AreHeld};
ghost use Rattle.vx_house.specs.Scene.{shelved};
ghost use Rattle.vx_stage_import.specs.Finds.{holders_of, beside, AreRoomy, AreFinds, AllBefore, HasSlot};
ghost use Rattle.vx_stage_import.specs.Gathering.{KeepEnds, LookEnds, PassGoes, GatherGoes};

use crate::placing::{place_of, put_in};
use vx_config_parts::same;
use vx_header::Header;
use vx_import::{GroupDevice, Reading, read_header};
use vx_names::Name;
use vx_piece::{Piece, PieceFault};
use vx_shelf::{Shelf, ShelfFault};

/// How the looking at devices ended.
#[derive(Clone, Copy, Debug, PartialEq, Eq)]
pub(crate) enum Passed {
    Done,
    /// The power is gone.
    Cut,
    /// The shelf had no memory for a device.
    OutOfMemory,
}

/// Takes each device of these names and reads its header. Those of the group are kept, the first by name of each slot; the
/// others are given back at once. A device that cannot be taken or read is passed over.
pub(crate) fn gather<S: Shelf>(
    shelf: &mut S,
    names: &[Name],
    dg: &Name,
    finds: &mut Vec<GroupDevice<S::P>>,
) -> Passed
    requires rising { IsRising names.now }
    requires none { finds.old.items ≡ [] }
    requires finds { AreFinds S.P.seen dg.now (vec_capacity finds.old) finds.old.items }
    ensures finds { AreFinds S.P.seen dg.now (vec_capacity finds.new) finds.new.items }
    ensures goes { (others : List Holder) → AreHeld (S.held shelf.old) others →
        GatherGoes result dg.now names.now
        (record { shelf = shelved S.free S.held S.counted S.faults shelf.old; taken = others })
        (beside (shelved S.free S.held S.counted S.faults shelf.new) others (map (looked S.P.seen) finds.new.items))
        (map (looked S.P.seen) finds.new.items) }
{
    let mut i = 0;
    'names: while i < names.len() {
        let name = &names[i];
        match pass(shelf, name, dg, finds) {
            Passed::Done => {}
            Passed::Cut => return Passed::Cut,
            Passed::OutOfMemory => return Passed::OutOfMemory,
        }
        i += 1;
    }
    Passed::Done
}

/// One device: it is kept, or given back, or could not be taken.
fn pass<S: Shelf>(
    shelf: &mut S,
    name: &Name,
    dg: &Name,
    finds: &mut Vec<GroupDevice<S::P>>,
) -> Passed
    requires finds { AreFinds S.P.seen dg.now (vec_capacity finds.old) finds.old.items }
    requires before { AllBefore (map (looked S.P.seen) finds.old.items) name.now }
    ensures finds { AreFinds S.P.seen dg.now (vec_capacity finds.new) finds.new.items }
    ensures before { (next : Word) → AllBefore (map (looked S.P.seen) finds.old.items) next → slice_cmp nat_cmp name.now next ≡ Ordering.Less → AllBefore (map (looked S.P.seen) finds.new.items) next }
    ensures more { (slot : ℕ) (other : Word) → HasSlot slot other (map (looked S.P.seen) finds.old.items) → HasSlot slot other (map (looked S.P.seen) finds.new.items) }
    ensures goes { (others : List Holder) → AreHeld (S.held shelf.old) (others ++ holders_of (map (looked S.P.seen) finds.old.items)) →
        PassGoes result dg.now name.now
        (beside (shelved S.free S.held S.counted S.faults shelf.old) others (map (looked S.P.seen) finds.old.items))
        (beside (shelved S.free S.held S.counted S.faults shelf.new) others (map (looked S.P.seen) finds.new.items))
        (map (looked S.P.seen) finds.new.items) }
{
    match shelf.take(name) {
        Ok(piece) => look(shelf, name, dg, finds, piece),
        Err(ShelfFault::OutOfMemory) => Passed::OutOfMemory,
        Err(ShelfFault::NoDisk) => Passed::Done,
        Err(ShelfFault::Held) => Passed::Done,
        Err(ShelfFault::Failed) => Passed::Done,
        Err(ShelfFault::Exists) => Passed::Done,
    }
}

/// A device that was taken: it is kept or given back.
fn look<S: Shelf>(
    shelf: &mut S,
    name: &Name,
    dg: &Name,
    finds: &mut Vec<GroupDevice<S::P>>,
    piece: S::P,
) -> Passed
    requires whole { IsWhole (S.P.seen piece) }
    requires some { 0 < (S.P.seen piece).sectors }
    requires out { IsOut (S.held shelf.old name.now) (S.P.seen piece) }
    requires finds { AreFinds S.P.seen dg.now (vec_capacity finds.old) finds.old.items }
    ensures finds { AreFinds S.P.seen dg.now (vec_capacity finds.new) finds.new.items }
    ensures ends { LookEnds result dg.now name.now (S.P.seen piece) (map (looked S.P.seen) finds.old.items) (map (looked S.P.seen) finds.new.items)
        (shelved S.free S.held S.counted S.faults shelf.old) (shelved S.free S.held S.counted S.faults shelf.new) }
{
    let mut piece = piece;
    match read_header(&mut piece) {
        Ok(Some(header)) => {
            keep(shelf, name, dg, finds, piece, header);
            Passed::Done
        }
        Ok(None) => {
            shelf.give(name, piece);
            Passed::Done
        }
        Err(PieceFault::Failed) => {
            shelf.give(name, piece);
            Passed::Done
        }
        Err(PieceFault::PowerLost) => {
            shelf.give(name, piece);
            Passed::Cut
        }
    }
}

/// A device with a header: it is kept where the header names the group and the device's size, and no device that is kept
/// has the slot.
fn keep<S: Shelf>(
    shelf: &mut S,
    name: &Name,
    dg: &Name,
    finds: &mut Vec<GroupDevice<S::P>>,
    piece: S::P,
    header: Header,
)
    requires whole { IsWhole (S.P.seen piece) }
    requires out { IsOut (S.held shelf.old name.now) (S.P.seen piece) }
    requires room { AreRoomy (vec_capacity finds.old) finds.old.items }
    ensures room { AreRoomy (vec_capacity finds.new) finds.new.items }
    ensures ends { KeepEnds dg.now name.now (label_of header) (S.P.seen piece) (map (looked S.P.seen) finds.old.items) (map (looked S.P.seen) finds.new.items)
        (shelved S.free S.held S.counted S.faults shelf.old) (shelved S.free S.held S.counted S.faults shelf.new) }
{
    if !counts(&header, dg, piece.sectors()) {
        shelf.give(name, piece);
        return;
    }
    match place_of(finds, header.slot) {
        None => shelf.give(name, piece),
        Some(place) => {
            let found = GroupDevice {
                device: *name,
                header,
                readable: true,
                reading: Reading::Blank,
                piece,
            };
            let _ = put_in(finds, place, found);
        }
    }
}

/// Whether the header names the group and the size.
fn counts(header: &Header, dg: &Name, sectors: u64) -> bool
    ensures { result ≡ (bytes_eq header.now.group dg.now && header.now.sectors == sectors) }
{
    same(&header.group, dg) && header.sectors == sectors
}
