//! Devices that were found become disks of the group where their slot is good; the others go back.
ghost use Rattle.std.specs.Prelude.{◌≡◌, ◌++◌, ◌∷◌, ◌<◌, ◌≤◌, [], List, None, length, map, vec_len, vec_capacity};
ghost use Rattle.vx_mask.specs.Mask.{has};
ghost use Rattle.vx_shelf.specs.Shelf.{IsWhole, IsOut};
ghost use Rattle.vx_import.specs.Looks.{looked};
ghost use Rattle.vx_house.specs.Holders.{Holder, AreHeld};
ghost use Rattle.vx_house.specs.Scene.{shelved};
ghost use Rattle.vx_stage_import.specs.Finds.{holders_of, beside};
ghost use Rattle.vx_stage_import.specs.Giving.{IsBack, IsSorted, good_looks, disks_in, seen_disks, disk_holders};

use crate::giving::give_found;
use vx_copies::Disk;
use vx_import::{GroupDevice, half_of};
use vx_mask::contains;
use vx_piece::Piece;
use vx_shelf::Shelf;

/// Makes disks of the devices whose slot is good, and gives the others back, each under its name.
pub(crate) fn sort_out<S: Shelf>(
    finds: Vec<GroupDevice<S::P>>,
    good: u32,
    disks: &mut Vec<Disk<S::P>>,
    shelf: &mut S,
)
    requires few { length finds.items ≤ 32 }
    requires none { disks.old.items ≡ [] }
    requires room { 32 ≤ vec_capacity disks.old }
    requires held { (others : List Holder) × AreHeld (S.held shelf.old) (others ++ holders_of (map (looked S.P.seen) finds.items)) }
    ensures disks { seen_disks S.P.seen disks.new.items ≡ disks_in (good_looks good (map (looked S.P.seen) finds.items)) }
    ensures goes { (others : List Holder) → AreHeld (S.held shelf.old) (others ++ holders_of (map (looked S.P.seen) finds.items)) →
        IsBack (beside (shelved S.free S.held S.counted S.faults shelf.old) others (map (looked S.P.seen) finds.items))
        (record { shelf = shelved S.free S.held S.counted S.faults shelf.new; taken = others ++ disk_holders S.P.seen disks.new.items }) }
{
    let mut finds = finds;
    while let Some(one) = finds.pop() {
        sort_one(one, good, disks, shelf);
    }
}

/// One device becomes the first of the disks, or goes back.
fn sort_one<S: Shelf>(one: GroupDevice<S::P>, good: u32, disks: &mut Vec<Disk<S::P>>, shelf: &mut S)
    requires whole { IsWhole (S.P.seen one.piece) }
    requires out { IsOut (S.held shelf.old one.device) (S.P.seen one.piece) }
    requires room { vec_len disks.old < vec_capacity disks.old }
    ensures sorted { IsSorted (has good one.header.slot) S.P.seen (looked S.P.seen one) disks.old.items disks.new.items (shelved S.free S.held S.counted S.faults shelf.old) (shelved S.free S.held S.counted S.faults shelf.new) }
    ensures room { vec_capacity disks.old ≤ vec_capacity disks.new }
{
    if !contains(good as u64, one.header.slot as u32) {
        give_found(one, shelf);
        return;
    }
    let half = half_of(&one.reading);
    let GroupDevice {
        device,
        header,
        readable: _,
        reading: _,
        piece,
    } = one;
    let disk = Disk {
        name: header.disk,
        device,
        slot: header.slot,
        sectors: header.sectors,
        good: true,
        half,
        piece,
    };
    let _ = put_first(disks, disk);
}

/// Puts a disk before the others, where there is room for it.
fn put_first<P: Piece>(disks: &mut Vec<Disk<P>>, disk: Disk<P>) -> Option<Disk<P>>
    requires room { vec_len disks.old < vec_capacity disks.old }
    ensures none { result ≡ None }
    ensures put { disks.new.items ≡ disk ∷ disks.old.items }
    ensures room { vec_capacity disks.old ≤ vec_capacity disks.new }
{
    match disks.insert(0, disk) {
        Ok(_) => None,
        Err(failed) => Some(failed.value),
    }
}
