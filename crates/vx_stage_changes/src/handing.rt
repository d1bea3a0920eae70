//! Devices that leave the hand as disks of a new group, and come back to it.
ghost use Rattle.std.specs.Prelude.{◌≡◌, ◌≤◌, [], length, map, vec_capacity, IfOk, OnOk, OnErr};
ghost use Rattle.vx_stage_changes.specs.Creating.{disks_from, taken_of};

use crate::joining::{disk_for, taken_of};
use std::alloc::Global;
use std::mem;
use vx_base::OutOfMemory;
use vx_copies::Disk;
use vx_house::Taken;
use vx_piece::Piece;
use vx_script_words::DiskAt;

/// The most disks of a group.
const MOST_DISKS: usize = 32;

/// Takes the devices out of the hand, which has room for them then, as disks with the names of the words in their order.
pub(crate) fn enlisted<P: Piece + Drop>(
    alloc: Global,
    hand: &mut Vec<Taken<P>>,
    pairs: &[DiskAt],
) -> Result<Vec<Disk<P>>, OutOfMemory>
    requires long { length hand.old.items ≡ length pairs.now }
    ensures few { IfOk result (λ disks. length disks.items ≤ 32) }
    ensures disks { IfOk result (λ disks. disks.items ≡ disks_from P.seen 0 hand.old.items pairs.now) }
    ensures empty { OnOk result (hand.new.items ≡ []) }
    ensures room { IfOk result (λ disks. length disks.items ≤ vec_capacity hand.new) }
    ensures same { OnErr result (hand.new ≡ hand.old) }
{
    let count = pairs.len();
    if count > MOST_DISKS {
        return Err(OutOfMemory);
    }
    let disks = Vec::with_capacity(alloc, count)?;
    let room = Vec::with_capacity(alloc, count)?;
    let taken = mem::replace(hand, room);
    Ok(disks_of(disks, taken, pairs))
}

/// The devices as disks with the names of the words in their order.
fn disks_of<P: Piece + Drop>(
    room: Vec<Disk<P>>,
    devices: Vec<Taken<P>>,
    pairs: &[DiskAt],
) -> Vec<Disk<P>>
    requires empty { room.items ≡ [] }
    requires room { length pairs.now ≤ vec_capacity room }
    requires long { length devices.items ≡ length pairs.now }
    requires few { length pairs.now ≤ 32 }
    ensures disks { result.items ≡ disks_from P.seen 0 devices.items pairs.now }
    ensures long { length result.items ≡ length pairs.now }
{
    let mut disks = room;
    for taken in devices {
        let slot = disks.len();
        disks.push_reserved(disk_for(&pairs[slot], slot as u8, taken));
    }
    disks
}

/// Puts the devices of the disks into the empty hand.
pub(crate) fn give_back<P: Piece + Drop>(disks: Vec<Disk<P>>, hand: &mut Vec<Taken<P>>)
    requires empty { hand.old.items ≡ [] }
    requires room { length disks.items ≤ vec_capacity hand.old }
    ensures { hand.new.items ≡ map taken_of disks.items }
{
    for disk in disks {
        hand.push_reserved(taken_of(disk));
    }
}
