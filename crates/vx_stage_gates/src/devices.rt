//! The sizes of devices in hand, and the records that they are to become.
ghost use Rattle.std.specs.Prelude.{◌≡◌, ◌∷◌, ◌+◌, ◌<◌, ◌≤◌, map, length, Some, IfOk};
ghost use Rattle.std.specs.List.{list_all};
ghost use Rattle.vx_block.specs.Geometry.{is_geometry};
ghost use Rattle.vx_header.specs.Sectors.{is_short_name};
ghost use Rattle.vx_rules.specs.Rules.{first_broken};
ghost use Rattle.vx_stages.specs.Records.{devices_of, names_of, sectors_at, is_disk_size, are_disk_sized, slot_in, disk_record, new_records};
ghost use Rattle.vx_stages.specs.Refusals.{refusal_from};
ghost use Rattle.vx_stages.specs.Tests.{limit_passed};
ghost use Rattle.vx_stage_gates.specs.Sizes.{sectors_seen};
ghost use Rattle.vx_house.specs.Holders.{hand_holder, held_as};
ghost use Rattle.vx_house.specs.Plain.{plain};
ghost use Rattle.vx_house.specs.View.{group_of};

use crate::slots::next_slot;
use std::alloc::Global;
use vx_answers::Refusal;
use vx_base::OutOfMemory;
use vx_block::Geometry;
use vx_config_parts::{Disk, Limit, same};
use vx_header::PRIVATE_SECTORS;
use vx_house::{House, Imported, Taken};
use vx_names::Name;
use vx_objects::{Group, Object};
use vx_piece::Piece;
use vx_rules::first_broken;
use vx_script_words::DiskAt;
use vx_stages::refusal_from;

/// The most sectors of a disk's device.
const MOST_SECTORS: u64 = 1 << 40;

/// The most disks of a group.
const MOST_DISKS: usize = 32;

/// The sectors of the device in hand of the name; 0 where none has it.
fn sectors_of<P: Piece>(house: &House<P>, device: &Name) -> u64
    ensures { result ≡ sectors_at (plain P.seen house.now) device.now }
{
    sectors_among(house.hand.as_slice(), device)
}

fn sectors_among<P: Piece>(hand: &[Taken<P>], device: &Name) -> u64
    ensures { result ≡ sectors_seen (held_as (map (hand_holder P.seen) hand.now) device.now) }
{
    match hand {
        [] => 0,
        [first, rest @ ..] => {
            if same(&first.device, device) {
                first.piece.sectors()
            } else {
                sectors_among(rest, device)
            }
        }
    }
}

/// The device makes a volume of regions of 128 sectors.
pub(crate) fn is_volume_sized<P: Piece>(house: &House<P>, device: &Name) -> bool
    ensures { result ≡ is_geometry (sectors_at (plain P.seen house.now) device.now) 128 }
{
    Geometry::new(sectors_of(house, device), 128).is_some()
}

/// The size is that of a disk.
fn is_disk_size(sectors: u64) -> bool
    ensures { result ≡ is_disk_size sectors }
{
    PRIVATE_SECTORS < sectors && sectors <= MOST_SECTORS
}

/// All these devices have the size of a disk.
fn are_disk_sized<P: Piece>(house: &House<P>, disks: &[DiskAt]) -> bool
    ensures { result ≡ list_all (λ p. is_disk_size (sectors_at (plain P.seen house.now) p.device)) disks.now }
{
    disks
        .iter()
        .all(|disk| is_disk_size(sectors_of(house, &disk.device)))
}

/// All these names have at most 24 characters.
fn are_short(disks: &[DiskAt]) -> bool
    ensures { result ≡ list_all (λ p. is_short_name p.disk) disks.now }
{
    disks.iter().all(|disk| is_short(&disk.disk))
}

fn is_short(name: &Name) -> bool
    ensures { result ≡ is_short_name name.now }
{
    name.len() <= 24
}

/// The first limit that a new group passes, if it passes one.
#[tactic(auto, using(crate::proofs::DiskLists::short_names, crate::proofs::DiskLists::sized_devices))]
pub(crate) fn group_limits<P: Piece>(
    house: &House<P>,
    dg: &Name,
    disks: &[DiskAt],
) -> Option<Refusal>
    ensures { result ≡ limit_passed (length disks.now) (dg.now ∷ names_of disks.now) (are_disk_sized (plain P.seen house.now) (devices_of disks.now)) }
{
    if !are_disk_sized(house, disks) {
        return Some(Refusal::DeviceLimit);
    }
    if disks.len() > MOST_DISKS {
        return Some(Refusal::Limit(Limit::Disks));
    }
    if is_short(dg) && are_short(disks) {
        None
    } else {
        Some(Refusal::Limit(Limit::Name))
    }
}

/// The first limit that disks pass which are to join the imported group, if they pass one.
#[tactic(auto, using(crate::proofs::DiskLists::short_names, crate::proofs::DiskLists::sized_devices))]
pub(crate) fn join_limits<P: Piece>(house: &House<P>, disks: &[DiskAt]) -> Option<Refusal>
    ensures { result ≡ limit_passed (slot_in (group_of P.seen house.now.group) + 1) (names_of disks.now) (are_disk_sized (plain P.seen house.now) (devices_of disks.now)) }
{
    if !are_disk_sized(house, disks) {
        return Some(Refusal::DeviceLimit);
    }
    if slot_in(&house.group) >= MOST_DISKS {
        return Some(Refusal::Limit(Limit::Disks));
    }
    if are_short(disks) {
        None
    } else {
        Some(Refusal::Limit(Limit::Name))
    }
}

fn slot_in<P: Piece>(group: &Option<Imported<P>>) -> usize
    ensures { result ≡ slot_in (group_of P.seen group.now) }
{
    match group {
        None => 0,
        Some(group) => next_slot(&group.config) as usize,
    }
}

/// With which refusal the records of a new group break a rule, if they do.
pub(crate) fn has_group_records<P: Piece>(
    alloc: Global,
    house: &House<P>,
    dg: &Name,
    disks: &[DiskAt],
) -> Result<Option<Refusal>, OutOfMemory>
    requires few { length disks.now ≤ 32 }
    ensures { IfOk result (λ refusal. refusal ≡ refusal_from (first_broken (new_records dg.now (plain P.seen house.now) disks.now))) }
{
    let records = new_records(alloc, house, dg, disks)?;
    let broken = first_broken(alloc, &records)?;
    refusal_from(&broken)
}

/// The records of a new group and of its disks, which have their public regions behind the private ones.
pub fn new_records<P: Piece>(
    alloc: Global,
    house: &House<P>,
    dg: &Name,
    disks: &[DiskAt],
) -> Result<Vec<Object>, OutOfMemory>
    requires few { length disks.now ≤ 32 }
    ensures { IfOk result (λ records. records.items ≡ new_records dg.now (plain P.seen house.now) disks.now) }
{
    let mut records = Vec::with_capacity(alloc, 1)?;
    records.push(Object::GroupRecord(Group {
        name: *dg,
        version: 1,
    }))?;
    let mut slot = 0;
    for disk in disks {
        records.push(Object::DiskRecord(disk_record(house, disk, slot)))?;
        slot += 1;
    }
    Ok(records)
}

fn disk_record<P: Piece>(house: &House<P>, disk: &DiskAt, slot: u8) -> Disk
    ensures { result ≡ disk_record disk.now slot (sectors_at (plain P.seen house.now) disk.now.device) }
{
    Disk {
        name: disk.disk,
        device: disk.device,
        slot,
        publen: sectors_of(house, &disk.device).saturating_sub(PRIVATE_SECTORS),
    }
}
