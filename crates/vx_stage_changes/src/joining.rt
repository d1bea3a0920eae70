//! A disk that joins the imported group.
ghost use Rattle.std.specs.Prelude.{◌≡◌, ◌-◌, ◌<◌, ◌≤◌, ◌^◌, length, map, IfOk, IfErr, IsTrue, IfSome, None, [], ◌∷◌};
ghost use Rattle.vx_copies.specs.Disks.{disk_seen};
ghost use Rattle.vx_confdb.specs.Prepare.{IsFresh, OffersNone};
ghost use Rattle.vx_header.specs.Named.{header_of};
ghost use Rattle.vx_header.specs.Sectors.{is_short_name};
ghost use Rattle.vx_stages.specs.Records.{disk_record};
ghost use Rattle.vx_copies.specs.Lists.{AllOf};
ghost use Rattle.vx_house.specs.Goes.{IsBlankSeen, IsReady, StageGoes};
ghost use Rattle.vx_house.specs.Holders.{holders, AreHeld};
ghost use Rattle.vx_house.specs.Scene.{Shelved};
ghost use Rattle.vx_house.specs.View.{at, IsGroupKept, KeepsHouse};
ghost use Rattle.vx_stages.specs.declared.stage.Stage.TheVariants as stages;
ghost use Rattle.vx_objects.specs.declared.edit.Edit.TheVariants as edits;
ghost use Rattle.vx_stage_changes.specs.Committing.{stop_of};
ghost use Rattle.vx_stage_changes.specs.Joining.{disk_for, AddEnds, HandEnds, JoinEnds};
ghost use Rattle.vx_stage_changes.specs.Planning.{IsPlanned, IsUnplanned};

use crate::planning::{NextConfig, planned};
use crate::slots::free_slot;
use crate::{LATE, stop_of};
use std::alloc::Global;
use vx_answers::Refusal;
use vx_config_parts::Disk as Record;
use vx_copies::Disk;
use vx_header::PRIVATE_SECTORS;
use vx_house::{House, Imported, Stop, Taken, refused};
use vx_names::Name;
use vx_objects::{Config, Edit};
use vx_piece::Piece;
use vx_script_words::DiskAt;

/// The most sectors of a disk's device.
pub(crate) const MOST_SECTORS: u64 = 1 << 40;

/// What is to be committed: the configuration with the disk.
fn with_disk(
    alloc: Global,
    config: &Config,
    pair: &DiskAt,
    slot: u8,
    sectors: u64,
) -> Result<NextConfig, Stop>
    requires more { 2048 < sectors }
    ensures planned { IfOk result (IsPlanned (edits.AddDisk (disk_record pair.now slot sectors) ∷ []) config.now) }
    ensures unplanned { IfErr result (IsUnplanned (edits.AddDisk (disk_record pair.now slot sectors) ∷ []) config.now) }
{
    let disk = Record {
        name: pair.disk,
        device: pair.device,
        slot,
        publen: sectors - PRIVATE_SECTORS,
    };
    planned(alloc, config, &[Edit::AddDisk(disk)])
}

/// The device as a disk that nothing was written to.
pub(crate) fn disk_for<P: Piece>(pair: &DiskAt, slot: u8, taken: Taken<P>) -> Disk<P>
    ensures { result ≡ disk_for P.seen pair.now slot taken }
{
    let Taken { device, piece } = taken;
    let sectors = piece.sectors();
    Disk {
        name: pair.disk,
        device,
        slot,
        sectors,
        good: true,
        half: 0,
        piece,
    }
}

/// A disk as a device in hand.
pub(crate) fn taken_of<P>(disk: Disk<P>) -> Taken<P>
    ensures { result ≡ record { device = disk.device; piece = disk.piece } }
{
    let Disk {
        name: _,
        device,
        slot: _,
        sectors: _,
        good: _,
        half: _,
        piece,
    } = disk;
    Taken { device, piece }
}

/// The name of a group is short, as its configuration keeps the rules.
fn name_is_short(config: &Config)
    ensures { IsTrue (is_short_name config.now.group) }
{
    let _bytes = config.group.len();
}

/// A name of at most 24 characters.
pub(crate) fn is_short_name(name: &Name) -> bool
    ensures { result ≡ is_short_name name.now }
{
    name.len() <= 24
}

/// The disk has a size and a name that a disk may have.
fn fits(pair: &DiskAt, sectors: u64) -> bool
    ensures more { IsTrue result → 2048 < sectors }
    ensures most { IsTrue result → sectors ≤ 2 ^ 40 }
    ensures short { IsTrue result → IsTrue (is_short_name pair.now.disk) }
{
    sectors > PRIVATE_SECTORS && sectors <= MOST_SECTORS && is_short_name(&pair.disk)
}

/// Takes the device into the group by a commit. The device is given back where it was not taken.
pub(crate) fn enter<P: Piece>(
    alloc: Global,
    group: &mut Imported<P>,
    taken: Taken<P>,
    pair: &DiskAt,
) -> Result<(), (Stop, Option<Taken<P>>)>
    requires kept { IsGroupKept P.seen group.old }
    requires blank { IfSome (P.seen taken.piece).told (λ contents. header_of (contents 0) ≡ None) }
    ensures ends { JoinEnds P.seen pair.now taken result group.old group.new }
    ensures public { group.new.public ≡ group.old.public }
{
    let sectors = taken.piece.sectors();
    if !fits(pair, sectors) || group.base.sequence() >= LATE {
        return Err((Stop::OutOfMemory, Some(taken)));
    }
    let Some(slot) = free_slot(&group.config) else {
        return Err((Stop::OutOfMemory, Some(taken)));
    };
    let next = match with_disk(alloc, &group.config, pair, slot, sectors) {
        Ok(next) => next,
        Err(stop) => return Err((stop, Some(taken))),
    };
    name_is_short(&group.config);
    add(alloc, group, disk_for(pair, slot, taken), next)
}

/// Commits the configuration with the disk.
fn add<P: Piece>(
    alloc: Global,
    group: &mut Imported<P>,
    disk: Disk<P>,
    next: NextConfig,
) -> Result<(), (Stop, Option<Taken<P>>)>
    requires kept { IsGroupKept P.seen group.old }
    requires low { group.old.base.sequence < 2 ^ 64 - 64 }
    requires room { length group.old.base.disks.items < 32 }
    requires fresh { IsFresh P.seen group.old.base.name disk }
    requires none { OffersNone group.old.base.name (disk_seen P.seen disk) }
    requires short { length next.text.items ≤ 522240 }
    ensures ends { AddEnds P.seen disk next result group.old group.new }
    ensures public { group.new.public ≡ group.old.public }
{
    let NextConfig { config, text } = next;
    match group.base.add(alloc, disk, &text) {
        Ok(_) => {
            group.config = config;
            Ok(())
        }
        Err((fault, None)) => Err((stop_of(alloc, &fault), None)),
        Err((_, Some(disk))) => Err((Stop::OutOfMemory, Some(taken_of(disk)))),
    }
}

/// Takes the only device in hand into the group.
pub(crate) fn join_in<P: Piece>(
    alloc: Global,
    group: &mut Imported<P>,
    hand: &mut Vec<Taken<P>>,
    pair: &DiskAt,
) -> Result<(), Stop>
    requires kept { IsGroupKept P.seen group.old }
    requires named { map (λ t. t.device) hand.old.items ≡ pair.now.device ∷ [] }
    requires blank { AllOf (λ t. IsBlankSeen (P.seen t.piece)) hand.old.items }
    ensures ends { HandEnds P.seen pair.now result hand.old.items hand.new.items group.old group.new }
    ensures public { group.new.public ≡ group.old.public }
{
    let Some(taken) = hand.pop() else {
        unreachable!();
    };
    match enter(alloc, group, taken, pair) {
        Ok(_) => Ok(()),
        Err((stop, back)) => match back {
            None => Err(stop),
            Some(taken) => {
                hand.push_reserved(taken);
                Err(stop)
            }
        },
    }
}

/// The only device in hand joins the imported group by a commit.
pub fn join<P: Piece>(alloc: Global, house: &mut House<P>, disks: &[DiskAt]) -> Result<(), Stop>
    requires keeps { KeepsHouse P.seen house.old }
    requires ready { IsReady P.seen stages.Join disks.now house.old }
    ensures goes { (shelf : Shelved) → AreHeld shelf.held (holders P.seen house.old) → StageGoes P.seen stages.Join disks.now result (at shelf house.old) (at shelf house.new) }
{
    match disks {
        [pair] => match &mut house.group {
            None => refused(Refusal::NoGroup(None)),
            Some(group) => join_in(alloc, group, &mut house.hand, pair),
        },
        _ => Err(Stop::OutOfMemory),
    }
}
