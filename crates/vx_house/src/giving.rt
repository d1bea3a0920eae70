//! Devices that go back to the shelf, without a device call.
ghost use Rattle.std.specs.Prelude.{◌≡◌, ◌∷◌, [], Some, is_some, map, IfSome, OnOk, OnErr};
ghost use Rattle.vx_base.specs.Named.{Word};
ghost use Rattle.vx_copies.specs.Lists.{AllOf};
ghost use Rattle.vx_shelf.specs.Shelf.{IsWhole, IsOut, IsGiven};
ghost use Rattle.vx_house.specs.Closing.{GivesBack, GivesHand, GivesGroup, GivesVolumes, KeepsGroup};
ghost use Rattle.vx_house.specs.Holders.{AreHeld, AreApart, IsTakenFrom, holders, disk_holder, group_holders, hand_holder, volume_holder};
ghost use Rattle.vx_house.specs.Scene.{shelved};
ghost use Rattle.vx_house.specs.View.{HasDisk, IsGroupIdle, IsGroupWhole, group_of};

use crate::{House, Imported, Taken};
use std::alloc::Global;
use vx_base::OutOfMemory;
use vx_copies::Disk;
use vx_fronts::close_group;
use vx_group_start::lay_down;
use vx_piece::Piece;
use vx_shelf::Shelf;
use vx_started::Started;

/// Gives the devices in hand back, each under its name.
pub fn give_hand<S: Shelf>(house: &mut House<S::P>, shelf: &mut S)
    requires held { AreHeld (S.held shelf.old) (holders S.P.seen house.old) }
    ensures gives { GivesHand S.P.seen (shelved S.free S.held S.counted S.faults shelf.old) house.old (shelved S.free S.held S.counted S.faults shelf.new) house.new }
{
    while let Some(taken) = house.hand.pop() {
        give_taken(taken, shelf);
    }
}

fn give_taken<S: Shelf>(taken: Taken<S::P>, shelf: &mut S)
    requires whole { IsWhole (S.P.seen taken.piece) }
    requires out { IsOut (S.held shelf.old taken.device) (S.P.seen taken.piece) }
    ensures given { IsGiven taken.device (S.held shelf.old) (S.held shelf.new) }
    ensures back { GivesBack (hand_holder S.P.seen taken ∷ []) (shelved S.free S.held S.counted S.faults shelf.old) (shelved S.free S.held S.counted S.faults shelf.new) }
{
    let Taken { device, piece } = taken;
    shelf.give(&device, piece);
}

/// Joins the devices of the group, and gives them back, each under its name; the group leaves. Where there is no memory to join
/// them the group stays.
pub fn give_group<S: Shelf>(
    alloc: Global,
    house: &mut House<S::P>,
    shelf: &mut S,
) -> Result<(), OutOfMemory>
    requires held { AreHeld (S.held shelf.old) (holders S.P.seen house.old) }
    requires whole { IfSome house.old.group (IsGroupWhole S.P.seen) }
    ensures gives { OnOk result (GivesGroup S.P.seen (shelved S.free S.held S.counted S.faults shelf.old) house.old (shelved S.free S.held S.counted S.faults shelf.new) house.new) }
    ensures kept { OnErr result (KeepsGroup S.P.seen house.old house.new) }
    ensures shelf { OnErr result (shelf.new ≡ shelf.old) }
{
    let Some(mut group) = house.group.take() else {
        return Ok(());
    };
    match close(alloc, &mut group) {
        Ok(()) => {
            give_disks(group.base.deport(), shelf);
            Ok(())
        }
        Err(OutOfMemory) => {
            house.group = Some(group);
            Err(OutOfMemory)
        }
    }
}

/// Lays the volumes of a group down, and joins its devices.
fn close<P: Piece + Drop>(alloc: Global, group: &mut Imported<P>) -> Result<(), OutOfMemory>
    requires whole { IsGroupWhole P.seen group.old }
    requires alike { (p q : P) → is_some (P.seen p).told ≡ is_some (P.seen q).told }
    ensures closed { OnOk result (map (disk_holder P.seen) group.new.base.disks.items ≡ group_holders P.seen (Some group.old)) }
    ensures same { OnErr result (group_holders P.seen (Some group.new) ≡ group_holders P.seen (Some group.old)) }
    ensures group { OnErr result (group_of P.seen (Some group.new) ≡ group_of P.seen (Some group.old)) }
    ensures whole { OnErr result (IsGroupWhole P.seen group.new) }
    ensures disks { OnErr result (HasDisk group.new) }
    ensures none { OnErr result (group.old.public.running.entries ≡ [] → group.new.public.running.entries ≡ []) }
{
    if group.base.disks().is_empty() {
        return Ok(());
    }
    lay(alloc, group)?;
    join(alloc, group)
}

/// Puts what running volumes have, and what is left of others, back into the pool.
fn lay<P: Piece + Drop>(alloc: Global, group: &mut Imported<P>) -> Result<(), OutOfMemory>
    requires whole { IsGroupWhole P.seen group.old }
    requires alike { (p q : P) → is_some (P.seen p).told ≡ is_some (P.seen q).told }
    ensures group { group.new ≡ record group.old { public = group.new.public } }
    ensures same { group_holders P.seen (Some group.new) ≡ group_holders P.seen (Some group.old) }
    ensures whole { IsGroupWhole P.seen group.new }
    ensures idle { OnOk result (IsGroupIdle group.new) }
    ensures none { group.old.public.running.entries ≡ [] → group.new.public.running.entries ≡ [] }
{
    lay_down(alloc, &mut group.public)
}

/// Joins the devices of a group of which no volume runs.
fn join<P: Piece + Drop>(alloc: Global, group: &mut Imported<P>) -> Result<(), OutOfMemory>
    requires whole { IsGroupWhole P.seen group.old }
    requires idle { IsGroupIdle group.old }
    requires some { HasDisk group.old }
    requires alike { (p q : P) → is_some (P.seen p).told ≡ is_some (P.seen q).told }
    ensures closed { OnOk result (map (disk_holder P.seen) group.new.base.disks.items ≡ group_holders P.seen (Some group.old)) }
    ensures same { OnErr result (group_holders P.seen (Some group.new) ≡ group_holders P.seen (Some group.old)) }
    ensures group { OnErr result (group_of P.seen (Some group.new) ≡ group_of P.seen (Some group.old)) }
    ensures whole { OnErr result (IsGroupWhole P.seen group.new) }
    ensures disks { OnErr result (HasDisk group.new) }
    ensures idle { OnErr result (IsGroupIdle group.new) }
{
    close_group(alloc, &mut group.base, &mut group.public.pool)
}

/// Gives the devices of disks back, each under its name.
pub fn give_disks<S: Shelf>(disks: Vec<Disk<S::P>>, shelf: &mut S)
    requires each { AllOf (IsTakenFrom (S.held shelf.old)) (map (disk_holder S.P.seen) disks.items) }
    requires apart { AreApart (map (disk_holder S.P.seen) disks.items) }
    ensures back { GivesBack (map (disk_holder S.P.seen) disks.items) (shelved S.free S.held S.counted S.faults shelf.old) (shelved S.free S.held S.counted S.faults shelf.new) }
{
    let mut disks = disks;
    while let Some(disk) = disks.pop() {
        give_disk(disk, shelf);
    }
}

fn give_disk<S: Shelf>(disk: Disk<S::P>, shelf: &mut S)
    requires whole { IsWhole (S.P.seen disk.piece) }
    requires out { IsOut (S.held shelf.old disk.device) (S.P.seen disk.piece) }
    ensures given { IsGiven disk.device (S.held shelf.old) (S.held shelf.new) }
    ensures back { GivesBack (disk_holder S.P.seen disk ∷ []) (shelved S.free S.held S.counted S.faults shelf.old) (shelved S.free S.held S.counted S.faults shelf.new) }
{
    let Disk {
        name: _,
        device,
        slot: _,
        sectors: _,
        good: _,
        half: _,
        piece,
    } = disk;
    shelf.give(&device, piece);
}

/// Gives the devices of all started volumes back, each under its name.
pub fn give_volumes<S: Shelf>(house: &mut House<S::P>, shelf: &mut S)
    requires held { AreHeld (S.held shelf.old) (holders S.P.seen house.old) }
    ensures gives { GivesVolumes S.P.seen (shelved S.free S.held S.counted S.faults shelf.old) house.old (shelved S.free S.held S.counted S.faults shelf.new) house.new }
{
    while let Some((_, started)) = house.volumes.pop_first() {
        give_volume(started, shelf);
    }
}

fn give_volume<S: Shelf>(started: Started<S::P>, shelf: &mut S)
    requires whole { IsWhole (S.P.seen started.piece) }
    requires out { IsOut (S.held shelf.old started.device) (S.P.seen started.piece) }
    ensures given { IsGiven started.device (S.held shelf.old) (S.held shelf.new) }
    ensures back { (name : Word) → GivesBack (volume_holder S.P.seen (name, started) ∷ []) (shelved S.free S.held S.counted S.faults shelf.old) (shelved S.free S.held S.counted S.faults shelf.new) }
{
    let Started {
        device,
        piece,
        geometry: _,
        numbers: _,
        most: _,
    } = started;
    shelf.give(&device, piece);
}
