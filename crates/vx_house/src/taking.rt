//! Devices that are taken from the shelf into the hand.
ghost use Rattle.std.specs.Prelude.{[], List};
ghost use Rattle.vx_stages.specs.declared.stage.Stage.TheVariants as stages;
ghost use Rattle.vx_script_words.specs.declared.value.DiskAt.{DiskAt};
ghost use Rattle.vx_house.specs.Goes.{IsReady, StageGoes};
ghost use Rattle.vx_house.specs.Scene.{shelved};
ghost use Rattle.vx_house.specs.Takes.{TakeGives};
ghost use Rattle.vx_house.specs.View.{Keeps, at};

use crate::stop::{fault, refused};
use crate::{House, Stop, Taken};
use std::alloc::Global;
use vx_answers::Refusal;
use vx_names::Name;
use vx_script_words::DiskAt;
use vx_shelf::{Shelf, ShelfFault};

/// Takes a device that nobody has.
fn take_one<S: Shelf>(
    alloc: Global,
    house: &mut House<S::P>,
    shelf: &mut S,
    name: &Name,
) -> Result<(), Stop>
    requires keeps { Keeps S.P.seen (at (shelved S.free S.held S.counted S.faults shelf.old) house.old) }
    ensures gives { TakeGives S.P.seen name.now result (at (shelved S.free S.held S.counted S.faults shelf.old) house.old) (at (shelved S.free S.held S.counted S.faults shelf.new) house.new) }
{
    if house.hand.reserve(1).is_err() {
        return Err(Stop::OutOfMemory);
    }
    match shelf.take(name) {
        Ok(piece) => {
            house.hand.push_reserved(Taken {
                device: *name,
                piece,
            });
            Ok(())
        }
        Err(ShelfFault::NoDisk) => refused(Refusal::NoDisk(*name)),
        Err(ShelfFault::Held) => refused(Refusal::Held(*name)),
        Err(ShelfFault::Failed) => fault(alloc, *name),
        Err(ShelfFault::Exists) => unreachable!(),
        Err(ShelfFault::OutOfMemory) => Err(Stop::OutOfMemory),
    }
}

/// Takes the device.
pub fn take<S: Shelf>(
    alloc: Global,
    house: &mut House<S::P>,
    shelf: &mut S,
    name: &Name,
) -> Result<(), Stop>
    requires keeps { Keeps S.P.seen (at (shelved S.free S.held S.counted S.faults shelf.old) house.old) }
    ensures goes { (disks : List DiskAt) → IsReady S.P.seen (stages.Take name.now) disks house.old → StageGoes S.P.seen (stages.Take name.now) disks result (at (shelved S.free S.held S.counted S.faults shelf.old) house.old) (at (shelved S.free S.held S.counted S.faults shelf.new) house.new) }
{
    take_one(alloc, house, shelf, name)
}

/// Takes the devices of the words, one after the other.
pub fn take_disks<S: Shelf>(
    alloc: Global,
    house: &mut House<S::P>,
    shelf: &mut S,
    disks: &[DiskAt],
) -> Result<(), Stop>
    requires keeps { Keeps S.P.seen (at (shelved S.free S.held S.counted S.faults shelf.old) house.old) }
    requires ready { IsReady S.P.seen stages.TakeDisks disks.now house.old }
    ensures goes { StageGoes S.P.seen stages.TakeDisks disks.now result (at (shelved S.free S.held S.counted S.faults shelf.old) house.old) (at (shelved S.free S.held S.counted S.faults shelf.new) house.new) }
{
    for disk in disks {
        take_one(alloc, house, shelf, &disk.device)?;
    }
    Ok(())
}
