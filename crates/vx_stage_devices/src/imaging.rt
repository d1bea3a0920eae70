//! A device of zeros.
ghost use Rattle.std.specs.Prelude.{◌≤◌, ◌^◌, List};
ghost use Rattle.vx_script_words.specs.declared.value.DiskAt.{DiskAt};
ghost use Rattle.vx_stages.specs.declared.stage.Stage.TheVariants as stages;
ghost use Rattle.vx_house.specs.Goes.{StageGoes};
ghost use Rattle.vx_house.specs.Scene.{shelved};
ghost use Rattle.vx_house.specs.View.{Keeps, at};

use std::alloc::Global;
use vx_answers::Refusal;
use vx_house::{House, Stop, fault, refused};
use vx_names::Name;
use vx_shelf::{Shelf, ShelfFault};

/// Makes a device of so many sectors of zeros. The house is as before.
pub fn make_image<S: Shelf>(
    alloc: Global,
    _house: &House<S::P>,
    shelf: &mut S,
    device: &Name,
    sectors: u64,
) -> Result<(), Stop>
    requires keeps { Keeps S.P.seen (at (shelved S.free S.held S.counted S.faults shelf.old) _house.now) }
    requires some { 1 ≤ sectors }
    requires few { sectors ≤ 2 ^ 40 }
    ensures goes { (disks : List DiskAt) → StageGoes S.P.seen (stages.MakeImage device.now sectors) disks result
        (at (shelved S.free S.held S.counted S.faults shelf.old) _house.now) (at (shelved S.free S.held S.counted S.faults shelf.new) _house.now) }
{
    match shelf.make(alloc, device, sectors) {
        Ok(()) => Ok(()),
        Err(ShelfFault::Exists) => refused(Refusal::Exists(*device)),
        Err(ShelfFault::Failed) => fault(alloc, *device),
        Err(ShelfFault::OutOfMemory) => Err(Stop::OutOfMemory),
        Err(ShelfFault::NoDisk | ShelfFault::Held) => unreachable!(),
    }
}
