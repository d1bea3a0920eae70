//! What the devices that were found say of the group's configuration, or why none is there.
ghost use Rattle.std.specs.Prelude.{◌≡◌, Err, map, vec_capacity};
ghost use Rattle.vx_base.specs.Named.{Word};
ghost use Rattle.vx_copies.specs.Lists.{Each};
ghost use Rattle.vx_import.specs.Answers.{Answers};
ghost use Rattle.vx_import.specs.Looks.{looked};
ghost use Rattle.vx_import.specs.Toggles.{Inspects};
ghost use Rattle.vx_stage_import.specs.Finds.{AreFinds, AreLooked};
ghost use Rattle.vx_stage_import.specs.Importing.{StopIs};

use crate::naming::missing_disk;
use std::alloc::Global;
use vx_answers::Refusal;
use vx_house::{Stop, lost, refused};
use vx_import::{Given, GroupDevice, ImportFault, inspect};
use vx_names::Name;
use vx_piece::Piece;

/// Reads the toggles of the devices, and what configuration they give.
pub(crate) fn look_into<P: Piece>(
    alloc: Global,
    finds: &mut Vec<GroupDevice<P>>,
) -> Result<Given, ImportFault>
    requires finds { (dg : Word) × AreFinds P.seen dg (vec_capacity finds.old) finds.old.items }
    ensures inspected { Each Inspects (map (looked P.seen) finds.old.items) (map (looked P.seen) finds.new.items) }
    ensures looked { (dg : Word) → AreFinds P.seen dg (vec_capacity finds.old) finds.old.items → AreLooked P.seen dg finds.new.items }
    ensures answers { (dg : Word) → AreFinds P.seen dg (vec_capacity finds.old) finds.old.items → Answers result dg (map (looked P.seen) finds.new.items) }
{
    inspect(alloc, finds)
}

/// Why there is no configuration, as it is told.
pub(crate) fn stop_for<T>(alloc: Global, dg: &Name, fault: &ImportFault) -> Result<T, Stop>
    ensures { (stop : Stop) × (result ≡ Err stop) × StopIs fault.now dg.now stop }
{
    match fault {
        ImportFault::NoGroup => refused(Refusal::NoGroup(Some(*dg))),
        ImportFault::Damaged { disk, byte } => refused(Refusal::Damaged {
            disk: *disk,
            byte: *byte,
        }),
        ImportFault::Missing { slot, text } => match missing_disk(alloc, text.text(), *slot) {
            Ok(disk) => refused(Refusal::Missing(disk)),
            Err(_) => Err(Stop::OutOfMemory),
        },
        ImportFault::PowerLost => lost(alloc),
        ImportFault::OutOfMemory => Err(Stop::OutOfMemory),
    }
}
