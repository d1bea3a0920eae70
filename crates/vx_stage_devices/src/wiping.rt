//! A device in hand whose header is wiped out.
ghost use Rattle.std.specs.Prelude.{◌<◌};
ghost use Rattle.vx_stages.specs.declared.stage.Stage.TheVariants as stages;
ghost use Rattle.vx_house.specs.Goes.{IsReady, StageGoes};
ghost use Rattle.vx_house.specs.Holders.{AreHeld, holders};
ghost use Rattle.vx_house.specs.Scene.{Shelved};
ghost use Rattle.vx_house.specs.View.{KeepsHouse, at};
ghost use Rattle.vx_stage_devices.specs.Wipes.{Wipes};

use std::alloc::Global;
use vx_house::{House, Stop, Taken, fault, lost};
use vx_names::Name;
use vx_piece::{Piece, PieceFault};
use vx_script_words::DiskAt;

/// Writes zeros over the header of the only device in hand.
pub fn wipe<P: Piece>(
    alloc: Global,
    house: &mut House<P>,
    _device: &Name,
    _disks: &[DiskAt],
) -> Result<(), Stop>
    requires keeps { KeepsHouse P.seen house.old }
    requires ready { IsReady P.seen (stages.Wipe _device.now) _disks.now house.old }
    ensures goes { (shelf : Shelved) → AreHeld shelf.held (holders P.seen house.old) →
        StageGoes P.seen (stages.Wipe _device.now) _disks.now result (at shelf house.old) (at shelf house.new) }
{
    wipe_at(alloc, &mut house.hand[0])
}

/// Writes zeros over the first sector of a device.
fn wipe_at<P: Piece>(alloc: Global, taken: &mut Taken<P>) -> Result<(), Stop>
    requires { 0 < (P.seen taken.old.piece).sectors }
    ensures { Wipes P.seen taken.old result taken.new }
{
    match taken.piece.write(0, &[0; 512]) {
        Ok(()) => Ok(()),
        Err(PieceFault::Failed) => fault(alloc, taken.device),
        Err(PieceFault::PowerLost) => lost(alloc),
    }
}
