//! A device in hand that has a header.
ghost use Rattle.std.specs.Prelude.{◌<◌};
ghost use Rattle.vx_stages.specs.declared.stage.Stage.TheVariants as stages;
ghost use Rattle.vx_house.specs.Goes.{IsReady, StageGoes};
ghost use Rattle.vx_house.specs.Holders.{AreHeld, holders};
ghost use Rattle.vx_house.specs.Scene.{Shelved};
ghost use Rattle.vx_house.specs.View.{KeepsHouse, at};
ghost use Rattle.vx_stage_devices.specs.Looks.{LooksHeaded};

use crate::header::look;
use std::alloc::Global;
use vx_answers::Refusal;
use vx_house::{House, Stop, Taken, refused};
use vx_names::Name;
use vx_piece::Piece;
use vx_script_words::DiskAt;

/// Reads the header of the only device in hand: it has one.
pub fn look_headed<P: Piece>(
    alloc: Global,
    house: &mut House<P>,
    _device: &Name,
    _disks: &[DiskAt],
) -> Result<(), Stop>
    requires keeps { KeepsHouse P.seen house.old }
    requires ready { IsReady P.seen (stages.LookHeaded _device.now) _disks.now house.old }
    ensures goes { (shelf : Shelved) → AreHeld shelf.held (holders P.seen house.old) →
        StageGoes P.seen (stages.LookHeaded _device.now) _disks.now result (at shelf house.old) (at shelf house.new) }
{
    look_at(alloc, &mut house.hand[0])
}

/// Reads the header of a device; where it has none the command is refused.
fn look_at<P: Piece>(alloc: Global, taken: &mut Taken<P>) -> Result<(), Stop>
    requires { 0 < (P.seen taken.old.piece).sectors }
    ensures { LooksHeaded P.seen taken.old result taken.new }
{
    match look(alloc, taken)? {
        Some(_) => Ok(()),
        None => refused(Refusal::NotInitialised(taken.device)),
    }
}
