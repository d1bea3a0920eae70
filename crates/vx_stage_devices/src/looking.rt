//! Devices in hand that have no header.
ghost use Rattle.std.specs.Prelude.{◌≡◌, ◌<◌, List};
ghost use Rattle.vx_base.specs.Named.{Word};
ghost use Rattle.vx_copies.specs.Lists.{AllOf};
ghost use Rattle.vx_script_words.specs.declared.value.DiskAt.{DiskAt};
ghost use Rattle.vx_stages.specs.declared.stage.Stage.TheVariants as stages;
ghost use Rattle.vx_house.specs.Goes.{IsReady, StageGoes};
ghost use Rattle.vx_house.specs.Holders.{AreHeld, holders};
ghost use Rattle.vx_house.specs.Scene.{Shelved};
ghost use Rattle.vx_house.specs.View.{KeepsHouse, at};
ghost use Rattle.vx_stage_devices.specs.Looks.{LooksBlank, HandLooks};

use crate::header::look;
use std::alloc::Global;
use vx_answers::Refusal;
use vx_house::{House, Stop, Taken, refused};
use vx_piece::Piece;

/// Reads the headers of all devices in hand, one after the other: none has one.
pub fn look_disks<P: Piece>(alloc: Global, house: &mut House<P>) -> Result<(), Stop>
    requires keeps { KeepsHouse P.seen house.old }
    ensures goes { (disks : List DiskAt) (shelf : Shelved) → IsReady P.seen stages.LookDisks disks house.old → AreHeld shelf.held (holders P.seen house.old) →
        StageGoes P.seen stages.LookDisks disks result (at shelf house.old) (at shelf house.new) }
{
    look_through(alloc, &mut house.hand)
}

/// Reads the header of the only device in hand: it has none.
pub fn look_blank<P: Piece>(alloc: Global, house: &mut House<P>) -> Result<(), Stop>
    requires keeps { KeepsHouse P.seen house.old }
    ensures goes { (name : Word) (disks : List DiskAt) (shelf : Shelved) → IsReady P.seen (stages.LookBlank name) disks house.old → AreHeld shelf.held (holders P.seen house.old) →
        StageGoes P.seen (stages.LookBlank name) disks result (at shelf house.old) (at shelf house.new) }
{
    look_through(alloc, &mut house.hand)
}

/// Reads the headers of the devices, one after the other, up to the first that has one or cannot be read.
fn look_through<P: Piece>(alloc: Global, hand: &mut [Taken<P>]) -> Result<(), Stop>
    requires { AllOf (λ t. 0 < (P.seen t.piece).sectors) hand.old }
    ensures { HandLooks P.seen hand.old result hand.new }
{
    for taken in hand.iter_mut() {
        look_at(alloc, taken)?;
    }
    Ok(())
}

/// Reads the header of a device; where it has one the command is refused.
fn look_at<P: Piece>(alloc: Global, taken: &mut Taken<P>) -> Result<(), Stop>
    requires { 0 < (P.seen taken.old.piece).sectors }
    ensures { LooksBlank P.seen taken.old result taken.new }
{
    match look(alloc, taken)? {
        None => Ok(()),
        Some(_) => refused(Refusal::InUse(taken.device)),
    }
}
