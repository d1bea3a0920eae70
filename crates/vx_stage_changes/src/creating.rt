//! A group that is made of the devices in hand.
ghost use Rattle.std.specs.Prelude.{◌≡◌, map};
ghost use Rattle.vx_copies.specs.Lists.{AllOf};
ghost use Rattle.vx_house.specs.Goes.{IsBlankSeen, IsReady, StageGoes};
ghost use Rattle.vx_house.specs.Holders.{holders, AreHeld};
ghost use Rattle.vx_house.specs.Scene.{Shelved};
ghost use Rattle.vx_house.specs.View.{at, KeepsHouse};
ghost use Rattle.vx_stages.specs.Records.{devices_of};
ghost use Rattle.vx_stages.specs.declared.stage.Stage.TheVariants as stages;
ghost use Rattle.vx_stage_changes.specs.Creating.{CreateEnds};

use crate::founding::{Unfounded, found};
use crate::handing::{enlisted, give_back};
use std::alloc::Global;
use vx_answers::Refusal;
use vx_house::{House, Imported, Stop, Taken, refused};
use vx_names::Name;
use vx_piece::Piece;
use vx_script_words::DiskAt;

/// Makes a group of the devices in hand. They are in hand again where it was not made.
fn create_in<P: Piece + Drop>(
    alloc: Global,
    hand: &mut Vec<Taken<P>>,
    dg: &Name,
    pairs: &[DiskAt],
) -> Result<Imported<P>, Stop>
    requires named { map (λ t. t.device) hand.old.items ≡ devices_of pairs.now }
    requires blank { AllOf (λ t. IsBlankSeen (P.seen t.piece)) hand.old.items }
    ensures ends { CreateEnds P.seen dg.now pairs.now result hand.old.items hand.new.items }
{
    let Ok(disks) = enlisted(alloc, hand, pairs) else {
        return Err(Stop::OutOfMemory);
    };
    match found(alloc, dg, disks) {
        Ok(group) => Ok(group),
        Err(Unfounded { stop, disks }) => {
            give_back(disks, hand);
            Err(stop)
        }
    }
}

/// The devices in hand become a group, which is imported then.
pub fn create<P: Piece + Drop>(
    alloc: Global,
    house: &mut House<P>,
    dg: &Name,
    disks: &[DiskAt],
) -> Result<(), Stop>
    requires keeps { KeepsHouse P.seen house.old }
    requires ready { IsReady P.seen (stages.Create dg.now) disks.now house.old }
    ensures goes { (shelf : Shelved) → AreHeld shelf.held (holders P.seen house.old) → StageGoes P.seen (stages.Create dg.now) disks.now result (at shelf house.old) (at shelf house.new) }
{
    if let Some(group) = &house.group {
        return refused(Refusal::InUse(group.config.group));
    }
    let group = create_in(alloc, &mut house.hand, dg, disks)?;
    house.group = Some(group);
    Ok(())
}
