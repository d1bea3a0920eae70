//! The recovery of one volume.
ghost use Rattle.std.specs.Prelude.{◌≡◌, is_some};
ghost use Rattle.vx_house.specs.Holders.{holders, AreHeld};
ghost use Rattle.vx_house.specs.Scene.{Shelved};
ghost use Rattle.vx_house.specs.View.{KeepsHouse, at};
ghost use Rattle.vx_recovery.specs.Recovering.{IsRecovered, RecoveryStops, RecoveryWants};
ghost use Rattle.vx_stage_recovery.specs.Steps.{IsHeld, StepGoes};

use crate::beginning::begin;
use crate::healing::heal_volume;
use std::alloc::Global;
use vx_group_recover::Healed;
use vx_house::{House, Stop};
use vx_names::Name;
use vx_piece::Piece;

/// Recovers the volume of the name, which does not run, and answers how many regions were dirty and how many were copied.
pub(crate) fn recover_volume<P: Piece + Drop>(
    alloc: Global,
    house: &mut House<P>,
    name: &Name,
) -> Result<Healed, Stop>
    requires keeps { KeepsHouse P.seen house.old }
    requires held { IsHeld P.seen house.old }
    requires alike { (p q : P) → is_some (P.seen p).told ≡ is_some (P.seen q).told }
    ensures goes { (shelf : Shelved) → AreHeld shelf.held (holders P.seen house.old) → StepGoes P.seen (λ healed. IsRecovered name.now healed.dirty healed.copied) (RecoveryStops name.now) (RecoveryWants name.now) result (at shelf house.old) (at shelf house.new) }
{
    begin(alloc, house, name)?;
    heal_volume(alloc, house, name)
}
