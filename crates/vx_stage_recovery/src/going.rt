//! The command.
ghost use Rattle.std.specs.Prelude.{◌≡◌, [], is_some, IfErr, IfOk};
ghost use Rattle.vx_house.specs.Plain.{plain};
ghost use Rattle.vx_house.specs.Holders.{holders, AreHeld};
ghost use Rattle.vx_house.specs.Scene.{Shelved};
ghost use Rattle.vx_house.specs.View.{KeepsHouse, at};
ghost use Rattle.vx_recovery.specs.Going.{Recovers, RecoversShort, all_done};
ghost use Rattle.vx_stage_recovery.specs.Planning.{Fits, IsPlanned, IsUnfit, IsUnplanned};
ghost use Rattle.vx_stage_recovery.specs.Steps.{IsHeld, StepGoes};

use crate::names::{at_rest, names_of};
use crate::seeing::see_all;
use crate::tests::refusal_of;
use crate::texts::longest;
use std::alloc::Global;
use vx_answers::{Refusal, View};
use vx_base::OutOfMemory;
use vx_header::MOST_TEXT;
use vx_house::{House, Stop, refused};
use vx_names::Name;
use vx_piece::Piece;

/// Goes over the volume of the name, or over all of the imported group, by name. A volume that runs or was never started is passed over, one
/// that was stopped is started, and one that ran as the power went is recovered; of each that was recovered a line is told, also where a
/// later one ends the command. Texts that would be too long are refused before anything is written.
pub fn recover<P: Piece + Drop>(
    alloc: Global,
    house: &mut House<P>,
    dg: Option<Name>,
    vol: Option<Name>,
    views: &mut Vec<View>,
) -> Result<(), Stop>
    requires keeps { KeepsHouse P.seen house.old }
    requires held { IsHeld P.seen house.old }
    requires alike { (p q : P) → is_some (P.seen p).told ≡ is_some (P.seen q).told }
    requires none { views.old.items ≡ [] }
    ensures goes { (shelf : Shelved) → AreHeld shelf.held (holders P.seen house.old) →
        StepGoes P.seen (λ none m n. Recovers dg vol m views.new.items all_done n) (λ m end n. Recovers dg vol m views.new.items end n) (RecoversShort vol) result (at shelf house.old) (at shelf house.new) }
{
    let names = planned(alloc, house, dg, vol)?;
    see_all(alloc, house, names.as_slice(), views)
}

/// The names of the volumes that it goes over, where no test refuses the command.
fn planned<P: Piece>(
    alloc: Global,
    house: &House<P>,
    dg: Option<Name>,
    vol: Option<Name>,
) -> Result<Vec<Name>, Stop>
    ensures planned { IfOk result (λ names. IsPlanned dg vol (plain P.seen house.now) names.items) }
    ensures refused { IfErr result (IsUnplanned dg vol (plain P.seen house.now)) }
{
    match refusal_of(alloc, house, dg, &vol) {
        Ok(None) => fitting(alloc, house, vol),
        Ok(Some(refusal)) => refused(refusal),
        Err(OutOfMemory) => Err(Stop::OutOfMemory),
    }
}

/// The names, where the longest text of the commits is short enough.
fn fitting<P: Piece>(alloc: Global, house: &House<P>, vol: Option<Name>) -> Result<Vec<Name>, Stop>
    ensures fits { IfOk result (λ names. Fits vol (plain P.seen house.now) names.items) }
    ensures long { IfErr result (IsUnfit vol (plain P.seen house.now)) }
{
    let Some(group) = &house.group else {
        return Err(Stop::OutOfMemory);
    };
    let Ok(names) = names_of(alloc, &group.config, vol) else {
        return Err(Stop::OutOfMemory);
    };
    let Ok(rest) = at_rest(alloc, house, names.as_slice()) else {
        return Err(Stop::OutOfMemory);
    };
    match longest(alloc, &group.config, rest.as_slice()) {
        Ok(bytes) if bytes > MOST_TEXT as u64 => refused(Refusal::TooLong(bytes)),
        Ok(_) => Ok(names),
        Err(OutOfMemory) => Err(Stop::OutOfMemory),
    }
}
