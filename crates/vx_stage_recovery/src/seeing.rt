//! The volumes are seen to, one after the other.
ghost use Rattle.std.specs.Prelude.{◌≡◌, ◌++◌, [], is_some, List};
ghost use Rattle.vx_answers.specs.declared.answer.View.{View as Shown};
ghost use Rattle.vx_house.specs.Holders.{holders, AreHeld};
ghost use Rattle.vx_house.specs.Scene.{Shelved};
ghost use Rattle.vx_house.specs.View.{KeepsHouse, at};
ghost use Rattle.vx_recovery.specs.Recovering.{RecoveryStops, RecoveryWants};
ghost use Rattle.vx_recovery.specs.Going.{Sees, SeesShort, all_done};
ghost use Rattle.vx_stage_recovery.specs.Seeing.{Heals, SeesLeft, SeesStep, SeesStop, begun};
ghost use Rattle.vx_stage_recovery.specs.Steps.{IsHeld, StepGoes};

use crate::needs::{Need, need_of};
use crate::recovering::recover_volume;
use std::alloc::Global;
use vx_answers::{End, View};
use vx_house::{House, Stop};
use vx_names::Name;
use vx_piece::Piece;
use vx_stage_volumes::start;

/// Sees to the volumes of these names, in this order, and tells of each that was recovered.
pub(crate) fn see_all<P: Piece + Drop>(
    alloc: Global,
    house: &mut House<P>,
    names: &[Name],
    views: &mut Vec<View>,
) -> Result<(), Stop>
    requires keeps { KeepsHouse P.seen house.old }
    requires held { IsHeld P.seen house.old }
    requires alike { (p q : P) → is_some (P.seen p).told ≡ is_some (P.seen q).told }
    ensures goes { (told : List Shown) × (views.new.items ≡ views.old.items ++ told) × ((shelf : Shelved) → AreHeld shelf.held (holders P.seen house.old) →
        StepGoes P.seen (λ none m n. Sees names.now m told all_done n) (λ m end n. Sees names.now m told end n) (SeesShort names.now) result (at shelf house.old) (at shelf house.new)) }
{
    match names {
        [] => Ok(()),
        [first, rest @ ..] => {
            see_to(alloc, house, first, views)?;
            see_all(alloc, house, rest, views)
        }
    }
}

/// Sees to the volume of the name, by what it needs.
fn see_to<P: Piece + Drop>(
    alloc: Global,
    house: &mut House<P>,
    name: &Name,
    views: &mut Vec<View>,
) -> Result<(), Stop>
    requires keeps { KeepsHouse P.seen house.old }
    requires held { IsHeld P.seen house.old }
    requires alike { (p q : P) → is_some (P.seen p).told ≡ is_some (P.seen q).told }
    ensures goes { (told : List Shown) × (views.new.items ≡ views.old.items ++ told) × ((shelf : Shelved) → AreHeld shelf.held (holders P.seen house.old) →
        StepGoes P.seen (λ none. SeesStep name.now told) (SeesStop name.now told) (SeesLeft name.now) result (at shelf house.old) (at shelf house.new)) }
{
    match need_of(house, name) {
        Need::Pass => Ok(()),
        Need::Begin => begun(start(alloc, house, *name)),
        Need::Heal => heal(alloc, house, name, views),
    }
}

/// A start that is done does not end the command.
fn begun(started: Result<(), Stop>) -> Result<(), Stop>
    ensures { result ≡ begun started }
{
    match started {
        Err(Stop::Ended(End::Done { .. })) => Ok(()),
        other => other,
    }
}

/// Recovers the volume of the name, and tells of it.
fn heal<P: Piece + Drop>(
    alloc: Global,
    house: &mut House<P>,
    name: &Name,
    views: &mut Vec<View>,
) -> Result<(), Stop>
    requires keeps { KeepsHouse P.seen house.old }
    requires held { IsHeld P.seen house.old }
    requires alike { (p q : P) → is_some (P.seen p).told ≡ is_some (P.seen q).told }
    ensures goes { (told : List Shown) × (views.new.items ≡ views.old.items ++ told) × ((shelf : Shelved) → AreHeld shelf.held (holders P.seen house.old) →
        StepGoes P.seen (λ none m n. Heals name.now told m n) (λ m end n. (told ≡ []) × RecoveryStops name.now m end n) (RecoveryWants name.now) result (at shelf house.old) (at shelf house.new)) }
{
    if views.reserve(1).is_err() {
        return Err(Stop::OutOfMemory);
    }
    let healed = recover_volume(alloc, house, name)?;
    views.push_reserved(View::Recovered {
        vol: *name,
        dirty: healed.dirty,
        copied: healed.copied,
    });
    Ok(())
}
