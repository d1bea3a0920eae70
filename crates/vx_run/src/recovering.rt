//! `vxrecover`.
ghost use Rattle.std.specs.Prelude.{◌≡◌, []};
ghost use Rattle.vx_house.specs.Scene.{shelved};
ghost use Rattle.vx_house.specs.View.{Keeps, at};
ghost use Rattle.vx_plans.specs.Steps.{DoesRecover};
ghost use Rattle.vx_recovery.specs.Going.{RecoversShort};
ghost use Rattle.vx_run.specs.Serving.{CommandEnds};

use crate::planning::{done, over, rest};
use crate::unserved::Unserved;
use std::alloc::Global;
use vx_answers::{Answer, Views};
use vx_house::{House, Stop};
use vx_names::Name;
use vx_shelf::Shelf;
use vx_stage_recovery::recover;

/// Recovers a volume, or all. The lines of those that were recovered are told also where a later one ends the command.
pub(crate) fn serve_recovery<S: Shelf>(
    alloc: Global,
    house: &mut House<S::P>,
    shelf: &mut S,
    group: Option<Name>,
    vol: Option<Name>,
) -> Result<Answer, Unserved>
    requires keeps { Keeps S.P.seen (at (shelved S.free S.held S.counted S.faults shelf.old) house.old) }
    requires empty { house.old.hand.items ≡ [] }
    ensures goes { CommandEnds S.P.seen (DoesRecover group vol) (RecoversShort vol) result
        (at (shelved S.free S.held S.counted S.faults shelf.old) house.old) (at (shelved S.free S.held S.counted S.faults shelf.new) house.new) }
{
    let mut views = Vec::new(alloc);
    match recover(alloc, house, group, vol, &mut views) {
        Ok(()) => over(alloc, house, shelf, Views::from_vec(views), done(alloc)),
        Err(Stop::Ended(end)) => over(alloc, house, shelf, Views::from_vec(views), end),
        Err(Stop::OutOfMemory) => rest(alloc, house, shelf),
    }
}
