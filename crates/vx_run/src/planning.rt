//! A command that is a plan.
ghost use Rattle.std.specs.Prelude.{◌≡◌, [], None, Some, Err, IfSome, IfOk, IfErr, OnOk};
ghost use Rattle.vx_answers.specs.declared.answer.Answer.TheVariants.{One};
ghost use Rattle.vx_answers.specs.declared.answer.End.TheVariants as ends;
ghost use Rattle.vx_run.specs.Sound.{IsSound};
ghost use Rattle.vx_run.specs.Serving.{CommandEnds, IsHeldUp};
ghost use Rattle.vx_house.specs.Holders.{AreHeld, holders};
ghost use Rattle.vx_house.specs.Leaves.{IsLeft};
ghost use Rattle.vx_house.specs.Scene.{shelved};
ghost use Rattle.vx_house.specs.View.{IsGroupWhole, Keeps, at};
ghost use Rattle.vx_plans.specs.Steps.{Runs, WantsPlan};

use crate::running::run_stages;
use crate::showing::show;
use crate::unserved::Unserved;
use std::alloc::Global;
use vx_answers::{Answer, Bytes, End, Parts, Views};
use vx_house::{House, Stop, each_house_stands, give_hand, leave};
use vx_plans::Plan;
use vx_script_words::DiskAt;
use vx_shelf::Shelf;

/// Serves a command by its plan. The disks are those that its words name.
pub fn serve_plan<S: Shelf>(
    alloc: Global,
    house: &mut House<S::P>,
    shelf: &mut S,
    plan: &Plan,
    disks: &[DiskAt],
) -> Result<Answer, Unserved>
    requires keeps { Keeps S.P.seen (at (shelved S.free S.held S.counted S.faults shelf.old) house.old) }
    requires empty { house.old.hand.items ≡ [] }
    requires sound { IsSound plan.now }
    ensures goes { CommandEnds S.P.seen (λ m views end n. Runs disks.now plan.now.stages plan.now.finish m views end n) (WantsPlan disks.now (Some plan.now)) result
        (at (shelved S.free S.held S.counted S.faults shelf.old) house.old) (at (shelved S.free S.held S.counted S.faults shelf.new) house.new) }
{
    match run_stages(alloc, house, shelf, plan.stages.as_slice(), disks) {
        Ok(()) => match show(alloc, house, plan.finish) {
            Ok(views) => over(alloc, house, shelf, views, done(alloc)),
            Err(_) => rest(alloc, house, shelf),
        },
        Err(Stop::Ended(end)) => over(alloc, house, shelf, Views::from_vec(Vec::new(alloc)), end),
        Err(Stop::OutOfMemory) => rest(alloc, house, shelf),
    }
}

/// All was done.
pub(crate) fn done(alloc: Global) -> End
    ensures { result ≡ ends.Done None [] [] }
{
    End::Done {
        copied: None,
        parts: Parts::from_vec(Vec::new(alloc)),
        blocks: Bytes::from_vec(Vec::new(alloc)),
    }
}

/// The command is over, and what it leaves goes back.
pub(crate) fn over<S: Shelf>(
    alloc: Global,
    house: &mut House<S::P>,
    shelf: &mut S,
    views: Views,
    end: End,
) -> Result<Answer, Unserved>
    requires held { AreHeld (S.held shelf.old) (holders S.P.seen house.old) }
    requires whole { IfSome house.old.group (IsGroupWhole S.P.seen) }
    ensures told { IfOk result (λ answer. answer ≡ One views end) }
    ensures left { OnOk result (IsLeft S.P.seen end (at (shelved S.free S.held S.counted S.faults shelf.old) house.old) (at (shelved S.free S.held S.counted S.faults shelf.new) house.new)) }
    ensures held_up { IfErr result (λ e. (e ≡ Unserved.HeldUp) × IsHeldUp S.P.seen (at (shelved S.free S.held S.counted S.faults shelf.new) house.new)) }
{
    match leave(alloc, house, shelf, &end) {
        Ok(()) => Ok(Answer::One { views, end }),
        Err(_) => Err(Unserved::HeldUp),
    }
}

/// Memory was wanting, and the devices in hand go back.
pub(crate) fn rest<S: Shelf>(
    alloc: Global,
    house: &mut House<S::P>,
    shelf: &mut S,
) -> Result<Answer, Unserved>
    requires held { AreHeld (S.held shelf.old) (holders S.P.seen house.old) }
    ensures refused { result ≡ Err Unserved.OutOfMemory }
    ensures left { IsLeft S.P.seen (ends.Done None [] []) (at (shelved S.free S.held S.counted S.faults shelf.old) house.old) (at (shelved S.free S.held S.counted S.faults shelf.new) house.new) }
{
    each_house_stands(house);
    give_hand(house, shelf);
    Err(Unserved::OutOfMemory)
}
