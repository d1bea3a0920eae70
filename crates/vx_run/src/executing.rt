//! A command of a script.
ghost use Rattle.std.specs.Prelude.{◌≡◌, ℕ, [], IsTrue, IfOk};
ghost use Rattle.vx_answers.specs.declared.answer.Answer.TheVariants.{One};
ghost use Rattle.vx_answers.specs.declared.answer.End.TheVariants as ends;
ghost use Rattle.vx_answers.specs.declared.refusal.Refusal.TheVariants.{NotBuilt};
ghost use Rattle.vx_run.specs.Serving.{CommandEnds};
ghost use Rattle.vx_run.specs.Sound.{HasFormSize};
ghost use Rattle.vx_house.specs.Scene.{shelved};
ghost use Rattle.vx_house.specs.View.{Keeps, at};
ghost use Rattle.vx_picker.specs.Picks.{PicksMember};
ghost use Rattle.vx_plans.specs.Plans.{disks_of, plan_of};
ghost use Rattle.vx_plans.specs.Steps.{Does, DoesPlan, LeavesOff, WantsPlan};
ghost use Rattle.vx_script.specs.Kept.{is_command};

use crate::calling::serve_call;
use crate::planning::serve_plan;
use crate::recovering::serve_recovery;
use crate::unserved::Unserved;
use std::alloc::Global;
use vx_answers::{Answer, End, Refusal, Views};
use vx_base::OutOfMemory;
use vx_house::House;
use vx_names::Name;
use vx_picker::Picker;
use vx_plans::plan;
use vx_script::Command;
use vx_script_forms::{Form, name_in};
use vx_script_words::DiskAt;
use vx_shelf::Shelf;

/// Serves a command, whatever its word `cut=N` says. After a refusal of memory it is left as `LeavesOff` says: the world is as before, but
/// where the records of a new volume were added, devices of a volume were called already, or volumes were recovered.
pub fn execute<S: Shelf, F: Fn(u64, u64) -> u32>(
    alloc: Global,
    house: &mut House<S::P>,
    shelf: &mut S,
    command: &Command,
    select: &Picker<F>,
) -> Result<Answer, Unserved>
    requires picks { PicksMember (F.pre select.now.select) (F.post select.now.select) }
    requires kept { IsTrue (is_command command.now) }
    requires keeps { Keeps S.P.seen (at (shelved S.free S.held S.counted S.faults shelf.old) house.old) }
    requires empty { house.old.hand.items ≡ [] }
    ensures goes { (place : ℕ) → CommandEnds S.P.seen (Does place command.now) (LeavesOff command.now) result
        (at (shelved S.free S.held S.counted S.faults shelf.old) house.old) (at (shelved S.free S.held S.counted S.faults shelf.new) house.new) }
{
    match &command.form {
        Form::Calling(call) => serve_call(alloc, house, shelf, call, select),
        Form::Recover { vol } => serve_recovery(alloc, house, shelf, name_in(&command.group), *vol),
        form => serve_form(alloc, house, shelf, name_in(&command.group), form),
    }
}

/// Serves a form by its plan, where it has one.
fn serve_form<S: Shelf>(
    alloc: Global,
    house: &mut House<S::P>,
    shelf: &mut S,
    group: Option<Name>,
    form: &Form,
) -> Result<Answer, Unserved>
    requires keeps { Keeps S.P.seen (at (shelved S.free S.held S.counted S.faults shelf.old) house.old) }
    requires empty { house.old.hand.items ≡ [] }
    requires sized { HasFormSize form.now }
    ensures goes { CommandEnds S.P.seen (DoesPlan (disks_of form.now) (plan_of group form.now)) (WantsPlan (disks_of form.now) (plan_of group form.now)) result
        (at (shelved S.free S.held S.counted S.faults shelf.old) house.old) (at (shelved S.free S.held S.counted S.faults shelf.new) house.new) }
{
    let Ok(found) = plan(alloc, group, form) else {
        return Err(Unserved::OutOfMemory);
    };
    let Some(plan) = found else {
        return Ok(not_built(alloc));
    };
    match disks_of(alloc, form) {
        Ok(disks) => serve_plan(alloc, house, shelf, &plan, disks.as_slice()),
        Err(_) => Err(Unserved::OutOfMemory),
    }
}

/// The disks that a form names.
fn disks_of(alloc: Global, form: &Form) -> Result<Vec<DiskAt>, OutOfMemory>
    ensures { IfOk result (λ disks. disks.items ≡ disks_of form.now) }
{
    match form {
        Form::DgInit { disks, .. } => disks.to_vec(alloc),
        Form::DgAddDisk { disk, .. } => Ok(Vec::from_slice(alloc, &[*disk.get()])?),
        _ => Ok(Vec::new(alloc)),
    }
}

/// A command that is not built.
fn not_built(alloc: Global) -> Answer
    ensures { result ≡ One [] (ends.Refused NotBuilt) }
{
    Answer::One {
        views: Views::from_vec(Vec::new(alloc)),
        end: End::Refused(Refusal::NotBuilt),
    }
}
