//! Each command is cut behind each number of writes.
use crate::again::cut_again;
use crate::base::{Base, judge_wanted, push_step, take_all};
use crate::faults::move_faults;
use crate::held::Held;
use crate::model::Model;
use crate::reply::{Reply, judge_status, replies_of};
use crate::report::{Found, Report, Tally};
use crate::scenario::{Scenario, Step};
use crate::seen::Seen;
use crate::sound::look;
use crate::trial::{run_on, slices};
use crate::whole::recover_surely;
use std::alloc::{AllocError, Global};
use vx_volume_judge::Finding;

/// The most writes behind which a command is cut.
const WRITES: u64 = 2_000;

/// Cuts each command that is swept behind 0, 1, 2 and so on writes, until it is done before the cut is reached.
pub fn cut_each(
    alloc: Global,
    scenario: &Scenario,
    base: &Base,
    tally: &mut Tally,
) -> Result<(), Report> {
    let mut held = Held {
        images: Vec::new(alloc),
    };
    for last in scenario.base..scenario.steps.len() {
        tally.commands = tally.commands.saturating_add(1);
        cut_one(alloc, scenario, base, last, &mut held, tally)?;
    }
    Ok(())
}

fn cut_one(
    alloc: Global,
    scenario: &Scenario,
    base: &Base,
    last: usize,
    held: &mut Held,
    tally: &mut Tally,
) -> Result<(), Report> {
    let command = (last.saturating_sub(scenario.base) as u64).saturating_add(1);
    for writes in 0..WRITES {
        match try_cut(alloc, scenario, base, last, writes, held, tally) {
            Ok(true) => tally.cuts = tally.cuts.saturating_add(1),
            Ok(false) => return Ok(()),
            Err(found) => return Err(Report {
                found,
                command,
                writes,
            }),
        }
    }
    Err(Report {
        found: Found::from(Finding::Endless),
        command,
        writes: WRITES,
    })
}

/// A trial in which the step at this place is the last, and is cut behind so many writes. It tells whether the cut was reached; then what is
/// left is judged and recovered, also by recoveries that are cut, and beside faults, where the scenario asks for them.
fn try_cut(
    alloc: Global,
    scenario: &Scenario,
    base: &Base,
    last: usize,
    writes: u64,
    held: &mut Held,
    tally: &mut Tally,
) -> Result<bool, Found> {
    let before = scenario.steps.get(scenario.base..last).unwrap_or(&[]);
    let Some(step) = scenario.steps.get(last) else {
        return Err(Found::from(Finding::Records));
    };
    let script = cut_script(alloc, before, step, writes)?;
    let images = slices(alloc, &base.images)?;
    let ran = run_on(
        alloc,
        images.as_slice(),
        scenario.fails.as_slice(),
        script.as_str(),
    )?;
    tally.run(1);
    let replies = replies_of(alloc, ran.answers())?;
    judge_status(replies.as_slice(), ran.status)?;
    let is_lost = is_reached(before, step, replies.as_slice())?;
    let left = ran.images(alloc)?;
    let changes = if is_lost && writes == 0 { 0 } else { 1 };
    held.take(alloc, left.as_slice(), changes)?;
    if !is_lost {
        return Ok(false);
    }
    let mut model = base.model.copy(alloc)?;
    take_all(&mut model, before, replies.as_slice())?;
    take_last(&mut model, step, replies.as_slice())?;
    let seen = Seen::on(alloc, &scenario.shape, left.as_slice())?;
    look(&seen, &model)?;
    model.find(seen.form());
    let is_chosen = writes % scenario.every.max(1) == 0;
    if is_chosen || is_write(step) {
        cut_again(alloc, scenario, left.as_slice(), &model, is_chosen, tally)?;
    }
    if step.faults.iter().any(|one| *one == writes) {
        move_faults(alloc, scenario, left.as_slice(), &model, tally)?;
    }
    recover_surely(alloc, scenario, left.as_slice(), &mut model)?;
    tally.run(1);
    Ok(true)
}

fn is_write(step: &Step) -> bool {
    step.line.as_str().starts_with("write v ")
}

/// The steps, and the last of them with the word `cut=N`.
fn cut_script(
    alloc: Global,
    before: &[Step],
    step: &Step,
    writes: u64,
) -> Result<String, AllocError> {
    let mut script = String::new(alloc);
    for one in before {
        push_step(&mut script, one)?;
    }
    script.push_str(step.line.as_str())?;
    script.push_str(format!(in alloc; " cut={writes}\n")?.as_str())?;
    script.push_str(step.rest.as_str())?;
    Ok(script)
}

/// Whether the last answer tells the loss. All others are as they are wanted, and so is the last where it does not.
fn is_reached(before: &[Step], step: &Step, replies: &[Reply<'_>]) -> Result<bool, Finding> {
    let Some((last, others)) = replies.split_last() else {
        return Err(Finding::Answer(0));
    };
    judge_wanted(before, others)?;
    if last.is_lost() {
        return Ok(true);
    }
    if last.line == step.wanted.as_str() {
        Ok(false)
    } else {
        Err(Finding::Answer(replies.len() as u64))
    }
}

/// Takes the reply of the last step.
fn take_last(model: &mut Model, step: &Step, replies: &[Reply<'_>]) -> Result<(), Finding> {
    let number = replies.len() as u64;
    match replies.last() {
        Some(reply) if model.take(step.line.as_str(), step.form, *reply) => Ok(()),
        _ => Err(Finding::Answer(number)),
    }
}
