//! The power goes at each device call of a script.
use crate::base::{Bases, known, slices};
use crate::clock::{Clock, Leaves};
use crate::later::go_on;
use crate::scenario::Scenario;
use crate::trial::run_until;
use std::alloc::Global;
use vx_volume_judge::{Answer, Finding, Sort, judge_status, take_all};

/// The most calls at which the power goes.
const CALLS: u64 = 2_000;

/// What was found where the power went at a call, and what that call left.
#[derive(Clone, Copy)]
pub struct Loss {
    pub finding: Finding,
    pub call: u64,
    pub leaves: Leaves,
}

/// Lets the power go at each call. It tells how many calls there are, or the first thing that is found.
pub fn lose_power(alloc: Global, bases: &Bases, scenario: &Scenario) -> Result<u64, Loss> {
    for call in 0..CALLS {
        let Some(sectors) = try_loss(alloc, bases, scenario, call, Leaves::Nothing)? else {
            return Ok(call);
        };
        if 1 < sectors {
            try_loss(alloc, bases, scenario, call, Leaves::FirstHalf)?;
        }
        if 0 < sectors {
            try_loss(alloc, bases, scenario, call, Leaves::All)?;
        }
    }
    Err(Loss {
        finding: Finding::Endless,
        call: CALLS,
        leaves: Leaves::Nothing,
    })
}

fn try_loss(
    alloc: Global,
    bases: &Bases,
    scenario: &Scenario,
    call: u64,
    leaves: Leaves,
) -> Result<Option<u64>, Loss> {
    match try_clock(alloc, bases, scenario, &Clock::new(call, leaves)) {
        Ok(sectors) => Ok(sectors),
        Err(finding) => Err(Loss {
            finding,
            call,
            leaves,
        }),
    }
}

/// A trial in which the power goes where the clock says so. It tells how many sectors the call was to write at which it went, and
/// none where it did not go.
fn try_clock(
    alloc: Global,
    bases: &Bases,
    scenario: &Scenario,
    clock: &Clock,
) -> Result<Option<u64>, Finding> {
    let images = slices(alloc, bases.of(scenario.from))?;
    let ran = run_until(alloc, images.as_slice(), clock, scenario.script.as_str())?;
    judge_status(ran.answers(), ran.status)?;
    judge_answers(scenario, clock.is_gone(), ran.answers())?;
    let mut known = known(alloc, scenario.from, bases.form, scenario.lowest())?;
    take_all(&mut known, scenario.steps.as_slice(), ran.answers())?;
    go_on(alloc, bases, scenario, &ran, &mut known)?;
    if clock.is_gone() {
        Ok(Some(clock.sectors()))
    } else {
        Ok(None)
    }
}

/// The answers are those that are wanted, up to one that tells the loss where the power goes. Behind that none is ok.
fn judge_answers(scenario: &Scenario, goes: bool, answers: &str) -> Result<(), Finding> {
    let mut wanted = scenario.wanted.lines();
    let mut is_lost = false;
    let mut number = 0u64;
    for line in answers.lines() {
        number = number.saturating_add(1);
        let is_wanted = wanted.next() == Some(line);
        let fits = if is_lost {
            tells(line, Sort::Lost) || tells(line, Sort::Refused)
        } else {
            is_lost = tells(line, Sort::Lost);
            is_wanted || is_lost
        };
        if !fits {
            return Err(Finding::Answer(number));
        }
    }
    if is_lost == goes {
        Ok(())
    } else {
        Err(Finding::Answer(number))
    }
}

fn tells(line: &str, sort: Sort) -> bool {
    match Answer::read(line) {
        Some(answer) => answer.sort == sort,
        None => false,
    }
}
