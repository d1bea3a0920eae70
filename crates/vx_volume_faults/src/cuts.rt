//! Each command of a script is cut behind each number of device writes.
use crate::base::{Bases, known, slices};
use crate::later::go_on;
use crate::recovery::cut_recovery;
use crate::scenario::Scenario;
use crate::trial::run_on;
use std::alloc::{AllocError, Global};
use vx_volume_judge::{Answer, Command, Finding, Sort, Step, judge_status, take_all};

/// The most writes behind which a command is cut.
const WRITES: u64 = 2_000;

/// Behind so many writes a write to two plexes has both copies of the log marked and one plex written, or the only copy and both plexes.
const HALF: u64 = 3;

/// What was found where a command, counted from 1, was cut behind so many writes.
#[derive(Clone, Copy)]
pub struct Cut {
    pub finding: Finding,
    pub command: u64,
    pub writes: u64,
}

/// Cuts each command behind 0, 1, 2 and so on writes, until it is done before the cut is reached. It tells how many cuts were reached, or the
/// first thing that is found.
pub fn cut_each(alloc: Global, bases: &Bases, scenario: &Scenario) -> Result<u64, Cut> {
    let mut reached = 0u64;
    let mut command = 0u64;
    for _ in scenario.steps.iter() {
        command = command.saturating_add(1);
        reached = reached.saturating_add(cut_one(alloc, bases, scenario, command)?);
    }
    Ok(reached)
}

fn cut_one(alloc: Global, bases: &Bases, scenario: &Scenario, command: u64) -> Result<u64, Cut> {
    for writes in 0..WRITES {
        match try_cut(alloc, bases, scenario, command, writes) {
            Ok(true) => {}
            Ok(false) => return Ok(writes),
            Err(finding) => return Err(Cut {
                finding,
                command,
                writes,
            }),
        }
    }
    Err(Cut {
        finding: Finding::Endless,
        command,
        writes: WRITES,
    })
}

/// A trial in which this command is cut behind so many writes, and is the last. It tells whether the cut was reached; then what is left is
/// judged, and so is the run behind it. Of a write that was cut in its midst the recovery of what is left is cut too.
fn try_cut(
    alloc: Global,
    bases: &Bases,
    scenario: &Scenario,
    command: u64,
    writes: u64,
) -> Result<bool, Finding> {
    let images = slices(alloc, bases.of(scenario.from))?;
    let script = cut_script(alloc, scenario, command, writes)?;
    let ran = run_on(alloc, images.as_slice(), None, script.as_str())?;
    judge_status(ran.answers(), ran.status)?;
    if !is_reached(scenario, command, ran.answers())? {
        return Ok(false);
    }
    let steps = first_steps(alloc, scenario, command)?;
    if writes == HALF && is_write(steps.as_slice()) {
        let _cuts = cut_recovery(alloc, bases, scenario, steps.as_slice(), &ran)?;
    }
    let mut known = known(alloc, scenario.from, bases.form, scenario.lowest())?;
    take_all(&mut known, steps.as_slice(), ran.answers())?;
    go_on(alloc, bases, scenario, &ran, &mut known)?;
    Ok(true)
}

/// Whether the last step is a write: then the volume runs.
fn is_write(steps: &[Step]) -> bool {
    match steps.last() {
        Some(step) => step.command == Command::Write,
        None => false,
    }
}

/// The script up to this command, which has the word `cut=N`.
fn cut_script(
    alloc: Global,
    scenario: &Scenario,
    command: u64,
    writes: u64,
) -> Result<String, AllocError> {
    let mut script = String::new(alloc);
    let mut number = 0u64;
    for line in scenario.script.lines() {
        number = number.saturating_add(1);
        if command < number {
            return Ok(script);
        }
        script.push_str(line)?;
        if number == command {
            script.push_str(format!(in alloc; " cut={writes}")?.as_str())?;
        }
        script.push('\n')?;
    }
    Ok(script)
}

/// The steps up to this command.
fn first_steps(alloc: Global, scenario: &Scenario, command: u64) -> Result<Vec<Step>, AllocError> {
    let mut steps = Vec::new(alloc);
    let mut number = 0u64;
    for step in scenario.steps.iter() {
        number = number.saturating_add(1);
        if number <= command {
            steps.push(*step)?;
        }
    }
    Ok(steps)
}

/// Whether the answers are those that are wanted, up to the last, which tells the loss. Where none does they are all as they are wanted.
fn is_reached(scenario: &Scenario, command: u64, answers: &str) -> Result<bool, Finding> {
    let mut wanted = scenario.wanted.lines();
    let mut number = 0u64;
    let mut is_lost = false;
    for line in answers.lines() {
        number = number.saturating_add(1);
        let is_wanted = wanted.next() == Some(line);
        is_lost = number == command && tells_loss(line);
        if !is_wanted && !is_lost {
            return Err(Finding::Answer(number));
        }
    }
    if number == command {
        Ok(is_lost)
    } else {
        Err(Finding::Answer(number))
    }
}

fn tells_loss(line: &str) -> bool {
    match Answer::read(line) {
        Some(answer) => answer.sort == Sort::Lost,
        None => false,
    }
}
