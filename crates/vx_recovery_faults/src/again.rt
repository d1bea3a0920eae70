//! The recovery of what a cut has left is cut too.
use crate::counts::Bounds;
use crate::model::Model;
use crate::outlook::Outlook;
use crate::reply::{Reply, judge_status, replies_of};
use crate::report::{During, Found, Tally};
use crate::scenario::Scenario;
use crate::seen::Seen;
use crate::sound::look;
use crate::trial::run_on;
use crate::whole::recover_surely;
use std::alloc::{AllocError, Global};
use vx_volume_judge::Finding;

/// The most writes behind which a recovery is cut.
const WRITES: u64 = 2_000;

/// Cuts the recovery behind 0, 1, 2 and so on writes, until it is done before the cut is reached, and recovers what each leaves; and so it does
/// with the import before it, where that is asked. Where no volume is to be recovered nothing is done.
pub fn cut_again(
    alloc: Global,
    scenario: &Scenario,
    images: &[&[u8]],
    model: &Model,
    with_import: bool,
    tally: &mut Tally,
) -> Result<(), Found> {
    let seen = Seen::on(alloc, &scenario.shape, images)?;
    match Outlook::of(alloc, &seen)? {
        Outlook::Starts | Outlook::Recovers => {}
        _ => return Ok(()),
    }
    if with_import {
        cut_line(alloc, scenario, &seen, model, 1, tally)?;
    }
    cut_line(alloc, scenario, &seen, model, 2, tally)
}

/// The same of one of the two lines.
fn cut_line(
    alloc: Global,
    scenario: &Scenario,
    seen: &Seen<'_>,
    model: &Model,
    line: u64,
    tally: &mut Tally,
) -> Result<(), Found> {
    for writes in 0..WRITES {
        match try_cut(alloc, scenario, seen, model, line, writes, tally) {
            Ok(true) => tally.again = tally.again.saturating_add(1),
            Ok(false) => return Ok(()),
            Err(finding) => return Err(Found {
                finding,
                during: During::Again { line, writes },
            }),
        }
    }
    Err(Found::from(Finding::Endless))
}

/// The line is cut behind so many writes. It tells whether the cut was reached; then what is left is judged, and recovered.
fn try_cut(
    alloc: Global,
    scenario: &Scenario,
    seen: &Seen<'_>,
    model: &Model,
    line: u64,
    writes: u64,
    tally: &mut Tally,
) -> Result<bool, Finding> {
    let script = cut_script(alloc, line, writes)?;
    let ran = run_on(alloc, seen.images, &[], script.as_str())?;
    tally.run(1);
    let replies = replies_of(alloc, ran.answers())?;
    judge_status(replies.as_slice(), ran.status)?;
    if !is_reached(seen, line, replies.as_slice())? {
        return Ok(false);
    }
    let left = ran.images(alloc)?;
    let after = Seen::on(alloc, &scenario.shape, left.as_slice())?;
    look(&after, model)?;
    let mut model = model.copy(alloc)?;
    recover_surely(alloc, scenario, left.as_slice(), &mut model)?;
    tally.run(1);
    Ok(true)
}

/// The import, or the import and the recovery, the last of them with the word `cut=N`.
fn cut_script(alloc: Global, line: u64, writes: u64) -> Result<String, AllocError> {
    if line == 1 {
        format!(in alloc; "vxdg import dg cut={writes}\n")
    } else {
        format!(in alloc; "vxdg import dg\nvxrecover -s cut={writes}\n")
    }
}

/// Whether the last answer tells the loss. All others are ok, and so is the last where it does not; then the numbers that it tells are within
/// their bounds.
fn is_reached(seen: &Seen<'_>, line: u64, replies: &[Reply<'_>]) -> Result<bool, Finding> {
    if replies.len() as u64 != line {
        return Err(Finding::Answer(replies.len() as u64));
    }
    let Some((last, others)) = replies.split_last() else {
        return Err(Finding::Answer(0));
    };
    if !others.iter().all(|reply| reply.line == "ok") {
        return Err(Finding::Answer(1));
    }
    if last.is_lost() {
        return Ok(true);
    }
    if last.line != "ok" {
        return Err(Finding::Answer(line));
    }
    if line == 2 && seen.was_started() {
        Bounds::of(seen, u64::MAX, false).judge(last.view)?;
    }
    Ok(false)
}
