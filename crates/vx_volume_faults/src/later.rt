//! What a run leaves, and the run behind it, in which nothing fails.
use crate::base::{Bases, steps_of};
use crate::next::Next;
use crate::recovery::recover;
use crate::scenario::Scenario;
use crate::trial::{Ran, run_on};
use std::alloc::Global;
use vx_volume_judge::{Finding, Known, judge, judge_next, judge_status, take_all};

/// Looks at what a run has left, runs on, with nothing that fails, and looks at what that leaves. Where the volume is left started it is
/// recovered at the end.
pub fn go_on(
    alloc: Global,
    bases: &Bases,
    scenario: &Scenario,
    ran: &Ran,
    known: &mut Known,
) -> Result<(), Finding> {
    let images = ran.images(alloc)?;
    known.end();
    let volume = judge(alloc, images.as_slice(), bases.records(), known)?;
    if let Some(volume) = &volume {
        known.find(volume.form());
    }
    let next = Next::of(alloc, scenario, images.as_slice(), &volume)?;
    let second = run_on(alloc, images.as_slice(), None, next.script.as_str())?;
    judge_status(second.answers(), second.status)?;
    judge_next(next.wanted.as_slice(), second.answers())?;
    let steps = steps_of(alloc, next.script.as_str())?;
    take_all(known, steps.as_slice(), second.answers())?;
    known.end();
    let images = second.images(alloc)?;
    let volume = judge(alloc, images.as_slice(), bases.records(), known)?;
    recover(alloc, bases, images.as_slice(), &volume, known)
}
