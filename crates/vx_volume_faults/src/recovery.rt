//! What a loss of power has left is recovered, and the recovery is cut too.
use crate::base::{Bases, known, steps_of};
use crate::scenario::Scenario;
use crate::trial::{Ran, run_on};
use std::alloc::Global;
use vx_volume_judge::{
    Finding, Known, Step, Volume, VolumeState, is_ok, judge, judge_status, take_all,
};

/// What recovers the volume, reads it from both plexes, and stops it, so that they have to be equal.
const WHOLE: &str =
    "vxdg import dg\nvxrecover -s\nread v 0 384\nread v 0 384\nvxvol stop v\nvxdg deport dg\n";

/// The lines of a recovery that is cut.
const CUT: &str = "vxdg import dg\nvxrecover -s\n";

/// The most writes behind which a recovery is cut.
const WRITES: u64 = 2_000;

/// Whether the volume was left started, and all its disks are good: then nothing stands against its recovery.
fn is_to_recover(volume: &Volume) -> bool {
    let was_started = match volume.state {
        VolumeState::Empty | VolumeState::Clean => false,
        VolumeState::Active | VolumeState::NeedSync | VolumeState::Sync => true,
    };
    was_started && is_held(volume)
}

fn is_held(volume: &Volume) -> bool {
    for plex in &volume.plexes {
        if !plex.held {
            return false;
        }
    }
    for log in &volume.logs {
        if !log.held {
            return false;
        }
    }
    true
}

/// Where the volume was left started, it is recovered with nothing that fails, read, and stopped, and what that leaves is judged.
pub fn recover(
    alloc: Global,
    bases: &Bases,
    images: &[&[u8]],
    volume: &Option<Volume>,
    known: &mut Known,
) -> Result<(), Finding> {
    match volume {
        Some(volume) if is_to_recover(volume) => recover_all(alloc, bases, images, known),
        _ => Ok(()),
    }
}

fn recover_all(
    alloc: Global,
    bases: &Bases,
    images: &[&[u8]],
    known: &mut Known,
) -> Result<(), Finding> {
    let ran = run_on(alloc, images, None, WHOLE)?;
    judge_status(ran.answers(), ran.status)?;
    are_ok(ran.answers())?;
    let steps = steps_of(alloc, WHOLE)?;
    take_all(known, steps.as_slice(), ran.answers())?;
    known.end();
    let left = ran.images(alloc)?;
    let _volume = judge(alloc, left.as_slice(), bases.records(), known)?;
    Ok(())
}

/// All was done.
fn are_ok(answers: &str) -> Result<(), Finding> {
    let mut number = 0u64;
    for line in answers.lines() {
        number = number.saturating_add(1);
        if !is_ok(line) {
            return Err(Finding::Answer(number));
        }
    }
    Ok(())
}

/// The recovery of what a run has left is cut behind 0, 1, 2 and so on writes, until it is done before the cut is reached; and what each leaves
/// is recovered. These are the steps of the run. It tells how many cuts were reached.
pub fn cut_recovery(
    alloc: Global,
    bases: &Bases,
    scenario: &Scenario,
    steps: &[Step],
    ran: &Ran,
) -> Result<u64, Finding> {
    let images = ran.images(alloc)?;
    for writes in 0..WRITES {
        let mut known = known(alloc, scenario.from, bases.form, scenario.lowest())?;
        take_all(&mut known, steps, ran.answers())?;
        known.end();
        if let Some(volume) = judge(alloc, images.as_slice(), bases.records(), &known)? {
            known.find(volume.form());
        }
        if !try_cut(alloc, bases, images.as_slice(), &mut known, writes)? {
            return Ok(writes);
        }
    }
    Err(Finding::Endless)
}

/// The recovery is cut behind so many writes. It tells whether the cut was reached; then what is left is judged, and recovered.
fn try_cut(
    alloc: Global,
    bases: &Bases,
    images: &[&[u8]],
    known: &mut Known,
    writes: u64,
) -> Result<bool, Finding> {
    let script = format!(in alloc; "vxdg import dg\nvxrecover -s cut={writes}\n")?;
    let ran = run_on(alloc, images, None, script.as_str())?;
    judge_status(ran.answers(), ran.status)?;
    let is_lost = ran.answers() == "ok\nlost\n";
    if !is_lost {
        are_ok(ran.answers())?;
    }
    let steps = steps_of(alloc, CUT)?;
    take_all(known, steps.as_slice(), ran.answers())?;
    known.end();
    let left = ran.images(alloc)?;
    let volume = judge(alloc, left.as_slice(), bases.records(), known)?;
    recover(alloc, bases, left.as_slice(), &volume, known)?;
    Ok(is_lost)
}
