//! How a start of the volume is answered, by the bytes of its disks.
use crate::bytes::has;
use crate::finding::Finding;
use crate::state::VolumeState;
use crate::volume::{Plex, Volume};
use std::alloc::{AllocError, Global};

/// The answer of a start of the volume as its disks hold it, once its group was imported.
pub fn start_of(alloc: Global, volume: &Volume) -> Result<String, Finding> {
    let answer = match volume.state {
        VolumeState::Empty => first_start_of(alloc, volume)?,
        VolumeState::Clean => later_start_of(alloc, volume)?,
        _ => String::from_str(alloc, "refused state NEEDSYNC")?,
    };
    Ok(answer)
}

/// The answer of a start of the volume, which has one plex, once it has lost its logs, or has got some that mark nothing.
pub fn lone_start_of(alloc: Global, volume: &Volume) -> Result<String, Finding> {
    match volume.state {
        VolumeState::Empty | VolumeState::Clean => Ok(unlogged_start_of(alloc, volume)?),
        _ => start_of(alloc, volume),
    }
}

/// Of one that was never started: where it has a log one has to lie on good disks, and so has the lowest plex; then each other available
/// plex is copied to.
fn first_start_of(alloc: Global, volume: &Volume) -> Result<String, AllocError> {
    if volume.is_logged() && !has_held_log(volume) {
        return String::from_str(alloc, "refused no log v");
    }
    if !is_lowest_available(volume) {
        return String::from_str(alloc, "refused no current 0");
    }
    if volume.available() == 1 {
        return String::from_str(alloc, "ok copied 0");
    }
    format!(in alloc; "ok copied {}", volume.regions())
}

fn has_held_log(volume: &Volume) -> bool {
    for log in &volume.logs {
        if log.held {
            return true;
        }
    }
    false
}

fn is_lowest_available(volume: &Volume) -> bool {
    for plex in &volume.plexes {
        if plex.is_available() && volume.is_lowest(plex) {
            return true;
        }
    }
    false
}

/// Of one that was stopped: the first copy of the log that counts has to leave an available plex unmarked in each region. Without a log
/// a plex has to be available.
fn later_start_of(alloc: Global, volume: &Volume) -> Result<String, AllocError> {
    if !volume.is_logged() {
        return unlogged_start_of(alloc, volume);
    }
    let Some(log) = first_copy(volume) else {
        return String::from_str(alloc, "refused no log v");
    };
    match first_not_current(volume, log) {
        Some(region) => format!(in alloc; "refused no current {region}"),
        None => String::from_str(alloc, "ok copied 0"),
    }
}

fn unlogged_start_of(alloc: Global, volume: &Volume) -> Result<String, AllocError> {
    if volume.available() == 0 {
        String::from_str(alloc, "refused no current 0")
    } else {
        String::from_str(alloc, "ok copied 0")
    }
}

/// The first copy of the log that counts.
fn first_copy(volume: &Volume) -> Option<&Plex> {
    for log in &volume.logs {
        if volume.counts(log) {
            return Some(log);
        }
    }
    None
}

/// The first region in which a copy of the log marks each available plex.
fn first_not_current(volume: &Volume, log: &Plex) -> Option<u64> {
    for region in 0..volume.regions() {
        if !is_current(volume, volume.marks(log, region)) {
            return Some(region);
        }
    }
    None
}

/// Whether some available plex is not among these marks.
fn is_current(volume: &Volume, marks: u64) -> bool {
    for plex in &volume.plexes {
        if plex.is_available() && !has(marks, plex.map) {
            return true;
        }
    }
    false
}
