//! Whether what a volume's disks hold is sound, and holds what was acknowledged.
use crate::bytes::{fill_of, has};
use crate::candidates::Candidates;
use crate::finding::Finding;
use crate::known::Known;
use crate::logs::look_at_logs;
use crate::mirror::look_at_marks;
use crate::state::{PlexState, VolumeState};
use crate::volume::{DIRTY, Plex, Volume};

/// Looks at the volume: its plexes' states, whether each region is sound, and whether what is read of it is among the candidates.
pub fn look(volume: &Volume, known: &Known) -> Result<(), Finding> {
    look_at_logs(volume, known)?;
    look_at_plexes(volume, known.log_failed)?;
    for region in 0..volume.regions() {
        look_at_region(volume, region)?;
        look_at_values(volume, region, &known.candidates)?;
        look_at_marks(volume, region, known)?;
    }
    Ok(())
}

// ---- states

fn look_at_plexes(volume: &Volume, log_failed: bool) -> Result<(), Finding> {
    for plex in &volume.plexes {
        if !fits(volume, plex, log_failed) {
            return Err(Finding::PlexState);
        }
    }
    Ok(())
}

/// An EMPTY volume has EMPTY plexes, one that was started ACTIVE ones. One that was stopped has plexes that are CLEAN or, where they
/// are marked, IOFAIL. A mark that was to be taken away where a write of the log failed may still be shown: the plex may be CLEAN
/// then.
fn fits(volume: &Volume, plex: &Plex, log_failed: bool) -> bool {
    match volume.state {
        VolumeState::Empty => plex.state == PlexState::Empty,
        VolumeState::Clean => match plex.state {
            PlexState::Clean => log_failed || !is_surely_marked(volume, plex),
            PlexState::IoFail => may_be_marked(volume, plex),
            _ => false,
        },
        _ => plex.state == PlexState::Active,
    }
}

/// Whether each copy of the log, and there is one, marks the plex in some region.
fn is_surely_marked(volume: &Volume, plex: &Plex) -> bool {
    if volume.copies() == 0 {
        return false;
    }
    for region in 0..volume.regions() {
        if has(volume.sure(region), plex.map) {
            return true;
        }
    }
    false
}

/// Whether some copy marks the plex in some region, or the log has none that would tell.
fn may_be_marked(volume: &Volume, plex: &Plex) -> bool {
    if volume.copies() == 0 {
        return volume.is_logged();
    }
    for region in 0..volume.regions() {
        if has(volume.possible(region), plex.map) {
            return true;
        }
    }
    false
}

// ---- soundness

/// Whether the region is sound by each choice of its marks: those that each copy shows, and any of the others that some copy shows.
/// Nothing is said of a volume no copy of whose log counts.
fn look_at_region(volume: &Volume, region: u64) -> Result<(), Finding> {
    if volume.copies() == 0 {
        return Ok(());
    }
    let sure = volume.sure(region) & volume.maps();
    let free = volume.possible(region) & volume.maps() & !sure;
    let mut chosen = free;
    for _ in 0..subsets_of(free) {
        look_by(volume, region, sure | chosen)?;
        chosen = chosen.wrapping_sub(1) & free;
    }
    Ok(())
}

/// How many sets have only numbers of this one.
fn subsets_of(set: u64) -> u64 {
    2u64.saturating_pow(set.count_ones())
}

/// Some plex is unmarked, and the unmarked plexes on good disks hold the same or may differ.
fn look_by(volume: &Volume, region: u64, marks: u64) -> Result<(), Finding> {
    if !has_unmarked(volume, marks) {
        return Err(Finding::NoUnmarked(region));
    }
    if agree(volume, region, marks) || may_differ(volume, marks) {
        Ok(())
    } else {
        Err(Finding::Differ(region))
    }
}

fn has_unmarked(volume: &Volume, marks: u64) -> bool {
    for plex in &volume.plexes {
        if !has(marks, plex.map) {
            return true;
        }
    }
    false
}

fn agree(volume: &Volume, region: u64, marks: u64) -> bool {
    for plex in &volume.plexes {
        if plex.held && !has(marks, plex.map) && !agrees(volume, plex, region, marks) {
            return false;
        }
    }
    true
}

/// Whether each unmarked plex on good disks holds the same as this one.
fn agrees(volume: &Volume, plex: &Plex, region: u64, marks: u64) -> bool {
    let bytes = volume.bytes_in(plex, region);
    for other in &volume.plexes {
        if other.held && !has(marks, other.map) && volume.bytes_in(other, region) != bytes {
            return false;
        }
    }
    true
}

/// The volume is empty, or it was started, the region is dirty, and no stale plex on good disks is unmarked.
fn may_differ(volume: &Volume, marks: u64) -> bool {
    match volume.state {
        VolumeState::Empty => true,
        VolumeState::Clean => false,
        _ => has(marks, DIRTY) && !has_stale(volume, marks),
    }
}

fn has_stale(volume: &Volume, marks: u64) -> bool {
    for plex in &volume.plexes {
        if plex.held && !plex.state.is_available() && !has(marks, plex.map) {
            return true;
        }
    }
    false
}

// ---- values

/// Whether each plex that is read in a region holds in each of its blocks one of the block's candidates.
fn look_at_values(volume: &Volume, region: u64, candidates: &Candidates) -> Result<(), Finding> {
    for plex in &volume.plexes {
        if is_read(volume, plex, region) {
            look_at_blocks(volume, plex, region, candidates)?;
        }
    }
    Ok(())
}

fn look_at_blocks(
    volume: &Volume,
    plex: &Plex,
    region: u64,
    candidates: &Candidates,
) -> Result<(), Finding> {
    for block in volume.first_of(region)..volume.end_of(region) {
        if !holds(plex, block, candidates) {
            return Err(Finding::Value(block));
        }
    }
    Ok(())
}

/// Whether the plex is read in the region: of an EMPTY volume the one of the lowest map, else each that is available and that some
/// copy of the log shows unmarked, or that is alone where no copy counts.
fn is_read(volume: &Volume, plex: &Plex, region: u64) -> bool {
    if volume.state == VolumeState::Empty {
        return volume.is_lowest(plex);
    }
    let is_alone = volume.copies() == 0 && volume.plexes.len() == 1;
    plex.is_available() && (is_alone || !has(volume.sure(region), plex.map))
}

fn holds(plex: &Plex, block: u64, candidates: &Candidates) -> bool {
    match plex.block(block) {
        Some(bytes) => candidates.has(block, fill_of(bytes)),
        None => false,
    }
}
