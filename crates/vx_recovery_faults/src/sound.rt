//! What is wanted of a volume's bytes: that they are sound, that they hold what was acknowledged, and that its plexes are equal once it was
//! recovered.
use crate::model::Model;
use crate::seen::{Seen, SeenPlex};
use crate::shape::{DIRTY, bit};
use vx_volume_judge::{Candidates, Finding, PlexState, VolumeState, fill_of, has};

/// Looks at a volume as a run has left it: so much is recorded as may be, each region is sound by each choice of its marks, and what is read
/// of it is among the candidates.
pub fn look(seen: &Seen<'_>, model: &Model) -> Result<(), Finding> {
    if !model.may_have(seen.form()) {
        return Err(Finding::Records);
    }
    if seen.state.is_some() {
        for region in 0..seen.shape.regions() {
            look_at_region(seen, region)?;
            look_at_values(seen, region, &model.candidates)?;
        }
    }
    Ok(())
}

/// Looks at a volume that was recovered and stopped: it is CLEAN, and so is each plex that is read; no copy of its log marks one of these, or
/// a region as dirty; and they hold the same.
pub fn look_at_whole(seen: &Seen<'_>) -> Result<(), Finding> {
    if seen.state != Some(VolumeState::Clean) {
        return Err(Finding::VolumeState);
    }
    for one in &seen.plexes {
        if one.is_available() && one.state != PlexState::Clean {
            return Err(Finding::PlexState);
        }
    }
    let maps = seen.available() | bit(DIRTY);
    for region in 0..seen.shape.regions() {
        let marks = seen.possible(region);
        if has(marks, DIRTY) {
            return Err(Finding::Dirty(region));
        }
        if marks & maps != 0 {
            return Err(Finding::Marked(region));
        }
        if !agree(seen, region, !maps) {
            return Err(Finding::Differ(region));
        }
    }
    Ok(())
}

// ---- soundness

/// Whether the region is sound by each choice of its marks: those that each copy shows, and any of the others that some copy shows. Nothing
/// is said of a volume of several plexes no copy of whose log counts.
fn look_at_region(seen: &Seen<'_>, region: u64) -> Result<(), Finding> {
    if seen.logs.is_empty() {
        return Ok(());
    }
    let sure = seen.sure(region) & seen.shape.maps();
    let free = seen.possible(region) & seen.shape.maps() & !sure;
    let mut chosen = free;
    for _ in 0..2u64.saturating_pow(free.count_ones()) {
        look_by(seen, region, sure | chosen)?;
        chosen = chosen.wrapping_sub(1) & free;
    }
    Ok(())
}

/// Some plex is unmarked, and the unmarked plexes on good disks hold the same or may differ.
fn look_by(seen: &Seen<'_>, region: u64, marks: u64) -> Result<(), Finding> {
    if seen.plexes.iter().all(|one| has(marks, one.plex.map)) {
        return Err(Finding::NoUnmarked(region));
    }
    if may_differ(seen, marks) || agree(seen, region, marks) {
        Ok(())
    } else {
        Err(Finding::Differ(region))
    }
}

/// The volume is empty, or it was started, the region is dirty, and no plex that is out of use lies on good disks and is not among these marks.
fn may_differ(seen: &Seen<'_>, marks: u64) -> bool {
    let is_stale = |one: &SeenPlex<'_>| !one.state.is_available() && is_unmarked(one, marks);
    seen.state == Some(VolumeState::Empty)
        || (seen.was_started() && has(marks, DIRTY) && !seen.plexes.iter().any(is_stale))
}

/// Whether the plexes on good disks that are not among these marks hold the same in a region, byte by byte.
fn agree(seen: &Seen<'_>, region: u64, marks: u64) -> bool {
    let Some(first) = seen.plexes.iter().find(|one| is_unmarked(one, marks)) else {
        return true;
    };
    seen.plexes.iter().all(|one| !is_unmarked(one, marks) || are_equal(seen, first, one, region))
}

fn is_unmarked(one: &SeenPlex<'_>, marks: u64) -> bool {
    one.held && !has(marks, one.plex.map)
}

/// Whether two plexes hold the same in a region.
fn are_equal(seen: &Seen<'_>, one: &SeenPlex<'_>, other: &SeenPlex<'_>, region: u64) -> bool {
    let shape = seen.shape;
    for block in shape.first_of(region)..shape.end_of(region) {
        let bytes = one.plex.block(seen.images, block);
        if bytes.is_none() || bytes != other.plex.block(seen.images, block) {
            return false;
        }
    }
    true
}

// ---- values

/// Whether each plex that is read in a region holds in each of its blocks one of the block's candidates.
fn look_at_values(seen: &Seen<'_>, region: u64, candidates: &Candidates) -> Result<(), Finding> {
    for one in &seen.plexes {
        if is_read(seen, one, region) {
            look_at_blocks(seen, one, region, candidates)?;
        }
    }
    Ok(())
}

/// Whether the plex is read in the region: of an EMPTY volume the lowest, else each that is available and that some copy of the log shows
/// unmarked, or that is alone where no copy counts.
fn is_read(seen: &Seen<'_>, one: &SeenPlex<'_>, region: u64) -> bool {
    if seen.state == Some(VolumeState::Empty) {
        return seen
            .plexes
            .iter()
            .all(|other| one.plex.map <= other.plex.map);
    }
    let is_told = !seen.logs.is_empty() || seen.plexes.len() == 1;
    one.is_available() && is_told && !has(seen.sure(region), one.plex.map)
}

fn look_at_blocks(
    seen: &Seen<'_>,
    one: &SeenPlex<'_>,
    region: u64,
    candidates: &Candidates,
) -> Result<(), Finding> {
    let shape = seen.shape;
    for block in shape.first_of(region)..shape.end_of(region) {
        let is_held = match one.plex.block(seen.images, block) {
            Some(bytes) => candidates.has(block, fill_of(bytes)),
            None => false,
        };
        if !is_held {
            return Err(Finding::Value(block));
        }
    }
    Ok(())
}
