//! What a region may hold at any moment: its marks, and its plexes by them.

use crate::breach::Breach;
use crate::history::History;
use crate::setup::Held;
use vx_core::{Phase, Stage};

fn is_in(mask: u64, plex: &Held) -> bool {
    vx_mask::contains(mask, plex.map as u32)
}

/// Whether the marks of all plexes that are off, and the dirty one, are among these: then the unmarked plexes may differ.
fn may_differ(stage: &Stage, marks: u64) -> bool {
    let needed = vx_mask::with(stage.off, vx_mask::of(vx_mask::DIRTY));
    stage.phase != Phase::Settled && vx_mask::less(needed, marks) == 0
}

/// Whether the unmarked plexes hold only candidates, and whether they are equal where they have to be.
fn hold(stage: &Stage, marks: u64, plexes: &Vec<Held>, history: &History) -> Result<(), Breach> {
    let mut first: Option<&Held> = None;
    for plex in plexes {
        if !is_in(marks, plex) {
            for (place, value) in plex.blocks.iter().enumerate() {
                if !history.may_hold(place, *value) {
                    return Err(Breach::Holds);
                }
            }
            if let Some(one) = first {
                if one.blocks.as_slice() != plex.blocks.as_slice() && !may_differ(stage, marks) {
                    return Err(Breach::Differ);
                }
            }
            first = Some(plex);
        }
    }
    Ok(())
}

/// The region with these marks: some plex that is on is unmarked, each unmarked plex holds candidates, they are equal where they
/// have to be, and where the mark of a snapshot is not there each holds what it held as the snapshot was made.
pub fn allows(
    stage: &Stage,
    marks: u64,
    plexes: &Vec<Held>,
    history: &History,
    made: &Vec<Held>,
) -> Result<(), Breach> {
    let mut some = false;
    for plex in plexes {
        some = some || is_in(stage.on, plex) && !is_in(marks, plex);
    }
    if !some {
        return Err(Breach::Unreadable);
    }
    if vx_mask::less(stage.snaps, marks) != 0 && has_changed(marks, plexes, made) {
        return Err(Breach::Untracked);
    }
    hold(stage, marks, plexes, history)
}

/// Whether an unmarked plex holds something else than it did.
fn has_changed(marks: u64, plexes: &Vec<Held>, made: &Vec<Held>) -> bool {
    for plex in plexes {
        for was in made {
            if was.map == plex.map
                && !is_in(marks, plex)
                && was.blocks.as_slice() != plex.blocks.as_slice()
            {
                return true;
            }
        }
    }
    false
}

/// The region with all marks that it may be loaded with: those that are claimed, and of those that some copy shows any.
pub fn allows_all(
    stage: &Stage,
    copies: &Vec<u64>,
    plexes: &Vec<Held>,
    history: &History,
    made: &Vec<Held>,
) -> Result<(), Breach> {
    let mut open = 0;
    for marks in copies {
        if vx_mask::less(stage.bits, *marks) != 0 {
            return Err(Breach::Claims);
        }
        open = vx_mask::with(open, vx_mask::less(*marks, stage.bits));
    }
    let mut more = open;
    for _ in 0..256 {
        allows(
            stage,
            vx_mask::with(stage.bits, more),
            plexes,
            history,
            made,
        )?;
        if more == 0 {
            return Ok(());
        }
        more = vx_mask::less(open, vx_mask::less(open, more.wrapping_sub(1)));
    }
    Err(Breach::Marks)
}
