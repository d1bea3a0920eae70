//! What is left of a region once its cell is gone: the device calls in order, and what the devices hold.

ghost use Rattle.std.specs.Prelude.{◌≤◌, vec_len};

use crate::call::Life;
use crate::fault::Step;
use crate::piece::RowPiece;
use crate::setup::{Held, held_by};
use std::alloc::Global;
use vx_cell::Plex;
use vx_core::Stage;
use vx_piece::Piece;

/// What a device call was on: a plex, or a map's page on a copy of the log; the first sector of a copy is of no map.
#[derive(Clone, Copy)]
pub enum On {
    Plex(u8),
    Log { copy: u8, map: Option<u64> },
}

/// A device call, and what it was on.
#[derive(Clone, Copy)]
pub struct Called {
    pub on: On,
    pub step: Step,
}

/// What is left: the stage, the calls since the clock was set, what the plexes hold, and the bytes of the copies.
#[derive(Drop)]
pub struct Left {
    pub stage: Stage,
    pub calls: Vec<Called>,
    pub plexes: Vec<Held>,
    pub copies: Vec<Vec<u8>>,
}

/// The calls before the clock was set have numbers from here on.
const SET: u64 = 1 << 32;

fn map_at(sector: u64) -> Option<u64> {
    if sector >= 48 && sector % 16 == 1 {
        Some(sector / 16 - 3)
    } else {
        None
    }
}

/// How many calls have lower numbers.
fn count_before(calls: &Vec<Called>, number: u64) -> usize
    ensures { result ≤ vec_len calls.now }
{
    let mut before: usize = 0;
    for call in calls {
        if call.step.number < number {
            before = before.saturating_add(1);
        }
    }
    before.min(calls.len())
}

/// Puts the calls of a plex, or of a copy, with the others, in the order of their numbers.
fn gather(calls: &mut Vec<Called>, plex: Option<u8>, copy: u8, steps: &[Step]) -> Option<()> {
    for step in steps {
        if step.number < SET {
            let on = match plex {
                Some(map) => On::Plex(map),
                None => On::Log {
                    copy,
                    map: map_at(step.sector),
                },
            };
            let place = count_before(calls, step.number);
            calls.insert(place, Called { on, step: *step }).ok()?;
        }
    }
    Some(())
}

/// Takes the region apart.
pub fn end(alloc: Global, life: Life<RowPiece>) -> Option<Left> {
    let Life {
        stage,
        number: _,
        plexes,
        store,
    } = life;
    let Ok(copies) = store.into_copies(alloc) else {
        return None;
    };
    left_on(alloc, stage, &plexes, &copies)
}

/// What is left on the plexes and the copies of a region.
pub fn left_on(
    alloc: Global,
    stage: Stage,
    plexes: &Vec<Plex<RowPiece>>,
    copies: &Vec<Vec<RowPiece>>,
) -> Option<Left> {
    let mut left = Left {
        stage,
        calls: Vec::new(alloc),
        plexes: Vec::new(alloc),
        copies: Vec::new(alloc),
    };
    for plex in plexes {
        let piece = plex.pieces.first()?;
        gather(&mut left.calls, Some(plex.map), 0, piece.steps())?;
        left.plexes
            .push(held_by(alloc, plex.map, piece.bytes())?)
            .ok()?;
    }
    gather_copies(alloc, &mut left, copies)?;
    Some(left)
}

fn gather_copies(alloc: Global, left: &mut Left, copies: &Vec<Vec<RowPiece>>) -> Option<()> {
    let mut number: u8 = 0;
    for copy in copies {
        let mut bytes = Vec::new(alloc);
        for piece in copy {
            gather(&mut left.calls, None, number, piece.steps())?;
            bytes.extend_from_slice(piece.bytes()).ok()?;
        }
        left.copies.push(bytes).ok()?;
        number = number.saturating_add(1);
    }
    Some(())
}
