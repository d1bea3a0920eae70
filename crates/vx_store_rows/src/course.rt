//! The calls on a region in a trial, one after the other.

use crate::breach::Breach;
use crate::call::{Call, Life, perform};
use crate::causes::Part;
use crate::clock::Clock;
use crate::history::History;
use crate::piece::RowPiece;
use crate::setup::Held;
use crate::trace::{Left, end};
use std::alloc::Global;

/// A region in a trial: its calls so far, and what its blocks may hold by them.
#[derive(Drop)]
pub struct Going {
    pub life: Life<RowPiece>,
    pub parts: Vec<Part>,
    pub history: History,
}

/// What is left of a region, and what it may hold.
#[derive(Drop)]
pub struct Ended {
    pub left: Left,
    pub parts: Vec<Part>,
    pub history: History,
}

impl Ended {
    /// Whether a start finds the same here and there: the stage, what the devices hold, and what the blocks may hold.
    pub fn leaves_same(&self, other: &Ended) -> bool {
        self.left.stage == other.left.stage
            && are_same(&self.left.copies, &other.left.copies)
            && hold_same(&self.left.plexes, &other.left.plexes)
            && self.history.is_same(&other.history)
    }
}

/// Whether these lists of bytes are the same.
pub fn are_same(one: &Vec<Vec<u8>>, other: &Vec<Vec<u8>>) -> bool {
    for (first, second) in one.iter().zip(other.iter()) {
        if first.as_slice() != second.as_slice() {
            return false;
        }
    }
    one.len() == other.len()
}

fn hold_same(one: &Vec<Held>, other: &Vec<Held>) -> bool {
    for (first, second) in one.iter().zip(other.iter()) {
        if first.map != second.map || first.blocks.as_slice() != second.blocks.as_slice() {
            return false;
        }
    }
    one.len() == other.len()
}

/// Makes a call.
pub fn go(alloc: Global, clock: &Clock, going: Going, call: Call) -> Result<Going, Breach> {
    let Going {
        life,
        mut parts,
        mut history,
    } = going;
    let stage = life.stage;
    let first = clock.calls();
    let (life, answer) = perform(alloc, life, call).ok_or(Breach::NoRegion)?;
    history.note(alloc, call, &answer)?;
    let part = Part {
        call,
        stage,
        first,
        behind: clock.calls(),
        result: answer.result,
    };
    parts.push(part).ok().ok_or(Breach::NoRegion)?;
    Ok(Going {
        life,
        parts,
        history,
    })
}

/// The calls are over.
pub fn stop(alloc: Global, going: Going) -> Result<Ended, Breach> {
    let Going {
        life,
        parts,
        history,
    } = going;
    let left = end(alloc, life).ok_or(Breach::NoRegion)?;
    Ok(Ended {
        left,
        parts,
        history,
    })
}
