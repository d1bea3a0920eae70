//! What the blocks of a region may hold, by the calls on it: a plain list of values for each block.

use crate::breach::Breach;
use crate::call::{Answer, Call, Range};
use crate::course::are_same;
use crate::region::START;
use crate::setup::Held;
use std::alloc::Global;

/// The candidates of each block of the region.
#[derive(Drop)]
pub struct History {
    blocks: Vec<Vec<u8>>,
}

impl History {
    /// Those of a region before its calls: what its unmarked plexes hold.
    pub fn new(alloc: Global, plexes: &Vec<Held>, bits: u64) -> Result<History, Breach> {
        let mut blocks = Vec::new(alloc);
        for place in 0..32_usize {
            let mut values = Vec::new(alloc);
            for plex in plexes {
                let value = plex.blocks.get(place).ok_or(Breach::NoRegion)?;
                if !vx_mask::contains(bits, plex.map as u32) {
                    add(&mut values, *value)?;
                }
            }
            blocks.push(values).ok().ok_or(Breach::NoRegion)?;
        }
        Ok(History { blocks })
    }

    /// Whether each block may hold the same, noted in the same order.
    pub fn is_same(&self, other: &History) -> bool {
        are_same(&self.blocks, &other.blocks)
    }

    /// Whether the block may hold this.
    pub fn may_hold(&self, place: usize, value: u8) -> bool {
        match self.blocks.get(place) {
            Some(values) => values.contains(&value),
            None => false,
        }
    }

    /// A call was answered: a write that was done leaves its value alone, and one that was not adds it; a read has to give
    /// candidates, and leaves them alone.
    pub fn note(&mut self, alloc: Global, call: Call, answer: &Answer) -> Result<(), Breach> {
        match call {
            Call::Write(range, _) | Call::WriteDirty(range, _) => {
                self.put(alloc, range, answer, answer.result.is_ok())
            }
            Call::Read(range) if answer.result.is_ok() => {
                let first = first_place(range);
                for (index, value) in answer.bytes.iter().step_by(512).enumerate() {
                    if !self.may_hold(first.saturating_add(index), *value) {
                        return Err(Breach::Reads);
                    }
                }
                self.put(alloc, range, answer, true)
            }
            Call::Read(_) | Call::Settle | Call::Copy(_) | Call::Clear | Call::Kill | Call::Firm =>
                Ok(()),
        }
    }

    fn put(
        &mut self,
        alloc: Global,
        range: Range,
        answer: &Answer,
        alone: bool,
    ) -> Result<(), Breach> {
        let first = first_place(range);
        for (index, value) in answer.bytes.iter().step_by(512).enumerate() {
            let place = first.saturating_add(index);
            let values = self.blocks.get_mut(place).ok_or(Breach::NoRegion)?;
            if alone {
                *values = Vec::new(alloc);
            }
            add(values, *value)?;
        }
        Ok(())
    }
}

/// The place in the region of a range's first block.
fn first_place(range: Range) -> usize {
    range.at.saturating_sub(START) as usize
}

fn add(values: &mut Vec<u8>, value: u8) -> Result<(), Breach> {
    if !values.contains(&value) {
        values.push(value).ok().ok_or(Breach::NoRegion)?;
    }
    Ok(())
}
