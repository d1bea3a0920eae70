ghost use Rattle.std.specs.Prelude.{IsTrue};
ghost use Rattle.vx_layout.specs.Valid.{is_layout};

use crate::columns::Columns;
use crate::place::Place;
use crate::run::{Run, Runs};
use crate::search::{continues, sector_at};
use std::alloc::Global;
use vx_base::OutOfMemory;
use vx_block::Span;

/// How the blocks of a plex lie on disks.
#[derive(Drop)]
pub struct Layout {
    /// The sectors of a stripe unit. It has no meaning for one column.
    pub unit: u64,
    /// The columns, of one length. Where there are several, the units go round them in rows.
    pub columns: Columns,
    ghost valid: { IsTrue (is_layout unit columns) },
}

impl Layout {
    ghost use Rattle.std.specs.Prelude.{◌≡◌, ◌<◌, ◌≤◌, ◌+◌, ◌^◌, ℕ, Some, IfOk, IfSome, IfNone};
    ghost use Rattle.vx_layout.specs.Columns.{capacity, column_of, sector_of, place_of, block_number};
    ghost use Rattle.vx_layout.specs.Runs.{IsRun, AreRuns, IsInUnit};

    /// Where a block lies.
    pub fn place(&self, block: u64) -> Place
        requires { block < capacity self.now.columns }
        ensures { place_of self.now.unit self.now.columns block ≡ Some result }
    {
        let run = self.run_at(block, 1);
        Place {
            disk: run.disk,
            sector: run.sector,
        }
    }

    /// The block that lies at a place, if any. Looks at the strips one by one, so its time grows with their number.
    pub fn block_at(&self, place: Place) -> Option<u64>
        ensures there { IfSome result (λ block. (block < capacity self.now.columns) × (place_of self.now.unit self.now.columns block ≡ Some place)) }
        ensures only { (block : ℕ) → block < 2 ^ 64 → block < capacity self.now.columns → place_of self.now.unit self.now.columns block ≡ Some place →
            result ≡ Some block }
    {
        for column in 0..self.columns.len() {
            if let Some(sector) = sector_at(self.columns.strips(column), &place) {
                return self.block_of(column as u64, sector);
            }
        }
        None
    }

    /// The maximal contiguous runs of a range of blocks, in block order. The strip of each part is found by halving, so the time
    /// grows with the units and strips that the range has, and not with those of the layout.
    pub fn runs_of(&self, alloc: Global, span: Span) -> Result<Runs, OutOfMemory>
        requires inside { span.start + span.count ≤ capacity self.now.columns }
        requires fits { span.start + span.count < 2 ^ 64 }
        ensures { IfOk result (λ runs. AreRuns self.now.unit self.now.columns span.start (span.start + span.count) runs) }
    {
        let mut runs = Vec::new(alloc);
        if span.count == 0 {
            return Ok(Runs::from_vec(runs));
        }
        let end = span.start + span.count;
        let mut open = self.run_at(span.start, span.count);
        while open.block + open.count < end {
            let at = open.block + open.count;
            let next = self.run_at(at, end - at);
            if continues(&open, &next) {
                open.count += next.count;
            } else {
                runs.push(open)?;
                open = next;
            }
        }
        runs.push(open)?;
        Ok(Runs::from_vec(runs))
    }

    /// Blocks from a block on that lie one behind the other, of one strip and one unit, at most so many.
    fn run_at(&self, block: u64, most: u64) -> Run
        requires block { block < capacity self.now.columns }
        requires most { 0 < most }
        ensures run { IsRun self.now.unit self.now.columns result }
        ensures block { result.block ≡ block }
        ensures most { result.count ≤ most }
    {
        let column = self.column_of(block);
        let sector = self.sector_of(block);
        let rest = self.columns.at(column as usize).rest_in(sector).unwrap();
        Run {
            disk: rest.disk,
            sector: rest.start,
            count: self.most_in_unit(block, most).min(rest.count),
            block,
        }
    }

    /// The block at a sector of a column, where its number fits.
    fn block_of(&self, column: u64, sector: u64) -> Option<u64>
        ensures fits { IfSome result (λ block. block ≡ block_number self.now.unit self.now.columns column sector) }
        ensures large { IfNone result (2 ^ 64 ≤ block_number self.now.unit self.now.columns column sector) }
    {
        if self.columns.len() == 1 {
            return Some(sector);
        }
        let row = (sector / self.unit).checked_mul(self.columns.len() as u64)?;
        row.checked_add(column)?
            .checked_mul(self.unit)?
            .checked_add(sector % self.unit)
    }

    fn column_of(&self, block: u64) -> u64
        ensures { result ≡ column_of self.now.unit self.now.columns block }
    {
        if self.columns.len() == 1 {
            0
        } else {
            block / self.unit % self.columns.len() as u64
        }
    }

    fn sector_of(&self, block: u64) -> u64
        ensures { result ≡ sector_of self.now.unit self.now.columns block }
    {
        if self.columns.len() == 1 {
            block
        } else {
            block / self.unit / self.columns.len() as u64 * self.unit + block % self.unit
        }
    }

    fn most_in_unit(&self, block: u64, most: u64) -> u64
        requires { 0 < most }
        ensures { IsInUnit self.now.unit self.now.columns block most result }
    {
        if self.columns.len() == 1 {
            most
        } else {
            most.min(self.unit - block % self.unit)
        }
    }
}
