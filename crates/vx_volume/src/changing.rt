//! What is done to a volume between calls: a map of its log is set, and a plex is put into its regions.

ghost use Rattle.std.specs.Prelude.{◌≡◌, ◌<◌, ℕ, [], true, false, map as map_of, MatchBool, OnOk, vec_len};
ghost use Rattle.std.specs.List.{All};
ghost use Rattle.vx_mask.specs.Mask.{only, union};
ghost use Rattle.vx_pages.specs.Items.{EachItem, item_at};
ghost use Rattle.vx_cell.specs.Changes.{HasRoom, cell_seen};
ghost use Rattle.vx_volume.specs.Bytes.{map_bit};
ghost use Rattle.vx_volume.specs.Changing.{HasGot, HasUnknownMark, HaveRoom, IsFreeIn, IsKnownMap, IsPlexFor, IsRemarked, PutsPlex, SetsMap, is_lost, runs_seen, with_mark};
ghost use Rattle.vx_volume.specs.Log.{LogGoes, log_seen};
ghost use Rattle.vx_volume.specs.Volume.{IsVolume, cells_seen, log_of, no_cell, shape_of, volume_seen};

use crate::log::VolumeLog;
use crate::volume::Volume;
use std::alloc::Global;
use vx_base::OutOfMemory;
use vx_cell::Cell;
use vx_marks::{MarkFault, Marker};
use vx_piece::Piece;

impl<P: Piece> Volume<P> {
    /// Whether each region's mark of a free map is what the log claims.
    pub fn knows_map(&self, map: u8) -> bool
        requires whole { IsVolume (volume_seen P.seen self.now) }
        requires free { IsFreeIn map (volume_seen P.seen self.now) }
        ensures { MatchBool result (IsKnownMap map (volume_seen P.seen self.now)) (HasUnknownMark map (volume_seen P.seen self.now)) }
    {
        for index in 0..self.cells.len() {
            let claimed = vx_mask::contains(self.log.marked(index as u64), map as u32);
            let there = vx_mask::contains(self.cells[index].stage().bits, map as u32);
            if there != claimed {
                return false;
            }
        }
        true
    }

    /// Makes room in each region for one plex more.
    pub fn reserve_plex(&mut self, alloc: Global) -> Result<(), OutOfMemory>
        ensures same { volume_seen P.seen self.new ≡ volume_seen P.seen self.old }
        ensures shape { shape_of self.new ≡ shape_of self.old }
        ensures log { log_of self.new ≡ log_of self.old }
        ensures room { OnOk result (HaveRoom self.new) }
    {
        reserve_cells(alloc, &mut self.cells)
    }

    /// Makes the marks of a free map these, a bit for each region, page by page; a region behind the last byte gets none. The
    /// first page that fails ends the call. Each region's mark becomes what the log claims then. Where the power is lost, the
    /// regions are killed.
    pub fn set_map(&mut self, map: u8, bits: &[u8]) -> Result<(), MarkFault>
        requires whole { IsVolume (volume_seen P.seen self.old) }
        requires free { IsFreeIn map (volume_seen P.seen self.old) }
        ensures sets { SetsMap map (map_bit bits.now) result (volume_seen P.seen self.old) (volume_seen P.seen self.new) }
        ensures whole { IsVolume (volume_seen P.seen self.new) }
        ensures shape { shape_of self.new ≡ shape_of self.old }
        ensures room { OnOk result (HaveRoom self.old → HaveRoom self.new) }
        ensures follows { LogGoes P.seen (log_of self.old) (log_of self.new) }
    {
        let outcome = self.log.set_map(map as u32, bits);
        let lost = is_lost(&outcome);
        remark_cells(&mut self.cells, &self.log, map as u32, lost);
        outcome
    }
}

impl<P: Piece + Drop> Volume<P> {
    /// Puts a plex into each region, in order: `plexes` are its pieces. It is on. Takes no memory.
    pub fn put_plex(&mut self, map: u8, plexes: Vec<Vec<P>>)
        requires whole { IsVolume (volume_seen P.seen self.old) }
        requires free { IsFreeIn map (volume_seen P.seen self.old) }
        requires plex { IsPlexFor map (runs_seen P.seen plexes.items) (volume_seen P.seen self.old) }
        requires room { HaveRoom self.old }
        ensures puts { PutsPlex map (runs_seen P.seen plexes.items) (volume_seen P.seen self.old) (volume_seen P.seen self.new) }
        ensures whole { IsVolume (volume_seen P.seen self.new) }
        ensures shape { shape_of self.new ≡ record (shape_of self.old) { on = union (shape_of self.old).on (only map) } }
        ensures log { log_of self.new ≡ log_of self.old }
    {
        put_in_cells(&mut self.cells, map, plexes);
        self.shape.on = vx_mask::with(self.shape.on, vx_mask::of(map as u32));
    }
}

/// Makes room in each cell for one plex more.
fn reserve_cells<P: Piece>(alloc: Global, cells: &mut Vec<Cell<P>>) -> Result<(), OutOfMemory>
    ensures same { cells_seen P.seen cells.new.items ≡ cells_seen P.seen cells.old.items }
    ensures room { OnOk result (All HasRoom cells.new.items) }
{
    for index in 0..cells.len() {
        let cell = &mut cells[index];
        cell.reserve_plex(alloc)?;
    }
    Ok(())
}

fn is_lost(outcome: &Result<(), MarkFault>) -> bool
    ensures { result ≡ is_lost outcome.now }
{
    matches!(outcome, Err(MarkFault::PowerLost))
}

/// Gives each cell the mark of the map that the log claims of its region.
fn remark_cells<P: Piece>(cells: &mut Vec<Cell<P>>, log: &VolumeLog<P>, map: u32, lost: bool)
    requires { (r : ℕ) → r < vec_len cells.old → (log_seen P.seen log.now).has_region r ≡ true }
    ensures marks { EachItem no_cell (λ r. IsRemarked map lost ((log_seen P.seen log.now).claims r map)) (cells_seen P.seen cells.old.items) (cells_seen P.seen cells.new.items) }
    ensures room { lost ≡ false → All HasRoom cells.old.items → All HasRoom cells.new.items }
{
    for index in 0..cells.len() {
        let on = vx_mask::contains(log.marked(index as u64), map);
        let cell = &mut cells[index];
        remark_cell(cell, map, on, lost);
    }
}

/// Gives a cell this mark of a map, and kills it where the power was lost.
fn remark_cell<P: Piece>(cell: &mut Cell<P>, map: u32, on: bool, lost: bool)
    ensures marks { IsRemarked map lost on (cell_seen P.seen cell.old) (cell_seen P.seen cell.new) }
    ensures room { lost ≡ false → HasRoom cell.old → HasRoom cell.new }
{
    cell.set_marks(with_mark(cell.stage().bits, map, on));
    if lost {
        cell.kill();
    }
}

fn with_mark(bits: u64, map: u32, on: bool) -> u64
    ensures { result ≡ with_mark map on bits }
{
    if on {
        vx_mask::with(bits, vx_mask::of(map))
    } else {
        vx_mask::less(bits, vx_mask::of(map))
    }
}

/// Puts a plex into each cell, the last first.
fn put_in_cells<P: Piece + Drop>(cells: &mut Vec<Cell<P>>, map: u8, plexes: Vec<Vec<P>>)
    requires count { vec_len plexes ≡ vec_len cells.old }
    requires room { All HasRoom cells.old.items }
    ensures { EachItem no_cell (λ r. HasGot map (item_at [] (runs_seen P.seen plexes.items) r)) (cells_seen P.seen cells.old.items) (cells_seen P.seen cells.new.items) }
{
    let mut left = plexes;
    let mut index = cells.len();
    'putting: while let Some(pieces) = left.pop() {
        index -= 1;
        let cell = &mut cells[index];
        put_in_cell(cell, map, pieces);
    }
}

/// Puts a plex into a cell, and sets it on.
fn put_in_cell<P: Piece + Drop>(cell: &mut Cell<P>, map: u8, pieces: Vec<P>)
    requires { HasRoom cell.old }
    ensures { HasGot map (map_of P.seen pieces.items) (cell_seen P.seen cell.old) (cell_seen P.seen cell.new) }
{
    match cell.put_plex(map, pieces) {
        Ok(()) => {
            let _ = cell.set_on(map, true);
        }
        Err(_) => {}
    }
}
