//! Passes over all regions of a volume, in rising order.

ghost use Rattle.std.specs.Prelude.{◌≡◌, ◌<◌, ◌≤◌, ◌-◌, ◌*◌, min, vec_len};
ghost use Rattle.vx_block.specs.Regions.{region_count};
ghost use Rattle.vx_cell.specs.Calls.{region_of};
ghost use Rattle.vx_cell.specs.Changes.{cell_seen};
ghost use Rattle.vx_volume.specs.Calls.{ChangesRegion, IsReady};
ghost use Rattle.vx_volume.specs.Loop.{AreMade, IsPlainEnd, stop_of};
ghost use Rattle.vx_volume.specs.Log.{LogGoes, log_seen};
ghost use Rattle.vx_volume.specs.Passes.{Clears, CopyEnds, IsClearedAt, IsCopiedAt, IsSettledAt, PassEnds, Settles};
ghost use Rattle.vx_volume.specs.Volume.{IsVolume, log_of, shape_of, volume_seen};

use crate::calls::{io_fault, io_result};
use crate::fault::IoFault;
use crate::log::VolumeLog;
use crate::volume::Volume;
use vx_base::BLOCK;
use vx_cell::{Cell, CellFault};
use vx_piece::Piece;

impl<P: Piece> Volume<P> {
    /// Makes the current plexes of each region equal. It ends at the first region that cannot be settled.
    pub fn settle_all(&mut self) -> Result<(), IoFault>
        requires whole { IsVolume (volume_seen P.seen self.old) }
        ensures ends { PassEnds Settles (volume_seen P.seen self.old) (volume_seen P.seen self.new) result }
        ensures whole { IsVolume (volume_seen P.seen self.new) }
        ensures shape { shape_of self.new ≡ shape_of self.old }
        ensures follows { LogGoes P.seen (log_of self.old) (log_of self.new) }
    {
        io_result(self.settle_each())
    }

    /// Takes the dirty mark of each region away. It ends at the first region of which that fails.
    pub fn clear_all(&mut self) -> Result<(), IoFault>
        requires whole { IsVolume (volume_seen P.seen self.old) }
        ensures ends { PassEnds Clears (volume_seen P.seen self.old) (volume_seen P.seen self.new) result }
        ensures whole { IsVolume (volume_seen P.seen self.new) }
        ensures shape { shape_of self.new ≡ shape_of self.old }
        ensures follows { LogGoes P.seen (log_of self.old) (log_of self.new) }
    {
        io_result(self.clear_each())
    }

    /// Copies each region that a plex misses to it, where the plex is on, and answers how many were copied. It ends at the
    /// first region of which that fails.
    pub fn copy_plex(&mut self, map: u8) -> Result<u64, IoFault>
        requires whole { IsVolume (volume_seen P.seen self.old) }
        ensures ends { CopyEnds map (volume_seen P.seen self.old) (volume_seen P.seen self.new) result }
        ensures whole { IsVolume (volume_seen P.seen self.new) }
        ensures shape { shape_of self.new ≡ shape_of self.old }
        ensures follows { LogGoes P.seen (log_of self.old) (log_of self.new) }
    {
        let mut copied = 0;
        for region in 0..self.cells.len() {
            match self.copy_one(region, map) {
                Ok(done) => copied += u64::from(done),
                Err(fault) => return Err(io_fault(fault)),
            }
        }
        Ok(copied)
    }

    fn settle_each(&mut self) -> Result<(), CellFault>
        requires whole { IsVolume (volume_seen P.seen self.old) }
        ensures made { AreMade Settles (vec_len self.old.cells) (stop_of result) (volume_seen P.seen self.old) (volume_seen P.seen self.new) }
        ensures whole { IsVolume (volume_seen P.seen self.new) }
        ensures shape { shape_of self.new ≡ shape_of self.old }
        ensures end { IsPlainEnd result }
        ensures follows { LogGoes P.seen (log_of self.old) (log_of self.new) }
    {
        for region in 0..self.cells.len() {
            self.settle_one(region)?;
        }
        Ok(())
    }

    fn settle_one(&mut self, region: usize) -> Result<(), CellFault>
        requires whole { IsVolume (volume_seen P.seen self.old) }
        requires inside { region < vec_len self.old.cells }
        ensures settles { Settles region (stop_of result) (volume_seen P.seen self.old) (volume_seen P.seen self.new) }
        ensures whole { IsVolume (volume_seen P.seen self.new) }
        ensures shape { shape_of self.new ≡ shape_of self.old }
        ensures count { vec_len self.new.cells ≡ vec_len self.old.cells }
        ensures end { IsPlainEnd result }
        ensures follows { LogGoes P.seen (log_of self.old) (log_of self.new) }
    {
        let bytes = self.region_bytes(region);
        let cell = &mut self.cells[region];
        settle_cell(cell, &mut self.scratch, bytes, &mut self.log)
    }

    fn clear_each(&mut self) -> Result<(), CellFault>
        requires whole { IsVolume (volume_seen P.seen self.old) }
        ensures made { AreMade Clears (vec_len self.old.cells) (stop_of result) (volume_seen P.seen self.old) (volume_seen P.seen self.new) }
        ensures whole { IsVolume (volume_seen P.seen self.new) }
        ensures shape { shape_of self.new ≡ shape_of self.old }
        ensures end { IsPlainEnd result }
        ensures follows { LogGoes P.seen (log_of self.old) (log_of self.new) }
    {
        for region in 0..self.cells.len() {
            self.clear_one(region)?;
        }
        Ok(())
    }

    fn clear_one(&mut self, region: usize) -> Result<(), CellFault>
        requires whole { IsVolume (volume_seen P.seen self.old) }
        requires inside { region < vec_len self.old.cells }
        ensures clears { Clears region (stop_of result) (volume_seen P.seen self.old) (volume_seen P.seen self.new) }
        ensures whole { IsVolume (volume_seen P.seen self.new) }
        ensures shape { shape_of self.new ≡ shape_of self.old }
        ensures count { vec_len self.new.cells ≡ vec_len self.old.cells }
        ensures end { IsPlainEnd result }
        ensures follows { LogGoes P.seen (log_of self.old) (log_of self.new) }
    {
        let bytes = self.region_bytes(region);
        let cell = &mut self.cells[region];
        clear_cell(cell, &mut self.scratch, bytes, &mut self.log)
    }

    /// Whether there was something to copy.
    fn copy_one(&mut self, region: usize, map: u8) -> Result<bool, CellFault>
        requires whole { IsVolume (volume_seen P.seen self.old) }
        requires inside { region < vec_len self.old.cells }
        ensures copies { ChangesRegion region (IsCopiedAt map result) (volume_seen P.seen self.old) (volume_seen P.seen self.new) }
        ensures whole { IsVolume (volume_seen P.seen self.new) }
        ensures shape { shape_of self.new ≡ shape_of self.old }
        ensures count { vec_len self.new.cells ≡ vec_len self.old.cells }
        ensures end { IsPlainEnd result }
        ensures follows { LogGoes P.seen (log_of self.old) (log_of self.new) }
    {
        let bytes = self.region_bytes(region);
        let cell = &mut self.cells[region];
        copy_cell(cell, map, &mut self.scratch, bytes, &mut self.log)
    }

    /// The bytes of a region.
    pub(crate) fn region_bytes(&self, region: usize) -> usize
        requires { region < region_count self.now.shape.geometry.length self.now.shape.geometry.region }
        ensures { result ≡ 512 * min self.now.shape.geometry.region (self.now.shape.geometry.length - region * self.now.shape.geometry.region) }
    {
        BLOCK * self.shape.geometry.range_of(region as u64).count as usize
    }
}

/// Makes the current plexes of a region equal. The buffer has room for its bytes.
fn settle_cell<P: Piece>(
    cell: &mut Cell<P>,
    scratch: &mut Vec<u8>,
    bytes: usize,
    log: &mut VolumeLog<P>,
) -> Result<(), CellFault>
    requires ready { IsReady (region_of P.seen cell.old (log_seen P.seen log.old)) }
    requires bytes { bytes ≡ 512 * (cell_seen P.seen cell.old).size }
    requires room { bytes ≤ vec_len scratch.old }
    ensures settled { IsSettledAt (stop_of result) (region_of P.seen cell.old (log_seen P.seen log.old)) (region_of P.seen cell.new (log_seen P.seen log.new)) }
    ensures end { IsPlainEnd result }
    ensures scratch { vec_len scratch.new ≡ vec_len scratch.old }
    ensures follows { LogGoes P.seen log.old log.new }
{
    cell.settle(&mut scratch[..bytes], log)
}

/// Takes the dirty mark of a region away. The buffer has room for its bytes.
fn clear_cell<P: Piece>(
    cell: &mut Cell<P>,
    scratch: &mut Vec<u8>,
    bytes: usize,
    log: &mut VolumeLog<P>,
) -> Result<(), CellFault>
    requires ready { IsReady (region_of P.seen cell.old (log_seen P.seen log.old)) }
    requires bytes { bytes ≡ 512 * (cell_seen P.seen cell.old).size }
    requires room { bytes ≤ vec_len scratch.old }
    ensures cleared { IsClearedAt (stop_of result) (region_of P.seen cell.old (log_seen P.seen log.old)) (region_of P.seen cell.new (log_seen P.seen log.new)) }
    ensures end { IsPlainEnd result }
    ensures scratch { vec_len scratch.new ≡ vec_len scratch.old }
    ensures follows { LogGoes P.seen log.old log.new }
{
    cell.clear_dirty(&mut scratch[..bytes], log)
}

/// Copies a region to a plex that is marked. The buffer has room for its bytes.
fn copy_cell<P: Piece>(
    cell: &mut Cell<P>,
    map: u8,
    scratch: &mut Vec<u8>,
    bytes: usize,
    log: &mut VolumeLog<P>,
) -> Result<bool, CellFault>
    requires ready { IsReady (region_of P.seen cell.old (log_seen P.seen log.old)) }
    requires bytes { bytes ≡ 512 * (cell_seen P.seen cell.old).size }
    requires room { bytes ≤ vec_len scratch.old }
    ensures copied { IsCopiedAt map result (region_of P.seen cell.old (log_seen P.seen log.old)) (region_of P.seen cell.new (log_seen P.seen log.new)) }
    ensures end { IsPlainEnd result }
    ensures scratch { vec_len scratch.new ≡ vec_len scratch.old }
    ensures follows { LogGoes P.seen log.old log.new }
{
    cell.copy_to(map, &mut scratch[..bytes], log)
}
