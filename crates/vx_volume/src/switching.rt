//! What is done to a volume between calls: what failed writes to its log left open is written again, and a plex goes on or off.

ghost use Rattle.std.specs.Prelude.{◌≡◌, true, false, not, MatchBool};
ghost use Rattle.std.specs.List.{list_any};
ghost use Rattle.vx_pages.specs.Items.{EachItem};
ghost use Rattle.vx_cell.specs.Changes.{cell_seen, has_other};
ghost use Rattle.vx_volume.specs.Log.{LogGoes};
ghost use Rattle.vx_volume.specs.Switching.{AreSpared, CanSpare, Firms, HasPlex, IsSwitched, Needs, Switches, shape_with};
ghost use Rattle.vx_volume.specs.Volume.{IsVolume, cells_seen, log_of, no_cell, shape_of, volume_seen};

use crate::volume::{Volume, VolumeShape};
use vx_cell::Cell;
use vx_marks::MarkFault;
use vx_piece::Piece;

impl<P: Piece> Volume<P> {
    /// Writes again what failed writes to the log have left open, page by page. The first page that fails ends it.
    pub fn firm(&mut self) -> Result<(), MarkFault>
        requires whole { IsVolume (volume_seen P.seen self.old) }
        ensures firms { Firms result (volume_seen P.seen self.old) (volume_seen P.seen self.new) }
        ensures whole { IsVolume (volume_seen P.seen self.new) }
        ensures shape { shape_of self.new ≡ shape_of self.old }
        ensures follows { LogGoes P.seen (log_of self.old) (log_of self.new) }
    {
        self.log.firm()
    }

    /// Whether in some region no other plex is on and unmarked.
    pub fn needs_plex(&self, map: u8) -> bool
        ensures { MatchBool result (Needs map (volume_seen P.seen self.now)) (CanSpare map (volume_seen P.seen self.now)) }
    {
        needs_among(self.cells.as_slice(), map)
    }

    /// Sets a plex on in each region, or off where it can be spared in each.
    pub fn set_plex(&mut self, map: u8, on: bool)
        requires whole { IsVolume (volume_seen P.seen self.old) }
        requires plex { HasPlex map (volume_seen P.seen self.old) }
        requires spare { on ≡ false → CanSpare map (volume_seen P.seen self.old) }
        ensures switches { Switches map on (volume_seen P.seen self.old) (volume_seen P.seen self.new) }
        ensures whole { IsVolume (volume_seen P.seen self.new) }
        ensures shape { shape_of self.new ≡ shape_with (shape_of self.old) map on }
        ensures log { log_of self.new ≡ log_of self.old }
    {
        switch_cells(&mut self.cells, map, on);
        self.shape = shape_with(self.shape, map, on);
    }
}

/// Whether one of these regions needs the plex.
fn needs_among<P: Piece>(cells: &[Cell<P>], map: u8) -> bool
    ensures { result ≡ list_any (λ cell. not (has_other (cell_seen P.seen cell).stage map)) cells.now }
{
    cells.iter().any(|cell| !cell.has_other(map))
}

/// Sets a plex on or off in each cell.
fn switch_cells<P: Piece>(cells: &mut Vec<Cell<P>>, map: u8, on: bool)
    requires { on ≡ false → AreSpared map (cells_seen P.seen cells.old.items) }
    ensures { EachItem no_cell (λ r. IsSwitched map on) (cells_seen P.seen cells.old.items) (cells_seen P.seen cells.new.items) }
{
    for index in 0..cells.len() {
        let cell = &mut cells[index];
        switch_cell(cell, map, on);
    }
}

fn switch_cell<P: Piece>(cell: &mut Cell<P>, map: u8, on: bool)
    requires { on ≡ false → has_other (cell_seen P.seen cell.old).stage map ≡ true }
    ensures { IsSwitched map on (cell_seen P.seen cell.old) (cell_seen P.seen cell.new) }
{
    let _ = cell.set_on(map, on);
}

/// The masks with the plex on or off.
fn shape_with(shape: VolumeShape, map: u8, on: bool) -> VolumeShape
    ensures { result ≡ shape_with shape map on }
{
    let plex = vx_mask::of(map as u32);
    if on {
        VolumeShape {
            on: vx_mask::with(shape.on, plex),
            off: vx_mask::less(shape.off, plex),
            ..shape
        }
    } else {
        VolumeShape {
            on: vx_mask::less(shape.on, plex),
            off: vx_mask::with(shape.off, plex),
            ..shape
        }
    }
}
