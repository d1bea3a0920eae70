//! A plex leaves the regions of a volume between calls.

ghost use Rattle.std.specs.Prelude.{◌≡◌, ◌≤◌, [], length, map as map_of, vec_len, vec_capacity};
ghost use Rattle.vx_pages.specs.Items.{EachItem};
ghost use Rattle.vx_cell.specs.Parting.{LosesPlex, pieces_of};
ghost use Rattle.vx_volume.specs.Changing.{runs_seen};
ghost use Rattle.vx_volume.specs.Parting.{LosesPlexes, runs_of, shape_without};
ghost use Rattle.vx_volume.specs.Switching.{CanSpare};
ghost use Rattle.vx_volume.specs.Volume.{IsVolume, cells_seen, log_of, no_cell, shape_of, volume_seen};

use crate::volume::{Volume, VolumeShape};
use vx_cell::Cell;
use vx_piece::Piece;

impl<P: Piece + Drop> Volume<P> {
    /// Takes a plex out of each region, where another one is current in each, and answers its pieces by the regions, in order; a plex that the
    /// volume was opened without has none. `into` is an empty list with room for one entry for each region, so that no memory is taken.
    pub fn take_plex(&mut self, map: u8, into: Vec<Vec<P>>) -> Vec<Vec<P>>
        requires whole { IsVolume (volume_seen P.seen self.old) }
        requires spare { CanSpare map (volume_seen P.seen self.old) }
        requires empty { into.items ≡ [] }
        requires room { length (volume_seen P.seen self.old).cells ≤ vec_capacity into }
        ensures loses { LosesPlexes map (volume_seen P.seen self.old) (volume_seen P.seen self.new) }
        ensures runs { runs_seen P.seen result.items ≡ runs_of map (volume_seen P.seen self.old) }
        ensures whole { IsVolume (volume_seen P.seen self.new) }
        ensures shape { shape_of self.new ≡ shape_without (shape_of self.old) map }
        ensures log { log_of self.new ≡ log_of self.old }
    {
        let runs = take_from_cells(&mut self.cells, map, into);
        self.shape = shape_without(self.shape, map);
        runs
    }
}

/// Takes the plex out of each cell, in order, and answers its pieces.
fn take_from_cells<P: Piece + Drop>(
    cells: &mut Vec<Cell<P>>,
    map: u8,
    into: Vec<Vec<P>>,
) -> Vec<Vec<P>>
    requires empty { into.items ≡ [] }
    requires room { vec_len cells.old ≤ vec_capacity into }
    ensures loses { EachItem no_cell (λ r. LosesPlex map) (cells_seen P.seen cells.old.items) (cells_seen P.seen cells.new.items) }
    ensures runs { runs_seen P.seen result.items ≡ map_of (λ c. pieces_of map c.plexes) (cells_seen P.seen cells.old.items) }
{
    let mut runs = into;
    for index in 0..cells.len() {
        let cell = &mut cells[index];
        runs.push_reserved(cell.lose_plex(map));
    }
    runs
}

/// The masks without the plex.
fn shape_without(shape: VolumeShape, map: u8) -> VolumeShape
    ensures { result ≡ shape_without shape map }
{
    let plex = vx_mask::of(map as u32);
    VolumeShape {
        on: vx_mask::less(shape.on, plex),
        off: vx_mask::less(shape.off, plex),
        ..shape
    }
}
