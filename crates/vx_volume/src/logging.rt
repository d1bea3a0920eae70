//! What is done to a volume of one plex between calls: it is given another log.

ghost use Rattle.std.specs.Prelude.{◌≡◌, ℕ};
ghost use Rattle.vx_mask.specs.Mask.{only};
ghost use Rattle.vx_pages.specs.Items.{EachItem};
ghost use Rattle.vx_cell.specs.Changes.{IsRenewed, cell_seen};
ghost use Rattle.vx_volume.specs.Log.{log_seen};
ghost use Rattle.vx_volume.specs.Logging.{ChangesLog, IsAlone, IsNewLogFor};
ghost use Rattle.vx_volume.specs.Volume.{IsVolume, cells_seen, log_of, no_cell, shape_of, volume_seen};

use crate::log::VolumeLog;
use crate::volume::{Volume, VolumeShape};
use std::mem;
use vx_cell::Cell;
use vx_piece::Piece;

impl<P: Piece> Volume<P> {
    /// Gives the volume another log, of which nothing is marked; its one plex becomes number 0 of each region. Answers the log that it had.
    /// Takes no memory.
    pub fn change_log(&mut self, log: VolumeLog<P>) -> VolumeLog<P>
        requires whole { IsVolume (volume_seen P.seen self.old) }
        requires alone { (map : ℕ) × IsAlone map (volume_seen P.seen self.old) }
        requires log { IsNewLogFor (log_seen P.seen log) (volume_seen P.seen self.old) }
        ensures changes { ChangesLog (log_seen P.seen log) (volume_seen P.seen self.old) (volume_seen P.seen self.new) }
        ensures whole { IsVolume (volume_seen P.seen self.new) }
        ensures shape { shape_of self.new ≡ record (shape_of self.old) { on = only 0; off = 0; snaps = 0 } }
        ensures log { log_of self.new ≡ log }
        ensures was { result ≡ log_of self.old }
    {
        renew_cells(&mut self.cells, log.is_there());
        self.shape = VolumeShape {
            on: vx_mask::of(0),
            off: 0,
            snaps: 0,
            ..self.shape
        };
        mem::replace(&mut self.log, log)
    }
}

/// Makes each cell one of its one plex, with a log or without one.
fn renew_cells<P: Piece>(cells: &mut Vec<Cell<P>>, logged: bool)
    ensures { EachItem no_cell (λ r. IsRenewed logged) (cells_seen P.seen cells.old.items) (cells_seen P.seen cells.new.items) }
{
    for index in 0..cells.len() {
        let cell = &mut cells[index];
        cell.renew(logged);
    }
}
