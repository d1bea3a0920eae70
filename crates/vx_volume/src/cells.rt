ghost use Rattle.std.specs.Prelude.{◌≡◌};
ghost use Rattle.vx_volume.specs.Volume.{cells_seen, volume_seen};

use crate::volume::Volume;
use vx_cell::Cell;
use vx_piece::Piece;

impl<P: Piece> Volume<P> {
    /// Its regions, in order.
    pub fn cells(&self) -> &[Cell<P>]
        ensures { cells_seen P.seen result.now ≡ (volume_seen P.seen self.now).cells }
    {
        &self.cells
    }
}
