//! The header of a device.
ghost use Rattle.std.specs.Prelude.{◌<◌};
ghost use Rattle.vx_stage_devices.specs.Looks.{Looks};

use std::alloc::Global;
use vx_header::Header;
use vx_house::{Stop, Taken, fault, lost};
use vx_import::read_header;
use vx_piece::{Piece, PieceFault};

/// Reads the header of a device in hand; None where it has none.
pub fn look<P: Piece>(alloc: Global, taken: &mut Taken<P>) -> Result<Option<Header>, Stop>
    requires { 0 < (P.seen taken.old.piece).sectors }
    ensures { Looks P.seen taken.old result taken.new }
{
    match read_header(&mut taken.piece) {
        Ok(header) => Ok(header),
        Err(PieceFault::Failed) => fault(alloc, taken.device),
        Err(PieceFault::PowerLost) => lost(alloc),
    }
}
