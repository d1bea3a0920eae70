ghost use Rattle.std.specs.Prelude.{◌≡◌, length, IsTrue, OnOk, IfSome, if◌then◌else◌};
ghost use Rattle.vx_base.specs.Blocks.{AreBlocks};
ghost use Rattle.vx_piece.specs.Seen.{HasCause, IsInside, IsOff, IsRead, IsWritten, Keeps};

use vx_piece::{Piece, PieceFault};

/// What the calls of a log of marks need of a piece. Each piece is one; unlike `Piece` it does not ask that the value can
/// go to another thread, on which the proof of a trait's method can not rest.
pub trait LocalPiece: Sized {
    ghost use Rattle.vx_piece.specs.Seen.{Seen};

    /// What contracts see of it.
    ghost seen: { Self → Seen };

    /// The number of the device.
    fn device(&self) -> u32
        ensures { result ≡ (seen self.now).device };

    /// Writes whole sectors.
    fn write(&mut self, at: u64, from: &[u8]) -> Result<(), PieceFault>
        requires { IsInside (seen self.old) at (length from.now) }
        ensures kept { Keeps (seen self.old) (seen self.new) }
        ensures told { IsWritten at from.now (seen self.old) (seen self.new) result }
        ensures off { IsTrue (seen self.old).cut → IsOff (seen self.old) (seen self.new) result }
        ensures cause { HasCause (seen self.old) (seen self.new) result };

    /// Reads whole sectors.
    fn read(&mut self, at: u64, into: &mut [u8]) -> Result<(), PieceFault>
        requires { IsInside (seen self.old) at (length into.old) }
        ensures kept { Keeps (seen self.old) (seen self.new) }
        ensures same { IsRead (seen self.old) (seen self.new) }
        ensures ok { OnOk result (IfSome (seen self.old).told (λ contents. AreBlocks into.new contents at)) }
        ensures cause { HasCause (seen self.old) (seen self.new) result };

    /// Sets when a power switch is to act on a piece that is not cut. Nothing else changes.
    fn arm(&mut self, stop: Option<u64>)
        ensures { seen self.new ≡ (if (seen self.old).cut then seen self.old else record (seen self.old) { stop = stop }) };
}

impl<P: Piece> LocalPiece for P {
    ghost seen = { P.seen };

    fn device(&self) -> u32 {
        Piece::device(self)
    }

    fn write(&mut self, at: u64, from: &[u8]) -> Result<(), PieceFault> {
        Piece::write(self, at, from)
    }

    fn read(&mut self, at: u64, into: &mut [u8]) -> Result<(), PieceFault> {
        Piece::read(self, at, into)
    }

    fn arm(&mut self, stop: Option<u64>) {
        Piece::arm(self, stop)
    }
}
