ghost use Rattle.std.specs.Prelude.{◌≡◌, ◌+◌, ◌<◌, IsTrue, length, IfOk, OnOk, IfErr, IfSome, if◌then◌else◌};
ghost use Rattle.vx_base.specs.Blocks.{AreBlocks};
ghost use Rattle.vx_piece.specs.Seen.{Seen, IsInside, EndsThere, AreCounts, Keeps, IsRead, CountsRead, IsWritten, IsOff, HasCause, IsSplit, IsNeighbour, IsJoined};

use std::alloc::Global;
use vx_base::OutOfMemory;

/// Why a call of a piece was not done.
#[derive(Clone, Copy, Debug, PartialEq, Eq)]
pub enum PieceFault {
    /// The device failed, and the piece's count of faults rose.
    Failed,
    /// The power is gone.
    PowerLost,
}

/// An owned run of sectors of one device. `at` counts sectors from the run's start.
///
/// A write that is `Ok` is stable. One that is not leaves each sector of its range old or new, and nothing else
/// changes.
pub trait Piece: Sized + Send {
    /// What contracts see of it.
    ghost seen: { Self → Seen };

    /// The number of the device.
    fn device(&self) -> u32
        ensures { result ≡ (seen self.now).device };

    /// The first sector, as the device counts them.
    fn start(&self) -> u64
        ensures { result ≡ (seen self.now).start };

    fn sectors(&self) -> u64
        ensures { result ≡ (seen self.now).sectors };

    /// Reads whole sectors.
    fn read(&mut self, at: u64, into: &mut [u8]) -> Result<(), PieceFault>
        requires { IsInside (seen self.old) at (length into.old) }
        ensures kept { Keeps (seen self.old) (seen self.new) }
        ensures same { IsRead (seen self.old) (seen self.new) }
        ensures counted { CountsRead into.old (seen self.old) (seen self.new) }
        ensures ok { OnOk result (IfSome (seen self.old).told (λ contents. AreBlocks into.new contents at)) }
        ensures off { IsTrue (seen self.old).cut → IsOff (seen self.old) (seen self.new) result }
        ensures cause { HasCause (seen self.old) (seen self.new) result };

    /// Writes whole sectors.
    fn write(&mut self, at: u64, from: &[u8]) -> Result<(), PieceFault>
        requires { IsInside (seen self.old) at (length from.now) }
        ensures kept { Keeps (seen self.old) (seen self.new) }
        ensures told { IsWritten at from.now (seen self.old) (seen self.new) result }
        ensures off { IsTrue (seen self.old).cut → IsOff (seen self.old) (seen self.new) result }
        ensures cause { HasCause (seen self.old) (seen self.new) result };

    /// Parts the run in two. The counts of the parts add up. After a refusal the run is as before.
    fn split(self, alloc: Global, at: u64) -> Result<(Self, Self), (Self, OutOfMemory)>
        requires some { 0 < at }
        requires inside { at < (seen self).sectors }
        ensures parts { IfOk result (λ x. IsSplit at (seen self) (seen x.0) (seen x.1)) }
        ensures kept { IfErr result (λ x. seen x.0 ≡ seen self) };

    /// Joins the run that follows this one on the device. The counts add up. After a refusal both are as before.
    fn join(self, alloc: Global, next: Self) -> Result<Self, (Self, Self, OutOfMemory)>
        requires { IsNeighbour (seen self) (seen next) }
        ensures joined { IfOk result (λ x. IsJoined (seen self) (seen next) (seen x)) }
        ensures first { IfErr result (λ x. seen x.0 ≡ seen self) }
        ensures second { IfErr result (λ x. seen x.1 ≡ seen next) };

    /// Sets when a power switch is to act on a piece that is not cut. Nothing else changes.
    fn arm(&mut self, stop: Option<u64>)
        ensures { seen self.new ≡ (if (seen self.old).cut then seen self.old else record (seen self.old) { stop = stop }) };

    /// Nothing is told behind the last sector.
    ghost ends: { (piece : Self) → EndsThere (seen piece) };

    /// Its counts are numbers of 64 bits.
    ghost counts: { (piece : Self) → AreCounts (seen piece) };
}
