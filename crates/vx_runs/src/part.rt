//! The part of a call on a run that lies in one piece.

ghost use Rattle.std.specs.Prelude.{◌≡◌, ◌+◌, ◌*◌, ◌/◌, ◌%◌, ◌^◌, ◌<◌, ◌≤◌, length};
ghost use Rattle.vx_runs.specs.Part.{IsPartRange, IsPartRead, IsPartWritten};

use vx_base::BLOCK;
use vx_piece::{Piece, PieceFault};

/// Writes what of the bytes lies in the piece. The piece begins at `start` of the run, and the bytes at `at`.
pub fn write_part<P: Piece>(
    piece: &mut P,
    start: u64,
    at: u64,
    from: &[u8],
) -> Result<(), PieceFault>
    requires { IsPartRange start at (length from.now) (P.seen piece.old) }
    ensures { IsPartWritten start at from.now (P.seen piece.old) (P.seen piece.new) result }
{
    let end = at + (from.len() / BLOCK) as u64;
    let first = at.max(start);
    let last = end.min(start + piece.sectors());
    if first < last {
        let low = (first - at) as usize * BLOCK;
        let high = (last - at) as usize * BLOCK;
        piece.write(first - start, &from[low..high])
    } else {
        Ok(())
    }
}

/// Reads what of the range lies in the piece.
pub fn read_part<P: Piece>(
    piece: &mut P,
    start: u64,
    at: u64,
    into: &mut [u8],
) -> Result<(), PieceFault>
    requires { IsPartRange start at (length into.old) (P.seen piece.old) }
    ensures read { IsPartRead start at into.old into.new (P.seen piece.old) (P.seen piece.new) result }
    ensures length { length into.new ≡ length into.old }
{
    let end = at + (into.len() / BLOCK) as u64;
    let first = at.max(start);
    let last = end.min(start + piece.sectors());
    if first < last {
        let low = (first - at) as usize * BLOCK;
        let high = (last - at) as usize * BLOCK;
        piece.read(first - start, &mut into[low..high])
    } else {
        Ok(())
    }
}
