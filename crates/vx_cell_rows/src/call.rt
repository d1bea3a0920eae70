//! A call on a row's region.

ghost use Rattle.std.specs.Prelude.{◌≡◌, ◌≢◌, length, true};
ghost use Rattle.vx_mask.specs.Mask.{has};
ghost use Rattle.vx_cell.specs.Changes.{cell_seen};
ghost use Rattle.vx_cell.specs.Plexes.{holds};
ghost use Rattle.vx_cell_rows.specs.Piece.{row_seen};
ghost use Rattle.vx_cell_rows.specs.Ready.{IsReady};

use crate::notes::Notes;
use crate::piece::RowPiece;
use vx_cell::{Cell, CellFault};
use vx_picker::{Picker, Policy};

/// A call on the region.
#[derive(Clone, Copy, Debug, PartialEq, Eq)]
pub enum Call {
    Read,
    Write,
    Settle,
    Copy(u8),
    Clear,
    /// A write that leaves the region dirty.
    WriteDirty,
    /// The plex is set off.
    Off(u8),
    /// Plex 1 is taken out.
    Take,
    /// The plex leaves, if there is one.
    Lose(u8),
    Kill,
}

/// Makes the call on the region, a read or a write on its first sector. A read prefers plex 0. Answers the number of
/// a read or of a write, of a copy whether there was something to copy, and how many pieces were taken out.
pub fn perform(
    cell: &mut Cell<RowPiece>,
    kind: Call,
    into: &mut [u8],
    scratch: &mut [u8],
    log: &mut Notes,
) -> Result<u64, CellFault>
    requires ready { IsReady cell.old log.old }
    requires into { length into.old ≡ 512 }
    requires scratch { length scratch.old ≡ 1024 }
{
    match kind {
        Call::Read => {
            let pick = Picker::new(lowest_member);
            cell.read(0, into, scratch, log, &pick, Policy::Prefer(0))
        }
        Call::Write => cell.write(0, into, scratch, log),
        Call::Settle => {
            cell.settle(scratch, log)?;
            Ok(0)
        }
        Call::Copy(map) => Ok(cell.copy_to(map, scratch, log)? as u64),
        Call::Clear => {
            cell.clear_dirty(scratch, log)?;
            Ok(0)
        }
        Call::WriteDirty => cell.write_dirty(0, into, scratch, log),
        Call::Off(_) | Call::Take | Call::Lose(_) | Call::Kill => change(cell, kind),
    }
}

/// Makes a call that no device sees.
fn change(cell: &mut Cell<RowPiece>, kind: Call) -> Result<u64, CellFault>
    requires { holds (cell_seen row_seen cell.old).plexes 1 ≡ true }
{
    match kind {
        Call::Off(map) => {
            cell.set_on(map, false)?;
            Ok(0)
        }
        Call::Take => Ok(cell.take_plex(1)?.len() as u64),
        Call::Lose(map) => Ok(cell.lose_plex(map).len() as u64),
        _ => {
            cell.kill();
            Ok(0)
        }
    }
}

/// The lowest member of a mask that is not empty.
fn lowest_member(mask: u64, _turn: u64) -> u32
    ensures { mask ≢ 0 → has mask result ≡ true }
{
    vx_mask::first(mask)
}
