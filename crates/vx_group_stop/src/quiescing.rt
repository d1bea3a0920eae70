//! All regions of a volume come to rest.

ghost use Rattle.std.specs.Prelude.{◌≡◌, ℕ};
ghost use Rattle.std.specs.List.{list_any};
ghost use Rattle.vx_mask.specs.Mask.{has};
ghost use Rattle.vx_cell.specs.Changes.{cell_seen};
ghost use Rattle.vx_volume.specs.Log.{LogGoes};
ghost use Rattle.vx_volume.specs.Volume.{IsVolume, log_of, shape_of, volume_seen};
ghost use Rattle.vx_group_stop.specs.Stops.{AreMarked, ComesToRest, is_lost};

use vx_cell::Cell;
use vx_piece::Piece;
use vx_volume::{IoFault, Volume};

/// Makes the plexes of each region equal, then takes the dirty marks away, and answers the maps that some region is marked in.
/// Where a region cannot be settled nothing more is done. Where a dirty mark cannot be taken away those of the regions behind
/// it stay too, and that is no fault, unless the power went.
pub fn quiesce<P: Piece>(volume: &mut Volume<P>) -> Result<u64, IoFault>
    requires { IsVolume (volume_seen P.seen volume.old) }
    ensures rests { ComesToRest (volume_seen P.seen volume.old) (volume_seen P.seen volume.new) result }
    ensures whole { IsVolume (volume_seen P.seen volume.new) }
    ensures shape { shape_of volume.new ≡ shape_of volume.old }
    ensures follows { LogGoes P.seen (log_of volume.old) (log_of volume.new) }
{
    volume.settle_all()?;
    if is_lost(volume.clear_all()) {
        return Err(IoFault::PowerLost);
    }
    Ok(marked(volume))
}

/// Whether the power went.
fn is_lost(cleared: Result<(), IoFault>) -> bool
    ensures { result ≡ is_lost cleared }
{
    match cleared {
        Err(IoFault::PowerLost) => true,
        Ok(()) | Err(IoFault::Range | IoFault::Fault(_)) => false,
    }
}

/// The maps that some region of a volume is marked in.
pub fn marked<P: Piece>(volume: &Volume<P>) -> u64
    ensures { AreMarked (volume_seen P.seen volume.now) result }
{
    marks_of(volume.cells())
}

/// The maps that some of these regions is marked in.
fn marks_of<P: Piece>(cells: &[Cell<P>]) -> u64
    ensures { (k : ℕ) → has result k ≡ list_any (λ cell. has (cell_seen P.seen cell).stage.bits k) cells.now }
{
    let mut marks = 0;
    for cell in cells {
        marks = vx_mask::with(marks, cell.stage().bits);
    }
    marks
}
