//! A recovery of a volume, as far as its own devices go.

ghost use Rattle.std.specs.Prelude.{◌≡◌, count_by};
ghost use Rattle.vx_mask.specs.Mask.{has};
ghost use Rattle.vx_cell.specs.Changes.{cell_seen};
ghost use Rattle.vx_volume.specs.Log.{LogGoes};
ghost use Rattle.vx_volume.specs.Volume.{IsVolume, log_of, shape_of, volume_seen};
ghost use Rattle.vx_group_recover.specs.Healing.{Heals};

use vx_cell::Cell;
use vx_group_start::copy_all;
use vx_group_stop::marked;
use vx_piece::Piece;
use vx_volume::{IoFault, Volume};

/// What a recovery has found, and what it leaves.
#[derive(Clone, Copy, Debug, PartialEq, Eq)]
pub struct Healed {
    /// Regions that were dirty.
    pub dirty: u64,
    /// Regions that were copied to a plex at least.
    pub copied: u64,
    /// The maps that some region is marked in still.
    pub marks: u64,
}

/// Makes the plexes of each region equal, then copies each region to the plexes that are on and miss it, one pass for each plex, and then takes
/// the dirty marks away. It ends at the first region of which one of these fails.
pub fn heal<P: Piece>(volume: &mut Volume<P>) -> Result<Healed, IoFault>
    requires { IsVolume (volume_seen P.seen volume.old) }
    ensures heals { Heals (volume_seen P.seen volume.old) (volume_seen P.seen volume.new) result }
    ensures whole { IsVolume (volume_seen P.seen volume.new) }
    ensures shape { shape_of volume.new ≡ shape_of volume.old }
    ensures follows { LogGoes P.seen (log_of volume.old) (log_of volume.new) }
{
    let dirty = dirty_regions(volume.cells());
    volume.settle_all()?;
    let mask = marked(volume);
    let copied = copy_all(volume, mask)?;
    volume.clear_all()?;
    let marks = marked(volume);
    Ok(Healed {
        dirty: dirty as u64,
        copied,
        marks,
    })
}

/// How many regions are dirty.
fn dirty_regions<P: Piece>(cells: &[Cell<P>]) -> usize
    ensures { result ≡ count_by (λ cell. has (cell_seen P.seen cell).stage.bits 30) cells.now }
{
    cells.iter().filter(|cell| is_dirty(cell)).count()
}

fn is_dirty<P: Piece>(cell: &Cell<P>) -> bool
    ensures { result ≡ has (cell_seen P.seen cell.now).stage.bits 30 }
{
    vx_mask::contains(cell.stage().bits, 30)
}
