//! The plexes of a volume are copied to.

ghost use Rattle.std.specs.Prelude.{◌≡◌, ◌<◌, count_by, IfOk};
ghost use Rattle.vx_cell.specs.Changes.{cell_seen};
ghost use Rattle.vx_volume.specs.Calls.{IsNoRange, io_stop};
ghost use Rattle.vx_volume.specs.Log.{LogGoes};
ghost use Rattle.vx_volume.specs.Volume.{IsVolume, log_of, shape_of, volume_seen};
ghost use Rattle.vx_group_start.specs.Copying.{AreCopied, CopiesMap, common, missed, missed_regions, misses};

use vx_cell::Cell;
use vx_core::Stage;
use vx_piece::Piece;
use vx_volume::{IoFault, Volume};

/// Copies each region to the plexes of a mask that are on and miss it, one pass for each plex, the lowest map first. It ends at
/// the first region of which that fails. It answers in how many regions some of these plexes were on and marked as it began.
pub fn copy_all<P: Piece>(volume: &mut Volume<P>, mask: u64) -> Result<u64, IoFault>
    requires { IsVolume (volume_seen P.seen volume.old) }
    ensures copied { AreCopied mask (volume_seen P.seen volume.old) (volume_seen P.seen volume.new) result }
    ensures count { IfOk result (λ n. n ≡ missed_regions mask (volume_seen P.seen volume.old)) }
    ensures whole { IsVolume (volume_seen P.seen volume.new) }
    ensures shape { shape_of volume.new ≡ shape_of volume.old }
    ensures follows { LogGoes P.seen (log_of volume.old) (log_of volume.new) }
{
    let count = missing(volume.cells(), mask);
    for map in 0..64u8 {
        if let Err(fault) = copy_map(volume, mask, map) {
            return Err(fault);
        }
    }
    Ok(count as u64)
}

/// Copies each region that the plex of a map misses to it, if the mask has the map.
fn copy_map<P: Piece>(volume: &mut Volume<P>, mask: u64, map: u8) -> Result<(), IoFault>
    requires { IsVolume (volume_seen P.seen volume.old) }
    ensures copies { CopiesMap mask map (io_stop result) (volume_seen P.seen volume.old) (volume_seen P.seen volume.new) }
    ensures range { IsNoRange result }
    ensures whole { IsVolume (volume_seen P.seen volume.new) }
    ensures shape { shape_of volume.new ≡ shape_of volume.old }
    ensures follows { LogGoes P.seen (log_of volume.old) (log_of volume.new) }
{
    if !vx_mask::contains(mask, u32::from(map)) {
        return Ok(());
    }
    match volume.copy_plex(map) {
        Ok(_) => Ok(()),
        Err(fault) => Err(fault),
    }
}

/// How many regions some plex of a mask misses.
fn missing<P: Piece>(cells: &[Cell<P>], mask: u64) -> usize
    ensures { result ≡ count_by (λ cell. misses mask (cell_seen P.seen cell).stage) cells.now }
{
    cells.iter().filter(|cell| is_missed(cell, mask)).count()
}

/// Some plex of a mask misses the region.
fn is_missed<P: Piece>(cell: &Cell<P>, mask: u64) -> bool
    ensures { result ≡ misses mask (cell_seen P.seen cell.now).stage }
{
    missed(mask, cell.stage()) != 0
}

/// The plexes of a mask that are on and marked in a region.
fn missed(mask: u64, stage: Stage) -> u64
    ensures { result ≡ missed mask stage }
{
    common(common(mask, stage.on), stage.bits)
}

/// The maps that are in both masks.
fn common(a: u64, b: u64) -> u64
    ensures { result ≡ common a b }
{
    vx_mask::less(a, vx_mask::less(a, b))
}
