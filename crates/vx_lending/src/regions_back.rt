ghost use Rattle.std.specs.Prelude.{◌≡◌, ◌+◌, ◌≤◌, ◌++◌, length, map, vec_len, vec_capacity, IfErr, OnOk, IsOk};
ghost use Rattle.vx_carve.specs.Together.{SameSectors};
ghost use Rattle.vx_cell.specs.Plexes.{plexes_seen};
ghost use Rattle.vx_volume.specs.Opening.{regions_seen};
ghost use Rattle.vx_lending.specs.RegionPieces.{all_pieces, pieces_of};

use std::alloc::Global;
use vx_carve::{Pool, uncarve};
use vx_cell::Plex;
use vx_piece::Piece;

/// Puts the pieces of plexes back, the first plex first. It takes no memory but what the joins take; what the pool has no
/// room for comes back, the last plex first.
pub fn put_plexes<P: Piece + Drop>(
    alloc: Global,
    pool: &mut Pool<P>,
    plexes: Vec<Plex<P>>,
) -> Result<(), Vec<Plex<P>>>
    ensures put { OnOk result (SameSectors (pieces_of (plexes_seen P.seen plexes.items) ++ map P.seen pool.old.items.items) (map P.seen pool.new.items.items)) }
    ensures left { IfErr result (λ v. SameSectors (pieces_of (plexes_seen P.seen plexes.items) ++ map P.seen pool.old.items.items) (pieces_of (plexes_seen P.seen v.items) ++ map P.seen pool.new.items.items)) }
    ensures room { vec_len pool.old.items + length (pieces_of (plexes_seen P.seen plexes.items)) ≤ vec_capacity pool.old.items → IsOk result }
    ensures longer { OnOk result (vec_len pool.new.items ≤ vec_len pool.old.items + length (pieces_of (plexes_seen P.seen plexes.items))) }
    ensures capacity { vec_capacity pool.new.items ≡ vec_capacity pool.old.items }
{
    let mut left = plexes;
    left.reverse();
    'left: while let Some(plex) = left.pop() {
        let Plex { map, pieces } = plex;
        match uncarve(pool, alloc, pieces) {
            Ok(_) => {}
            Err(pieces) => {
                left.push_reserved(Plex { map, pieces });
                return Err(left);
            }
        }
    }
    Ok(())
}

/// Puts the pieces of the plexes of regions back, the first region first. It takes no memory but what the joins take, and is
/// done where the pool has room for all pieces; what it has no room for comes back, the last region first.
pub fn put_regions<P: Piece + Drop>(
    alloc: Global,
    pool: &mut Pool<P>,
    regions: Vec<Vec<Plex<P>>>,
) -> Result<(), Vec<Vec<Plex<P>>>>
    ensures put { OnOk result (SameSectors (all_pieces (regions_seen P.seen regions.items) ++ map P.seen pool.old.items.items) (map P.seen pool.new.items.items)) }
    ensures left { IfErr result (λ v. SameSectors (all_pieces (regions_seen P.seen regions.items) ++ map P.seen pool.old.items.items) (all_pieces (regions_seen P.seen v.items) ++ map P.seen pool.new.items.items)) }
    ensures room { vec_len pool.old.items + length (all_pieces (regions_seen P.seen regions.items)) ≤ vec_capacity pool.old.items → IsOk result }
    ensures longer { OnOk result (vec_len pool.new.items ≤ vec_len pool.old.items + length (all_pieces (regions_seen P.seen regions.items))) }
    ensures capacity { vec_capacity pool.new.items ≡ vec_capacity pool.old.items }
{
    let mut left = regions;
    left.reverse();
    put_last(alloc, pool, left)
}

/// The same, the last region first.
pub(crate) fn put_last<P: Piece + Drop>(
    alloc: Global,
    pool: &mut Pool<P>,
    regions: Vec<Vec<Plex<P>>>,
) -> Result<(), Vec<Vec<Plex<P>>>>
    ensures put { OnOk result (SameSectors (all_pieces (regions_seen P.seen regions.items) ++ map P.seen pool.old.items.items) (map P.seen pool.new.items.items)) }
    ensures left { IfErr result (λ v. SameSectors (all_pieces (regions_seen P.seen regions.items) ++ map P.seen pool.old.items.items) (all_pieces (regions_seen P.seen v.items) ++ map P.seen pool.new.items.items)) }
    ensures room { vec_len pool.old.items + length (all_pieces (regions_seen P.seen regions.items)) ≤ vec_capacity pool.old.items → IsOk result }
    ensures longer { OnOk result (vec_len pool.new.items ≤ vec_len pool.old.items + length (all_pieces (regions_seen P.seen regions.items))) }
    ensures capacity { vec_capacity pool.new.items ≡ vec_capacity pool.old.items }
{
    let mut left = regions;
    'left: while let Some(plexes) = left.pop() {
        match put_plexes(alloc, pool, plexes) {
            Ok(_) => {}
            Err(plexes) => {
                left.push_reserved(plexes);
                return Err(left);
            }
        }
    }
    Ok(())
}
