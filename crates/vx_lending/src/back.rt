ghost use Rattle.std.specs.Prelude.{◌≡◌, ◌+◌, ◌≤◌, ◌++◌, length, map, vec_len, vec_capacity, IfErr, OnOk, IsOk};
ghost use Rattle.vx_carve.specs.Together.{SameSectors};
ghost use Rattle.vx_maps.specs.Spares.{copies_seen};
ghost use Rattle.vx_lending.specs.Pieces.{copy_pieces, volume_pieces};

use crate::pieces::VolumePieces;
use crate::put_regions;
use std::alloc::Global;
use vx_carve::{Pool, uncarve};
use vx_piece::Piece;

/// Puts the copies of a log back, the last copy first. It takes no memory but what the joins take, and is done where the pool
/// has room for all pieces; what it has no room for comes back.
pub fn put_copies<P: Piece + Drop>(
    alloc: Global,
    pool: &mut Pool<P>,
    copies: Vec<Vec<P>>,
) -> Result<(), Vec<Vec<P>>>
    ensures put { OnOk result (SameSectors (copy_pieces (copies_seen P.seen copies.items) ++ map P.seen pool.old.items.items) (map P.seen pool.new.items.items)) }
    ensures left { IfErr result (λ v. SameSectors (copy_pieces (copies_seen P.seen copies.items) ++ map P.seen pool.old.items.items) (copy_pieces (copies_seen P.seen v.items) ++ map P.seen pool.new.items.items)) }
    ensures room { vec_len pool.old.items + length (copy_pieces (copies_seen P.seen copies.items)) ≤ vec_capacity pool.old.items → IsOk result }
    ensures longer { OnOk result (vec_len pool.new.items ≤ vec_len pool.old.items + length (copy_pieces (copies_seen P.seen copies.items))) }
    ensures capacity { vec_capacity pool.new.items ≡ vec_capacity pool.old.items }
{
    let mut left = copies;
    'left: while let Some(pieces) = left.pop() {
        match uncarve(pool, alloc, pieces) {
            Ok(_) => {}
            Err(pieces) => {
                left.push_reserved(pieces);
                return Err(left);
            }
        }
    }
    Ok(())
}

/// Puts all pieces of a volume back, those of its regions first. It takes no memory but what the joins take, and is done where
/// the pool has room for all pieces; what it has no room for comes back.
pub fn put_pieces<P: Piece + Drop>(
    alloc: Global,
    pool: &mut Pool<P>,
    pieces: VolumePieces<P>,
) -> Result<(), VolumePieces<P>>
    ensures put { OnOk result (SameSectors (volume_pieces P.seen pieces ++ map P.seen pool.old.items.items) (map P.seen pool.new.items.items)) }
    ensures left { IfErr result (λ v. SameSectors (volume_pieces P.seen pieces ++ map P.seen pool.old.items.items) (volume_pieces P.seen v ++ map P.seen pool.new.items.items)) }
    ensures room { vec_len pool.old.items + length (volume_pieces P.seen pieces) ≤ vec_capacity pool.old.items → IsOk result }
    ensures longer { OnOk result (vec_len pool.new.items ≤ vec_len pool.old.items + length (volume_pieces P.seen pieces)) }
    ensures capacity { vec_capacity pool.new.items ≡ vec_capacity pool.old.items }
{
    let VolumePieces { regions, copies } = pieces;
    match put_regions(alloc, pool, regions) {
        Ok(_) => match put_copies(alloc, pool, copies) {
            Ok(_) => Ok(()),
            Err(copies) => Err(VolumePieces {
                regions: Vec::new(alloc),
                copies,
            }),
        },
        Err(regions) => Err(VolumePieces { regions, copies }),
    }
}
