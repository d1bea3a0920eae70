ghost use Rattle.std.specs.Prelude.{◌≡◌, ◌+◌, ◌≤◌, ◌++◌, length, map, vec_len, vec_capacity, IfOk, IfErr, IsOk, OnOk};
ghost use Rattle.vx_carve.specs.Together.{SameSectors};
ghost use Rattle.vx_maps.specs.Spares.{copies_seen};
ghost use Rattle.vx_volume.specs.Volume.{IsVolume, volume_seen};
ghost use Rattle.vx_lending.specs.RegionPieces.{all_pieces, cell_plexes};
ghost use Rattle.vx_lending.specs.Left.{AreParts, IsLeftOf, IsWholeLeft, StaysWhole, held_pieces, left_pieces};
ghost use Rattle.vx_lending.specs.Logs.{log_copies};
ghost use Rattle.vx_lending.specs.Pieces.{copy_pieces};

use crate::back::put_copies;
use crate::left::VolumeLeft;
use crate::put_cells;
use std::alloc::Global;
use vx_carve::Pool;
use vx_cell::Cell;
use vx_piece::Piece;
use vx_volume::{Volume, VolumeLog};

/// Puts all pieces of a volume back. It takes no memory but the lists of its log's pieces and what the joins take; where there
/// is none for the lists the volume comes back as it was, and else what the pool has no room for.
pub fn put_volume<P: Piece + Drop>(
    alloc: Global,
    pool: &mut Pool<P>,
    volume: Volume<P>,
) -> Result<(), VolumeLeft<P>>
    requires { IsVolume (volume_seen P.seen volume) }
    ensures put { OnOk result (SameSectors (held_pieces P.seen volume ++ map P.seen pool.old.items.items) (map P.seen pool.new.items.items)) }
    ensures left { IfErr result (λ left. SameSectors (held_pieces P.seen volume ++ map P.seen pool.old.items.items) (left_pieces P.seen left ++ map P.seen pool.new.items.items)) }
    ensures whole { IfErr result (λ left. IsLeftOf P.seen volume left) }
    ensures room { vec_len pool.old.items + length (held_pieces P.seen volume) ≤ vec_capacity pool.old.items → IfErr result (λ left. IsWholeLeft P.seen volume left) }
    ensures still { IfErr result (λ left. StaysWhole left pool.old pool.new) }
    ensures longer { OnOk result (vec_len pool.new.items ≤ vec_len pool.old.items + length (held_pieces P.seen volume)) }
    ensures capacity { vec_capacity pool.new.items ≡ vec_capacity pool.old.items }
{
    let (shape, cells, log, scratch, most) = volume.into_cells();
    match copies_of(alloc, log) {
        Ok(copies) => put_parts(alloc, pool, cells, copies),
        Err(log) => Err(VolumeLeft::Whole(Volume::from_cells(shape, cells, log, scratch, most))),
    }
}

/// The copies of a log. Where there is no memory for their lists it comes back.
fn copies_of<P: Piece + Drop>(alloc: Global, log: VolumeLog<P>) -> Result<Vec<Vec<P>>, VolumeLog<P>>
    ensures copies { IfOk result (λ v. copies_seen P.seen v.items ≡ log_copies P.seen log) }
    ensures kept { IfErr result (λ x. x ≡ log) }
{
    match log {
        VolumeLog::Absent => Ok(Vec::new(alloc)),
        VolumeLog::Maps(store) => match store.into_copies(alloc) {
            Ok(copies) => Ok(copies),
            Err((store, _)) => Err(VolumeLog::Maps(store)),
        },
    }
}

/// Puts the pieces of regions and of copies back, those of the regions first.
fn put_parts<P: Piece + Drop>(
    alloc: Global,
    pool: &mut Pool<P>,
    cells: Vec<Cell<P>>,
    copies: Vec<Vec<P>>,
) -> Result<(), VolumeLeft<P>>
    ensures put { OnOk result (SameSectors ((all_pieces (cell_plexes P.seen cells.items) ++ copy_pieces (copies_seen P.seen copies.items)) ++ map P.seen pool.old.items.items) (map P.seen pool.new.items.items)) }
    ensures left { IfErr result (λ left. SameSectors ((all_pieces (cell_plexes P.seen cells.items) ++ copy_pieces (copies_seen P.seen copies.items)) ++ map P.seen pool.old.items.items) (left_pieces P.seen left ++ map P.seen pool.new.items.items)) }
    ensures parts { IfErr result (λ left. AreParts left) }
    ensures room { vec_len pool.old.items + length (all_pieces (cell_plexes P.seen cells.items) ++ copy_pieces (copies_seen P.seen copies.items)) ≤ vec_capacity pool.old.items → IsOk result }
    ensures longer { OnOk result (vec_len pool.new.items ≤ vec_len pool.old.items + length (all_pieces (cell_plexes P.seen cells.items) ++ copy_pieces (copies_seen P.seen copies.items))) }
    ensures capacity { vec_capacity pool.new.items ≡ vec_capacity pool.old.items }
{
    match put_cells(alloc, pool, cells) {
        Ok(_) => match put_copies(alloc, pool, copies) {
            Ok(_) => Ok(()),
            Err(copies) => Err(VolumeLeft::Parts {
                cells: Vec::new(alloc),
                copies,
            }),
        },
        Err(cells) => Err(VolumeLeft::Parts { cells, copies }),
    }
}
