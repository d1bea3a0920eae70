ghost use Rattle.std.specs.Prelude.{◌≡◌, ◌+◌, ◌≤◌, ◌++◌, length, map, vec_len, vec_capacity, IfErr, OnOk, IsOk};
ghost use Rattle.vx_carve.specs.Together.{SameSectors};
ghost use Rattle.vx_cell.specs.Changes.{cell_seen};
ghost use Rattle.vx_volume.specs.Volume.{cells_seen};
ghost use Rattle.vx_lending.specs.RegionPieces.{AreLeft, all_pieces, cell_plexes, pieces_of};

use crate::regions_back::put_plexes;
use std::alloc::Global;
use vx_carve::Pool;
use vx_cell::Cell;
use vx_piece::Piece;

/// Puts the pieces of cells back, the first cell first. It takes no memory but what the joins take, and is done where the
/// pool has room for all pieces; what it has no room for comes back in cells, the last cell first.
pub fn put_cells<P: Piece + Drop>(
    alloc: Global,
    pool: &mut Pool<P>,
    cells: Vec<Cell<P>>,
) -> Result<(), Vec<Cell<P>>>
    ensures put { OnOk result (SameSectors (all_pieces (cell_plexes P.seen cells.items) ++ map P.seen pool.old.items.items) (map P.seen pool.new.items.items)) }
    ensures left { IfErr result (λ v. SameSectors (all_pieces (cell_plexes P.seen cells.items) ++ map P.seen pool.old.items.items) (all_pieces (cell_plexes P.seen v.items) ++ map P.seen pool.new.items.items)) }
    ensures cells { IfErr result (λ v. AreLeft (cells_seen P.seen cells.items) (cells_seen P.seen v.items)) }
    ensures room { vec_len pool.old.items + length (all_pieces (cell_plexes P.seen cells.items)) ≤ vec_capacity pool.old.items → IsOk result }
    ensures longer { OnOk result (vec_len pool.new.items ≤ vec_len pool.old.items + length (all_pieces (cell_plexes P.seen cells.items))) }
    ensures capacity { vec_capacity pool.new.items ≡ vec_capacity pool.old.items }
{
    let mut left = cells;
    left.reverse();
    'left: while let Some(cell) = left.pop() {
        match put_cell(alloc, pool, cell) {
            Ok(_) => {}
            Err(cell) => {
                left.push_reserved(cell);
                return Err(left);
            }
        }
    }
    Ok(())
}

/// Puts the pieces of a cell back. What the pool has no room for comes back in the cell.
fn put_cell<P: Piece + Drop>(
    alloc: Global,
    pool: &mut Pool<P>,
    cell: Cell<P>,
) -> Result<(), Cell<P>>
    ensures put { OnOk result (SameSectors (pieces_of (cell_seen P.seen cell).plexes ++ map P.seen pool.old.items.items) (map P.seen pool.new.items.items)) }
    ensures left { IfErr result (λ c. SameSectors (pieces_of (cell_seen P.seen cell).plexes ++ map P.seen pool.old.items.items) (pieces_of (cell_seen P.seen c).plexes ++ map P.seen pool.new.items.items)) }
    ensures same { IfErr result (λ c. cell_seen P.seen c ≡ record (cell_seen P.seen cell) { plexes = (cell_seen P.seen c).plexes }) }
    ensures room { vec_len pool.old.items + length (pieces_of (cell_seen P.seen cell).plexes) ≤ vec_capacity pool.old.items → IsOk result }
    ensures longer { OnOk result (vec_len pool.new.items ≤ vec_len pool.old.items + length (pieces_of (cell_seen P.seen cell).plexes)) }
    ensures capacity { vec_capacity pool.new.items ≡ vec_capacity pool.old.items }
{
    let number = cell.number();
    let epoch = cell.epoch();
    let (stage, region, span, plexes) = cell.into_parts();
    match put_plexes(alloc, pool, plexes) {
        Ok(_) => Ok(()),
        Err(plexes) => Err(Cell::new_at(stage, region, span, plexes, number, epoch)),
    }
}
