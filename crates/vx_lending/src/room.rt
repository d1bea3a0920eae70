ghost use Rattle.std.specs.Prelude.{◌≡◌, ◌+◌, ◌≤◌, length, vec_len, vec_capacity, IfSome, OnOk};
ghost use Rattle.vx_cell.specs.Plexes.{plexes_seen};
ghost use Rattle.vx_lending.specs.RegionPieces.{all_pieces, cell_plexes, pieces_of};

use vx_base::OutOfMemory;
use vx_carve::Pool;
use vx_cell::{Cell, Plex};
use vx_piece::Piece;

/// Takes room in the pool for all pieces of the cells, so that `put_cells` is done.
pub fn reserve_cells<P: Piece + Drop>(
    pool: &mut Pool<P>,
    cells: &[Cell<P>],
) -> Result<(), OutOfMemory>
    ensures same { pool.new.items.items ≡ pool.old.items.items }
    ensures room { OnOk result (vec_len pool.new.items + length (all_pieces (cell_plexes P.seen cells.now)) ≤ vec_capacity pool.new.items) }
    ensures capacity { vec_capacity pool.old.items ≤ vec_capacity pool.new.items }
{
    match pieces_in(cells) {
        Some(more) => pool.reserve(more),
        None => Err(OutOfMemory),
    }
}

/// How many pieces the cells have, where a list may be as long.
pub fn pieces_in<P: Piece>(cells: &[Cell<P>]) -> Option<usize>
    ensures { IfSome result (λ n. n ≡ length (all_pieces (cell_plexes P.seen cells.now))) }
{
    let mut count = 0_usize;
    for index in 0..cells.len() {
        count = count.checked_add(pieces_beside(cells[index].plexes())?)?;
    }
    Some(count)
}

/// How many pieces the plexes of a region have.
fn pieces_beside<P: Piece>(plexes: &[Plex<P>]) -> Option<usize>
    ensures { IfSome result (λ n. n ≡ length (pieces_of (plexes_seen P.seen plexes.now))) }
{
    match plexes {
        [] => Some(0),
        [first, rest @ ..] => first.pieces.len().checked_add(pieces_beside(rest)?),
    }
}
