//! What is left of volumes that were not started goes back into the pool.

ghost use Rattle.std.specs.Prelude.{◌≡◌, ◌<◌, ◌++◌, [], map, vec_len, vec_capacity, IfErr, OnOk};
ghost use Rattle.vx_carve.specs.Together.{SameSectors};
ghost use Rattle.vx_lending.specs.Public.{remaining_pieces, still_pieces};

use crate::remains::{log_left, put_remains};
use std::alloc::Global;
use vx_base::OutOfMemory;
use vx_carve::Pool;
use vx_cell::Plex;
use vx_lending::{LogLeft, Public, Remains};
use vx_piece::Piece;
use vx_volume::VolumeLog;

/// Puts what is left of volumes that were not started back into the pool, the last one first. Where there is no memory for that
/// it ends, and the others stay.
pub fn gather<P: Piece + Drop>(alloc: Global, public: &mut Public<P>) -> Result<(), OutOfMemory>
    ensures still { SameSectors (still_pieces P.seen public.old) (still_pieces P.seen public.new) }
    ensures none { OnOk result (public.new.left.items ≡ []) }
    ensures running { public.new.running ≡ public.old.running }
    ensures stuck { public.new.stuck ≡ public.old.stuck }
{
    'left: while let Some(remains) = public.left.pop() {
        if let Err(remains) = put_again(alloc, &mut public.pool, remains) {
            public.left.push_reserved(remains);
            return Err(OutOfMemory);
        }
    }
    Ok(())
}

/// Puts pieces back into a pool, for which it takes room if there is memory. What it has no room for comes back.
fn put_again<P: Piece + Drop>(
    alloc: Global,
    pool: &mut Pool<P>,
    remains: Remains<P>,
) -> Result<(), Remains<P>>
    ensures put { OnOk result (SameSectors (remaining_pieces P.seen remains ++ map P.seen pool.old.items.items) (map P.seen pool.new.items.items)) }
    ensures left { IfErr result (λ r. SameSectors (remaining_pieces P.seen remains ++ map P.seen pool.old.items.items) (remaining_pieces P.seen r ++ map P.seen pool.new.items.items)) }
{
    let Remains { regions, log } = remains;
    let log = match log {
        LogLeft::Copies(copies) => LogLeft::Copies(copies),
        LogLeft::Store(store) => log_left(alloc, VolumeLog::Maps(store)),
    };
    let more = pieces_of_regions(&regions).saturating_add(pieces_of_log(&log));
    let _ = pool.reserve(more);
    put_remains(alloc, pool, regions, log)
}

fn pieces_of_regions<P>(regions: &[Vec<Plex<P>>]) -> usize {
    let mut count = 0_usize;
    for plexes in regions {
        for plex in plexes {
            count = count.saturating_add(plex.pieces.len());
        }
    }
    count
}

fn pieces_of_log<P: Piece>(log: &LogLeft<P>) -> usize {
    match log {
        LogLeft::Copies(copies) => pieces_of_copies(copies),
        LogLeft::Store(_) => 0,
    }
}

fn pieces_of_copies<P>(copies: &[Vec<P>]) -> usize {
    let mut count = 0_usize;
    for copy in copies {
        count = count.saturating_add(copy.len());
    }
    count
}
