//! The pieces of a volume that was not started go back.

ghost use Rattle.std.specs.Prelude.{◌≡◌, ◌<◌, ◌++◌, map, vec_len, vec_capacity, IfErr, OnOk};
ghost use Rattle.vx_carve.specs.Together.{SameSectors};
ghost use Rattle.vx_volume.specs.Opening.{regions_seen};
ghost use Rattle.vx_lending.specs.RegionPieces.{all_pieces};
ghost use Rattle.vx_lending.specs.Left.{left_copies};
ghost use Rattle.vx_lending.specs.Logs.{log_copies};
ghost use Rattle.vx_lending.specs.Pieces.{copy_pieces};
ghost use Rattle.vx_lending.specs.Public.{remaining_pieces, still_pieces};

use std::alloc::Global;
use vx_carve::Pool;
use vx_cell::Plex;
use vx_lending::{LogLeft, Public, Remains, VolumePieces, put_pieces, put_regions};
use vx_piece::Piece;
use vx_volume::VolumeLog;

/// The copies of a log; where there is no memory for the lists of their pieces, the log.
pub fn log_left<P: Piece + Drop>(alloc: Global, log: VolumeLog<P>) -> LogLeft<P>
    ensures { left_copies P.seen result ≡ log_copies P.seen log }
{
    match log {
        VolumeLog::Absent => LogLeft::Copies(Vec::new(alloc)),
        VolumeLog::Maps(store) => match store.into_copies(alloc) {
            Ok(copies) => LogLeft::Copies(copies),
            Err((store, _)) => LogLeft::Store(store),
        },
    }
}

/// Puts the pieces of a volume that was not started back into the pool. What it has no room for, and a log that is not taken
/// apart, stays among what is left.
pub fn put_back<P: Piece + Drop>(
    alloc: Global,
    public: &mut Public<P>,
    regions: Vec<Vec<Plex<P>>>,
    log: LogLeft<P>,
)
    requires { vec_len public.old.left < vec_capacity public.old.left }
    ensures still { SameSectors ((all_pieces (regions_seen P.seen regions.items) ++ copy_pieces (left_copies P.seen log)) ++ still_pieces P.seen public.old) (still_pieces P.seen public.new) }
    ensures running { public.new.running ≡ public.old.running }
    ensures stuck { public.new.stuck ≡ public.old.stuck }
{
    if let Err(remains) = put_remains(alloc, &mut public.pool, regions, log) {
        public.left.push_reserved(remains);
    }
}

/// Puts pieces back into the pool. What it has no room for comes back, and so does a log that is not taken apart.
pub fn put_remains<P: Piece + Drop>(
    alloc: Global,
    pool: &mut Pool<P>,
    regions: Vec<Vec<Plex<P>>>,
    log: LogLeft<P>,
) -> Result<(), Remains<P>>
    ensures put { OnOk result (SameSectors ((all_pieces (regions_seen P.seen regions.items) ++ copy_pieces (left_copies P.seen log)) ++ map P.seen pool.old.items.items) (map P.seen pool.new.items.items)) }
    ensures left { IfErr result (λ r. SameSectors ((all_pieces (regions_seen P.seen regions.items) ++ copy_pieces (left_copies P.seen log)) ++ map P.seen pool.old.items.items) (remaining_pieces P.seen r ++ map P.seen pool.new.items.items)) }
{
    match log {
        LogLeft::Copies(copies) => {
            let pieces = VolumePieces { regions, copies };
            match put_pieces(alloc, pool, pieces) {
                Ok(()) => Ok(()),
                Err(VolumePieces { regions, copies }) => Err(Remains {
                    regions,
                    log: LogLeft::Copies(copies),
                }),
            }
        }
        LogLeft::Store(store) => Err(Remains {
            regions: regions_left(alloc, pool, regions),
            log: LogLeft::Store(store),
        }),
    }
}

/// Puts the pieces of regions back into the pool, and answers with those that it has no room for.
fn regions_left<P: Piece + Drop>(
    alloc: Global,
    pool: &mut Pool<P>,
    regions: Vec<Vec<Plex<P>>>,
) -> Vec<Vec<Plex<P>>>
    ensures { SameSectors (all_pieces (regions_seen P.seen regions.items) ++ map P.seen pool.old.items.items) (all_pieces (regions_seen P.seen result.items) ++ map P.seen pool.new.items.items) }
{
    match put_regions(alloc, pool, regions) {
        Ok(()) => Vec::new(alloc),
        Err(regions) => regions,
    }
}
