//! A volume that ran is put back.

ghost use Rattle.std.specs.Prelude.{◌≡◌, ◌+◌, ◌≤◌, ◌++◌, length, map, vec_len, vec_capacity, IfOk, IfErr, IfSome, OnErr, OnOk};
ghost use Rattle.vx_carve.specs.Together.{SameSectors};
ghost use Rattle.vx_volume.specs.Volume.{IsVolume, volume_seen};
ghost use Rattle.vx_lending.specs.RegionPieces.{all_pieces, cell_plexes};
ghost use Rattle.vx_lending.specs.Left.{held_pieces};
ghost use Rattle.vx_lending.specs.Logs.{log_pieces};
ghost use Rattle.vx_lending.specs.Public.{still_pieces};
ghost use Rattle.vx_group_start.specs.Closed.{IsSameRunning, IsSameVolume};

use std::alloc::Global;
use vx_base::OutOfMemory;
use vx_carve::Pool;
use vx_cell::Cell;
use vx_lending::{Public, Running, VolumeLeft, pieces_in, put_volume};
use vx_maps::store_pieces;
use vx_piece::Piece;
use vx_volume::{Volume, VolumeLog};

/// Puts the pieces of a volume that ran back into the pool, which gets room for all of them first. Where there is no memory
/// the volume comes back as it was.
pub fn close_volume<P: Piece + Drop>(
    alloc: Global,
    public: &mut Public<P>,
    running: Running<P>,
) -> Result<(), Running<P>>
    requires { IsVolume (volume_seen P.seen running.volume) }
    ensures put { OnOk result (SameSectors (held_pieces P.seen running.volume ++ still_pieces P.seen public.old) (still_pieces P.seen public.new)) }
    ensures back { IfErr result (λ back. IsSameRunning P.seen running back) }
    ensures kept { OnErr result (SameSectors (still_pieces P.seen public.old) (still_pieces P.seen public.new)) }
    ensures left { public.new.left ≡ public.old.left }
    ensures running { public.new.running ≡ public.old.running }
    ensures stuck { public.new.stuck ≡ public.old.stuck }
{
    let Running { form, volume } = running;
    match reserve_volume(&mut public.pool, volume) {
        Ok(volume) => match put_reserved(alloc, &mut public.pool, volume) {
            Ok(()) => Ok(()),
            Err(volume) => Err(Running { form, volume }),
        },
        Err(volume) => Err(Running { form, volume }),
    }
}

/// Puts the pieces of a volume back into a pool that has room for them. Where there is no memory for the lists of its log's
/// pieces it comes back as it was.
fn put_reserved<P: Piece + Drop>(
    alloc: Global,
    pool: &mut Pool<P>,
    volume: Volume<P>,
) -> Result<(), Volume<P>>
    requires whole { IsVolume (volume_seen P.seen volume) }
    requires room { vec_len pool.old.items + length (held_pieces P.seen volume) ≤ vec_capacity pool.old.items }
    ensures put { OnOk result (SameSectors (held_pieces P.seen volume ++ map P.seen pool.old.items.items) (map P.seen pool.new.items.items)) }
    ensures back { IfErr result (λ back. IsSameVolume P.seen volume back) }
    ensures kept { OnErr result (pool.new ≡ pool.old) }
{
    match put_volume(alloc, pool, volume) {
        Ok(()) => Ok(()),
        Err(VolumeLeft::Whole(volume)) => Err(volume),
        Err(VolumeLeft::Parts { .. }) => unreachable!(),
    }
}

/// Takes room in a pool for all pieces of a volume. The volume comes back as it was, with whether that is done.
fn reserve_volume<P: Piece + Drop>(
    pool: &mut Pool<P>,
    volume: Volume<P>,
) -> Result<Volume<P>, Volume<P>>
    requires { IsVolume (volume_seen P.seen volume) }
    ensures same { IfOk result (λ v. IsSameVolume P.seen volume v) }
    ensures back { IfErr result (λ v. IsSameVolume P.seen volume v) }
    ensures room { IfOk result (λ v. vec_len pool.new.items + length (held_pieces P.seen v) ≤ vec_capacity pool.new.items) }
    ensures pool { pool.new.items.items ≡ pool.old.items.items }
{
    let (shape, cells, log, scratch, most) = volume.into_cells();
    let room = reserve_parts(pool, &cells, &log);
    let volume = Volume::from_cells(shape, cells, log, scratch, most);
    match room {
        Ok(()) => Ok(volume),
        Err(_) => Err(volume),
    }
}

/// Takes room in a pool for all pieces of cells and of a log.
fn reserve_parts<P: Piece + Drop>(
    pool: &mut Pool<P>,
    cells: &[Cell<P>],
    log: &VolumeLog<P>,
) -> Result<(), OutOfMemory>
    ensures room { OnOk result (vec_len pool.new.items + (length (all_pieces (cell_plexes P.seen cells.now)) + length (log_pieces P.seen log.now)) ≤ vec_capacity pool.new.items) }
    ensures pool { pool.new.items.items ≡ pool.old.items.items }
{
    match pieces_beside(cells, log) {
        Some(more) => pool.reserve(more),
        None => Err(OutOfMemory),
    }
}

/// How many pieces the cells and the log have together, where a list may be as long.
fn pieces_beside<P: Piece>(cells: &[Cell<P>], log: &VolumeLog<P>) -> Option<usize>
    ensures { IfSome result (λ n. n ≡ length (all_pieces (cell_plexes P.seen cells.now)) + length (log_pieces P.seen log.now)) }
{
    let count = pieces_in(cells)?;
    match log {
        VolumeLog::Absent => Some(count),
        VolumeLog::Maps(store) => count.checked_add(store_pieces(store)?),
    }
}
