ghost use Rattle.std.specs.Prelude.{◌≡◌, map, IfOk, IfErr};
ghost use Rattle.vx_copies.specs.Disks.{disk_seen};
ghost use Rattle.vx_fronts.specs.Parted.{IsCutShort, IsJoinable, IsWhole, RepartsOne};

use std::alloc::Global;
use vx_base::OutOfMemory;
use vx_carve::{Pool, whole};
use vx_copies::Disk;
use vx_piece::Piece;

/// The sectors of the private region, which a front has.
const PRIVATE_SECTORS: u64 = 2048;

/// Puts what is behind the private region of a disk into the pool. After a refusal the disk is as before.
pub fn open_disk<P: Piece + Drop>(
    alloc: Global,
    disk: Disk<P>,
    pool: &mut Pool<P>,
) -> Result<Disk<P>, (Disk<P>, OutOfMemory)>
    ensures short { IfOk result (λ d. IsCutShort (disk_seen P.seen d)) }
    ensures parts { IfOk result (λ d. RepartsOne (disk_seen P.seen disk) (disk_seen P.seen d) (map P.seen pool.old.items.items) (map P.seen pool.new.items.items)) }
    ensures kept { IfErr result (λ x. RepartsOne (disk_seen P.seen disk) (disk_seen P.seen x.0) (map P.seen pool.old.items.items) (map P.seen pool.new.items.items)) }
{
    if disk.piece.sectors() <= PRIVATE_SECTORS {
        return Ok(disk);
    }
    if pool.reserve(1).is_err() {
        return Err((disk, OutOfMemory));
    }
    match disk.piece.split(alloc, PRIVATE_SECTORS) {
        Ok((front, rest)) => {
            let _ = pool.put(alloc, rest);
            Ok(Disk {
                piece: front,
                ..disk
            })
        }
        Err((piece, _)) => Err((Disk { piece, ..disk }, OutOfMemory)),
    }
}

/// Joins the front of a disk with all sectors behind it, which are in the pool.
pub fn close_disk<P: Piece + Drop>(
    alloc: Global,
    disk: Disk<P>,
    pool: &mut Pool<P>,
) -> Result<Disk<P>, (Disk<P>, OutOfMemory)>
    requires joinable { IsJoinable (disk_seen P.seen disk) (map P.seen pool.old.items.items) }
    ensures whole { IfOk result (λ d. IsWhole (disk_seen P.seen d)) }
    ensures parts { IfOk result (λ d. RepartsOne (disk_seen P.seen disk) (disk_seen P.seen d) (map P.seen pool.old.items.items) (map P.seen pool.new.items.items)) }
    ensures kept { IfErr result (λ x. RepartsOne (disk_seen P.seen disk) (disk_seen P.seen x.0) (map P.seen pool.old.items.items) (map P.seen pool.new.items.items)) }
{
    match whole(pool, alloc, disk.piece, disk.sectors) {
        Ok(piece) => Ok(Disk { piece, ..disk }),
        Err((piece, _)) => Err((Disk { piece, ..disk }, OutOfMemory)),
    }
}
