ghost use Rattle.std.specs.Prelude.{◌≡◌, List, [], ◌++◌, map, IfOk, IfErr, OnOk};
ghost use Rattle.vx_piece.specs.Seen.{AreCounts, EndsThere, Seen};
ghost use Rattle.vx_confdb.specs.Groups.{IsGroup, members};
ghost use Rattle.vx_copies.specs.Disks.{disk_seen};
ghost use Rattle.vx_copies.specs.Lists.{AllOf};
ghost use Rattle.vx_fronts.specs.Forms.{HasForm};
ghost use Rattle.vx_fronts.specs.Laws.{whole_disks};
ghost use Rattle.vx_fronts.specs.Parted.{AreParted, AreSameWhole, IsCutShort, IsJoinable, IsWhole, Reparts, RepartsOne, fronts_of};
ghost use Rattle.vx_fronts.specs.Rests.{AllTell, rests_of, untold};

use crate::disk::{close_disk, open_disk};
use std::alloc::Global;
use vx_base::OutOfMemory;
use vx_carve::Pool;
use vx_confdb::Group;
use vx_copies::Disk;
use vx_piece::Piece;

/// What becomes of the devices of disks: each is parted, or joined again.
#[derive(Clone, Copy, Debug, PartialEq, Eq)]
enum Parting {
    Open,
    Close,
}

/// Parts the device of each disk behind its private region, and puts what is behind into the pool. After a refusal some are
/// parted and others not.
pub fn open_group<P: Piece + Drop>(
    alloc: Global,
    group: &mut Group<P>,
    pool: &mut Pool<P>,
) -> Result<(), OutOfMemory>
    ensures group { group.new ≡ record group.old { disks = group.new.disks } }
    ensures alive { IsGroup P.seen group.old → IsGroup P.seen group.new }
    ensures parts { Reparts (members P.seen group.old) (members P.seen group.new) (map P.seen pool.old.items.items) (map P.seen pool.new.items.items) }
    ensures same { (lent : List Seen) → AreParted (members P.seen group.old) (map P.seen pool.old.items.items ++ lent) →
        AreSameWhole lent (members P.seen group.old) (members P.seen group.new) (map P.seen pool.old.items.items) (map P.seen pool.new.items.items) }
    ensures opened { OnOk result (AllOf IsCutShort (members P.seen group.new)) }
{
    each_piece_ends::<P>();
    let disks = group.swap_disks(Vec::new(alloc));
    let (disks, result) = part_disks(alloc, disks, pool, Parting::Open);
    let _none = group.swap_disks(disks);
    result
}

/// Joins the front of each disk with all sectors of its device, which are in the pool. After a refusal some are joined and
/// others not.
pub fn close_group<P: Piece + Drop>(
    alloc: Global,
    group: &mut Group<P>,
    pool: &mut Pool<P>,
) -> Result<(), OutOfMemory>
    requires parted { AreParted (members P.seen group.old) (map P.seen pool.old.items.items) }
    ensures group { group.new ≡ record group.old { disks = group.new.disks } }
    ensures alive { IsGroup P.seen group.old → IsGroup P.seen group.new }
    ensures same { AreSameWhole [] (members P.seen group.old) (members P.seen group.new) (map P.seen pool.old.items.items) (map P.seen pool.new.items.items) }
    ensures closed { OnOk result (AllOf IsWhole (members P.seen group.new)) }
    ensures empty { OnOk result (pool.new.items.items ≡ []) }
    ensures counts { OnOk result (map untold (members P.seen group.new) ≡ map untold (whole_disks (rests_of (map P.seen pool.old.items.items) []) (members P.seen group.old))) }
    ensures whole { OnOk result (AllTell (fronts_of (members P.seen group.old)) → members P.seen group.new ≡ whole_disks (rests_of (map P.seen pool.old.items.items) []) (members P.seen group.old)) }
{
    each_piece_ends::<P>();
    let disks = group.swap_disks(Vec::new(alloc));
    let (disks, result) = part_disks(alloc, disks, pool, Parting::Close);
    let _none = group.swap_disks(disks);
    result
}

/// Parts or joins the device of each disk, in their order. It goes on behind one that could not be.
fn part_disks<P: Piece + Drop>(
    alloc: Global,
    disks: Vec<Disk<P>>,
    pool: &mut Pool<P>,
    parting: Parting,
) -> (Vec<Disk<P>>, Result<(), OutOfMemory>)
    requires joinable { parting ≡ Parting.Close → AreParted (map (disk_seen P.seen) disks.items) (map P.seen pool.old.items.items) }
    ensures parts { Reparts (map (disk_seen P.seen) disks.items) (map (disk_seen P.seen) result.0.items) (map P.seen pool.old.items.items) (map P.seen pool.new.items.items) }
    ensures formed { OnOk result.1 (AllOf (HasForm parting) (map (disk_seen P.seen) result.0.items)) }
{
    let Ok(mut parted) = Vec::with_capacity(alloc, disks.len()) else {
        return (disks, Err(OutOfMemory));
    };
    let mut left = disks;
    left.reverse();
    let mut result = Ok(());
    'left: while let Some(disk) = left.pop() {
        match part_disk(alloc, disk, pool, parting) {
            Ok(disk) => parted.push_reserved(disk),
            Err((disk, _)) => {
                parted.push_reserved(disk);
                result = Err(OutOfMemory);
            }
        }
    }
    (parted, result)
}

/// Parts or joins the device of a disk.
fn part_disk<P: Piece + Drop>(
    alloc: Global,
    disk: Disk<P>,
    pool: &mut Pool<P>,
    parting: Parting,
) -> Result<Disk<P>, (Disk<P>, OutOfMemory)>
    requires joinable { parting ≡ Parting.Close → IsJoinable (disk_seen P.seen disk) (map P.seen pool.old.items.items) }
    ensures formed { IfOk result (λ d. HasForm parting (disk_seen P.seen d)) }
    ensures parts { IfOk result (λ d. RepartsOne (disk_seen P.seen disk) (disk_seen P.seen d) (map P.seen pool.old.items.items) (map P.seen pool.new.items.items)) }
    ensures kept { IfErr result (λ x. RepartsOne (disk_seen P.seen disk) (disk_seen P.seen x.0) (map P.seen pool.old.items.items) (map P.seen pool.new.items.items)) }
{
    match parting {
        Parting::Open => open_disk(alloc, disk, pool),
        Parting::Close => close_disk(alloc, disk, pool),
    }
}

/// Nothing is told behind the last sector of a piece, and its counts are numbers of 64 bits: laws of pieces, said to callers.
fn each_piece_ends<P: Piece>()
    ensures ends { (p : P) → EndsThere (P.seen p) }
    ensures counts { (p : P) → AreCounts (P.seen p) }
{}
