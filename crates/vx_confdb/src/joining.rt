ghost use Rattle.std.specs.Prelude.{◌≡◌, ◌<◌, ◌≤◌, length, map};
ghost use Rattle.vx_copies.specs.Lists.{Each, AllOf};
ghost use Rattle.vx_copies.specs.Disks.{disk_seen};
ghost use Rattle.vx_copies.specs.Written.{WritesJust};
ghost use Rattle.vx_confdb.specs.Prepare.{IsFresh, IsBlank, Fronts, Prepares, PrepareEnds, AllPrepared, AreJoined};

use vx_copies::Disk;
use vx_header::Header;
use vx_names::Name;
use vx_piece::{Piece, PieceFault};
use vx_sector::put_zeros;

/// How the writing of a first toggle and of a header ended.
#[derive(Clone, Copy, Debug, PartialEq, Eq)]
pub enum Prepared {
    /// The disk is a member of the group, or it failed and is not good any more.
    Done,
    /// The power is gone.
    Cut,
}

/// Makes each disk a member of a group that carries no configuration yet.
pub fn join_all<P: Piece>(disks: &mut Vec<Disk<P>>, group: &Name) -> Prepared
    requires fresh { AllOf (IsFresh P.seen group.now) disks.old.items }
    ensures joined { AreJoined result group.now (map (disk_seen P.seen) disks.old.items) (map (disk_seen P.seen) disks.new.items) }
    ensures long { length disks.new.items ≡ length disks.old.items }
{
    let mut sector = [0; 512];
    prepare_all(disks, group, &mut sector)
}

/// The same of one disk.
pub fn join_one<P: Piece>(disk: &mut Disk<P>, group: &Name) -> Prepared
    requires fresh { IsFresh P.seen group.now disk.old }
    ensures prepares { Prepares group.now (disk_seen P.seen disk.old) (disk_seen P.seen disk.new) }
    ensures ends { PrepareEnds result group.now (disk_seen P.seen disk.new) }
    ensures fronts { Fronts 2 (disk_seen P.seen disk.old) (disk_seen P.seen disk.new) }
    ensures just { result ≡ Prepared.Done → WritesJust 2 (disk_seen P.seen disk.old) (disk_seen P.seen disk.new) }
{
    let mut sector = [0; 512];
    prepare(disk, group, &mut sector)
}

fn prepare_all<P: Piece>(disks: &mut [Disk<P>], group: &Name, sector: &mut [u8]) -> Prepared
    requires fresh { AllOf (IsFresh P.seen group.now) disks.old }
    requires size { length sector.old ≡ 512 }
    ensures size { length sector.new ≡ 512 }
    ensures prepares { Each (Prepares group.now) (map (disk_seen P.seen) disks.old) (map (disk_seen P.seen) disks.new) }
    ensures ends { AllPrepared result group.now (map (disk_seen P.seen) disks.new) }
    ensures fronts { Each (Fronts 2) (map (disk_seen P.seen) disks.old) (map (disk_seen P.seen) disks.new) }
    ensures just { result ≡ Prepared.Done → Each (WritesJust 2) (map (disk_seen P.seen) disks.old) (map (disk_seen P.seen) disks.new) }
{
    let mut i = 0;
    'disks: while i < disks.len() {
        let disk = &mut disks[i];
        match prepare(disk, group, sector) {
            Prepared::Done => {}
            Prepared::Cut => return Prepared::Cut,
        }
        i += 1;
    }
    Prepared::Done
}

/// Makes a disk a member of a group that carries no configuration yet: a toggle of zeros, and then the header. No header
/// is written where the toggle could not be.
fn prepare<P: Piece>(disk: &mut Disk<P>, group: &Name, sector: &mut [u8]) -> Prepared
    requires fresh { IsFresh P.seen group.now disk.old }
    requires size { length sector.old ≡ 512 }
    ensures size { length sector.new ≡ 512 }
    ensures prepares { Prepares group.now (disk_seen P.seen disk.old) (disk_seen P.seen disk.new) }
    ensures ends { PrepareEnds result group.now (disk_seen P.seen disk.new) }
    ensures fronts { Fronts 2 (disk_seen P.seen disk.old) (disk_seen P.seen disk.new) }
    ensures just { result ≡ Prepared.Done → WritesJust 2 (disk_seen P.seen disk.old) (disk_seen P.seen disk.new) }
{
    put_zeros(512, 0, sector);
    match disk.piece.write(1, sector) {
        Ok(_) => put_header(disk, group, sector),
        Err(PieceFault::Failed) => {
            disk.good = false;
            Prepared::Done
        }
        Err(PieceFault::PowerLost) => Prepared::Cut,
    }
}

/// Writes the header of a disk whose toggle is zero.
fn put_header<P: Piece>(disk: &mut Disk<P>, group: &Name, sector: &mut [u8]) -> Prepared
    requires fresh { IsFresh P.seen group.now disk.old }
    requires blank { IsBlank (P.seen disk.old.piece).told }
    requires size { length sector.old ≡ 512 }
    ensures size { length sector.new ≡ 512 }
    ensures prepares { Prepares group.now (disk_seen P.seen disk.old) (disk_seen P.seen disk.new) }
    ensures ends { PrepareEnds result group.now (disk_seen P.seen disk.new) }
    ensures fronts { Fronts 1 (disk_seen P.seen disk.old) (disk_seen P.seen disk.new) }
    ensures just { result ≡ Prepared.Done → WritesJust 1 (disk_seen P.seen disk.old) (disk_seen P.seen disk.new) }
{
    let header = Header {
        group: *group,
        disk: disk.name,
        slot: disk.slot,
        sectors: disk.sectors,
    };
    header.put(sector);
    match disk.piece.write(0, sector) {
        Ok(_) => Prepared::Done,
        Err(PieceFault::Failed) => {
            disk.good = false;
            Prepared::Done
        }
        Err(PieceFault::PowerLost) => Prepared::Cut,
    }
}
