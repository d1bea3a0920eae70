ghost use Rattle.std.specs.Prelude.{◌≡◌, ◌+◌, ◌-◌, ◌*◌, ◌<◌, ◌≤◌, ◌^◌, ℕ, length, map};
ghost use Rattle.vx_copies.specs.Lists.{Each, AllOf};
ghost use Rattle.vx_copies.specs.Disks.{disk_seen, Stays, Stamps, IsReady, HasSpare};
ghost use Rattle.vx_copies.specs.Pass.{IsPadded, HalvesEnd, TogglesEnd, FirstTells, TurnsFirst};
ghost use Rattle.vx_copies.specs.Steps.{HalfPut, HalfDone, TogglePut, ToggleDone};

use crate::Disk;
use crate::disk::{Pass, put_half, put_toggle};
use vx_piece::Piece;

/// Writes the spare half of each good disk, up to the first that fails.
pub fn put_halves<P: Piece>(disks: &mut [Disk<P>], text: &[u8], padded: &[u8]) -> Pass
    requires ready { AllOf IsReady (map (disk_seen P.seen) disks.old) }
    requires padded { IsPadded text.now padded.now }
    ensures stays { Each Stays (map (disk_seen P.seen) disks.old) (map (disk_seen P.seen) disks.new) }
    ensures ends { HalvesEnd result text.now (map (disk_seen P.seen) disks.old) (map (disk_seen P.seen) disks.new) }
    ensures puts { Each (HalfPut text.now) (map (disk_seen P.seen) disks.old) (map (disk_seen P.seen) disks.new) }
    ensures done { result ≡ Pass.Done → Each (HalfDone text.now) (map (disk_seen P.seen) disks.old) (map (disk_seen P.seen) disks.new) }
{
    let mut i = 0;
    'halves: while i < disks.len() {
        let disk = &mut disks[i];
        match put_half(disk, text, padded) {
            Pass::Done => {}
            stop => return stop,
        }
        i += 1;
    }
    Pass::Done
}

/// Writes the toggle of each good disk, up to the first that fails.
pub fn put_toggles<P: Piece>(
    disks: &mut [Disk<P>],
    sequence: u64,
    mask: u32,
    text: &[u8],
    sector: &mut [u8],
) -> Pass
    requires ready { AllOf IsReady (map (disk_seen P.seen) disks.old) }
    requires spare { AllOf (HasSpare text.now) (map (disk_seen P.seen) disks.old) }
    requires some { 0 < sequence }
    requires fits { length text.now ≤ 522240 }
    requires size { length sector.old ≡ 512 }
    ensures size { length sector.new ≡ 512 }
    ensures stamps { Each (Stamps sequence mask text.now) (map (disk_seen P.seen) disks.old) (map (disk_seen P.seen) disks.new) }
    ensures first { FirstTells (map (disk_seen P.seen) disks.old) → TurnsFirst sequence mask text.now (map (disk_seen P.seen) disks.old) (map (disk_seen P.seen) disks.new) }
    ensures ends { TogglesEnd result sequence mask text.now (map (disk_seen P.seen) disks.old) (map (disk_seen P.seen) disks.new) }
    ensures puts { Each (TogglePut sequence mask text.now) (map (disk_seen P.seen) disks.old) (map (disk_seen P.seen) disks.new) }
    ensures done { result ≡ Pass.Done → Each (ToggleDone sequence mask text.now) (map (disk_seen P.seen) disks.old) (map (disk_seen P.seen) disks.new) }
{
    let mut i = 0;
    'toggles: while i < disks.len() {
        let disk = &mut disks[i];
        match put_toggle(disk, sequence, mask, text, sector) {
            Pass::Done => {}
            stop => return stop,
        }
        i += 1;
    }
    Pass::Done
}
