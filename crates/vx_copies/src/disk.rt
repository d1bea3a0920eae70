ghost use Rattle.std.specs.Prelude.{◌≡◌, ◌<◌, ◌≤◌, ◌^◌, length, map};
ghost use Rattle.vx_copies.specs.Disks.{disk_seen, Stamps, Stays, IsReady, HasSpare};
ghost use Rattle.vx_copies.specs.Pass.{IsPadded, HalfEnds, ToggleEnds};
ghost use Rattle.vx_copies.specs.Steps.{HalfPut, HalfDone, TogglePut, ToggleDone};

use vx_header::Toggle;
use vx_names::Name;
use vx_piece::{Piece, PieceFault};

/// The first sector of the first half, and the sectors of a half.
const HALVES: u64 = 2;

const HALF: u64 = 1020;

/// A disk of a group.
#[derive(Drop)]
pub struct Disk<P> {
    /// Its name in the group, of at most 24 characters.
    pub name: Name,
    /// The name of the device that it lies on.
    pub device: Name,
    /// The slot, below 32.
    pub slot: u8,
    /// The sectors of the whole device, 2,049 to 2^40.
    pub sectors: u64,
    /// Whether the next commit is written to it.
    pub good: bool,
    /// The half that its toggle names, 0 or 1; the other one is spare.
    pub half: u8,
    /// The device, or the front of it with the private region.
    pub piece: P,
}

/// How a pass over the disks ended.
#[derive(Clone, Copy, Debug, PartialEq, Eq)]
pub enum Pass {
    /// Each good disk was written.
    Done,
    /// A disk failed, and is not good any more.
    Dropped,
    /// The power is gone.
    Cut,
}

/// Writes the text into the spare half of a good disk.
pub fn put_half<P: Piece>(disk: &mut Disk<P>, text: &[u8], padded: &[u8]) -> Pass
    requires ready { IsReady (disk_seen P.seen disk.old) }
    requires padded { IsPadded text.now padded.now }
    ensures stays { Stays (disk_seen P.seen disk.old) (disk_seen P.seen disk.new) }
    ensures ends { HalfEnds result text.now (disk_seen P.seen disk.old) (disk_seen P.seen disk.new) }
    ensures put { HalfPut text.now (disk_seen P.seen disk.old) (disk_seen P.seen disk.new) }
    ensures done { result ≡ Pass.Done → HalfDone text.now (disk_seen P.seen disk.old) (disk_seen P.seen disk.new) }
{
    if !disk.good {
        return Pass::Done;
    }
    let at = HALVES + HALF * (1 - disk.half) as u64;
    match disk.piece.write(at, padded) {
        Ok(_) => Pass::Done,
        Err(PieceFault::Failed) => {
            disk.good = false;
            Pass::Dropped
        }
        Err(PieceFault::PowerLost) => Pass::Cut,
    }
}

/// Writes the toggle of a good disk, which then names the half that was spare.
pub fn put_toggle<P: Piece>(
    disk: &mut Disk<P>,
    sequence: u64,
    mask: u32,
    text: &[u8],
    sector: &mut [u8],
) -> Pass
    requires ready { IsReady (disk_seen P.seen disk.old) }
    requires spare { HasSpare text.now (disk_seen P.seen disk.old) }
    requires some { 0 < sequence }
    requires fits { length text.now ≤ 522240 }
    requires size { length sector.old ≡ 512 }
    ensures size { length sector.new ≡ 512 }
    ensures stamps { Stamps sequence mask text.now (disk_seen P.seen disk.old) (disk_seen P.seen disk.new) }
    ensures ends { ToggleEnds result sequence mask text.now (disk_seen P.seen disk.old) (disk_seen P.seen disk.new) }
    ensures put { TogglePut sequence mask text.now (disk_seen P.seen disk.old) (disk_seen P.seen disk.new) }
    ensures done { result ≡ Pass.Done → ToggleDone sequence mask text.now (disk_seen P.seen disk.old) (disk_seen P.seen disk.new) }
{
    if !disk.good {
        return Pass::Done;
    }
    let half = 1 - disk.half;
    let toggle = Toggle {
        sequence,
        half,
        length: text.len() as u32,
        good: mask,
    };
    toggle.put(sector);
    match disk.piece.write(1, sector) {
        Ok(_) => {
            disk.half = half;
            Pass::Done
        }
        Err(PieceFault::Failed) => {
            disk.good = false;
            Pass::Dropped
        }
        Err(PieceFault::PowerLost) => Pass::Cut,
    }
}
