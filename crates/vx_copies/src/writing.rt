ghost use Rattle.std.specs.Prelude.{◌≡◌, ◌+◌, ◌-◌, ◌<◌, ◌≤◌, ◌^◌, ℕ, List, length, map, take, false, true, OnOk};
ghost use Rattle.vx_base.specs.Named.{Word};
ghost use Rattle.vx_mask.specs.Mask.{has};
ghost use Rattle.vx_copies.specs.Lists.{Each, AllOf};
ghost use Rattle.vx_copies.specs.Disks.{disk_seen, CommitGoes, HasSlot, IsReady, IsBelow, good_count, is_good_slot, good_mask};
ghost use Rattle.vx_copies.specs.Config.{GivesOldOrNew, GivesNew, IsOlder};
ghost use Rattle.vx_copies.specs.Chain.{Copy, AreInOrder, IsGoodMember, IsLed, IsOrdered, IsSound};
ghost use Rattle.vx_copies.specs.Commit.{AttemptEnds, CommitEnds};
ghost use Rattle.vx_copies.specs.Pass.{IsPadded};
ghost use Rattle.vx_copies.specs.Written.{Touches, IsMaskOf, CarriesIfGood, IsQuiet, sectors_of, WritesJust, Recorded, IsDone};

use crate::Disk;
use crate::disk::Pass;
use crate::pass::{put_halves, put_toggles};
use vx_piece::Piece;

/// Why a commit was not done.
#[derive(Clone, Copy, Debug, PartialEq, Eq)]
pub enum Lost {
    /// No disk that was good is good any more.
    GroupLost,
    /// The power is gone.
    PowerLost,
}

/// The slots of the good disks.
pub fn good_slots<P: Piece>(disks: &[Disk<P>]) -> u32
    requires slots { AllOf HasSlot (map (disk_seen P.seen) disks.now) }
    ensures names { (slot : ℕ) → has result slot ≡ is_good_slot slot (map (disk_seen P.seen) disks.now) }
    ensures just { result ≡ good_mask (map (disk_seen P.seen) disks.now) }
{
    match disks {
        [] => 0,
        [first, rest @ ..] => {
            let others = good_slots(rest);
            if first.good {
                others | 1 << first.slot
            } else {
                others
            }
        }
    }
}

fn any_good<P: Piece>(disks: &[Disk<P>]) -> bool
    ensures none { result ≡ false → AllOf (λ h. h.good ≡ false) (map (disk_seen P.seen) disks.now) }
    ensures some { result ≡ true → 0 < good_count (map (disk_seen P.seen) disks.now) }
{
    match disks {
        [] => false,
        [first, rest @ ..] => first.good || any_good(rest),
    }
}

/// One pass of halves and then one of toggles, under one sequence.
fn attempt<P: Piece>(
    disks: &mut [Disk<P>],
    sequence: u64,
    text: &[u8],
    padded: &[u8],
    sector: &mut [u8],
) -> Pass
    requires ready { AllOf IsReady (map (disk_seen P.seen) disks.old) }
    requires padded { IsPadded text.now padded.now }
    requires some { 0 < sequence }
    requires size { length sector.old ≡ 512 }
    ensures size { length sector.new ≡ 512 }
    ensures goes { Each (CommitGoes sequence sequence text.now) (map (disk_seen P.seen) disks.old) (map (disk_seen P.seen) disks.new) }
    ensures sound { (group : Word) (missing : ℕ) (others : List Copy) (last carriers : ℕ) → last < sequence → 0 < good_count (take carriers (map (disk_seen P.seen) disks.old)) → IsSound group missing others last carriers (map (disk_seen P.seen) disks.old) → IsSound group missing others sequence carriers (map (disk_seen P.seen) disks.new) }
    ensures all { (group : Word) (missing : ℕ) (others : List Copy) (last carriers : ℕ) → last < sequence → 0 < good_count (take carriers (map (disk_seen P.seen) disks.old)) → IsSound group missing others last carriers (map (disk_seen P.seen) disks.old) → result ≡ Pass.Done → IsSound group missing others sequence (length disks.old) (map (disk_seen P.seen) disks.new) }
    ensures order { (group : Word) (before last : ℕ) → last < sequence → IsOrdered group before last (map (disk_seen P.seen) disks.old) → IsOrdered group before sequence (map (disk_seen P.seen) disks.new) }
    ensures lead { (group : Word) (before carriers : ℕ) → before < sequence → 0 < good_count (take carriers (map (disk_seen P.seen) disks.old)) → AllOf (IsGoodMember group) (take carriers (map (disk_seen P.seen) disks.old)) → IsLed group before carriers (map (disk_seen P.seen) disks.old) → IsLed group before carriers (map (disk_seen P.seen) disks.new) }
    ensures ends { AttemptEnds result sequence text.now (map (disk_seen P.seen) disks.old) (map (disk_seen P.seen) disks.new) }
    ensures touches { Each (Touches sequence sequence text.now (IsMaskOf (map (disk_seen P.seen) disks.old) (map (disk_seen P.seen) disks.new))) (map (disk_seen P.seen) disks.old) (map (disk_seen P.seen) disks.new) }
    ensures done { result ≡ Pass.Done → Each (WritesJust (sectors_of text.now)) (map (disk_seen P.seen) disks.old) (map (disk_seen P.seen) disks.new) × AllOf (CarriesIfGood sequence (good_mask (map (disk_seen P.seen) disks.new)) text.now) (map (disk_seen P.seen) disks.new) }
{
    let mask = good_slots(disks);
    match put_halves(disks, text, padded) {
        Pass::Done => put_toggles(disks, sequence, mask, text, sector),
        stop => stop,
    }
}

/// Writes the text to all good disks. A disk that fails is not good any more, and all starts again on the rest, as long
/// as one of the first `carriers` disks is good.
fn commit_on<P: Piece>(
    disks: &mut [Disk<P>],
    carriers: usize,
    sequence: &mut u64,
    text: &[u8],
    padded: &[u8],
    sector: &mut [u8],
) -> Result<(), Lost>
    requires ready { AllOf IsReady (map (disk_seen P.seen) disks.old) }
    requires padded { IsPadded text.now padded.now }
    requires size { length sector.old ≡ 512 }
    requires count { length disks.old ≤ 32 }
    requires carriers { carriers ≤ length disks.old }
    requires low { sequence.old < 2 ^ 64 - 64 }
    ensures goes { Each (CommitGoes (sequence.old + 1) sequence.new text.now) (map (disk_seen P.seen) disks.old) (map (disk_seen P.seen) disks.new) }
    ensures ends { CommitEnds result carriers sequence.new text.now (map (disk_seen P.seen) disks.old) (map (disk_seen P.seen) disks.new) }
    ensures sound { (group : Word) (missing : ℕ) (others : List Copy) → IsSound group missing others sequence.old carriers (map (disk_seen P.seen) disks.old) → IsSound group missing others sequence.new carriers (map (disk_seen P.seen) disks.new) }
    ensures all { OnOk result ((group : Word) (missing : ℕ) (others : List Copy) → IsSound group missing others sequence.old carriers (map (disk_seen P.seen) disks.old) → IsSound group missing others sequence.new (length disks.old) (map (disk_seen P.seen) disks.new)) }
    ensures older { OnOk result ((group : Word) → AllOf (IsBelow group sequence.old) (map (disk_seen P.seen) disks.old) → AllOf (IsOlder group sequence.new) (map (disk_seen P.seen) disks.new)) }
    ensures order { (group : Word) (before : ℕ) → AllOf (IsBelow group before) (map (disk_seen P.seen) disks.old) → AreInOrder group before (map (disk_seen P.seen) disks.new) }
    ensures lead { (group : Word) (before : ℕ) → before ≤ sequence.old → AllOf (IsBelow group before) (map (disk_seen P.seen) disks.old) → AllOf (IsGoodMember group) (take carriers (map (disk_seen P.seen) disks.old)) → IsLed group before carriers (map (disk_seen P.seen) disks.new) }
    ensures more { sequence.old ≤ sequence.new }
    ensures next { OnOk result (sequence.old < sequence.new) }
    ensures recorded { Recorded (sequence.old + 1) sequence.new text.now (map (disk_seen P.seen) disks.old) (map (disk_seen P.seen) disks.new) }
    ensures done { OnOk result (IsDone carriers sequence.new text.now (map (disk_seen P.seen) disks.new)) }
    ensures exact { OnOk result (Each IsQuiet (map (disk_seen P.seen) disks.old) (map (disk_seen P.seen) disks.new) → Each (WritesJust (sectors_of text.now)) (map (disk_seen P.seen) disks.old) (map (disk_seen P.seen) disks.new)) }
    ensures few { sequence.new ≤ sequence.old + 32 }
{
    'again: while any_good(&disks[..carriers]) {
        *sequence += 1;
        match attempt(disks, *sequence, text, padded, sector) {
            Pass::Done => return Ok(()),
            Pass::Cut => return Err(Lost::PowerLost),
            Pass::Dropped => {}
        }
    }
    Err(Lost::GroupLost)
}

/// Writes the text as the configuration to all good disks. A disk that fails is not good any more, and the commit
/// starts again on the rest, as long as one of the first `carriers` disks is good. `padded` is the text with what fills
/// its last sector, and `sector` is room for one sector.
pub fn commit<P: Piece>(
    disks: &mut [Disk<P>],
    carriers: usize,
    sequence: &mut u64,
    text: &[u8],
    padded: &[u8],
    sector: &mut [u8],
) -> Result<(), Lost>
    requires ready { AllOf IsReady (map (disk_seen P.seen) disks.old) }
    requires padded { IsPadded text.now padded.now }
    requires size { length sector.old ≡ 512 }
    requires count { length disks.old ≤ 32 }
    requires carriers { carriers ≤ length disks.old }
    requires low { sequence.old < 2 ^ 64 - 64 }
    ensures old_or_new { (group : Word) → AllOf (IsBelow group sequence.old) (map (disk_seen P.seen) disks.old) → GivesOldOrNew group (sequence.old + 1) sequence.new text.now (map (disk_seen P.seen) disks.old) (map (disk_seen P.seen) disks.new) }
    ensures ok { (group : Word) → AllOf (IsBelow group sequence.old) (map (disk_seen P.seen) disks.old) → OnOk result (GivesNew group (sequence.old + 1) sequence.new text.now (map (disk_seen P.seen) disks.new)) }
    ensures below { (group : Word) → AllOf (IsBelow group sequence.old) (map (disk_seen P.seen) disks.old) → AllOf (IsBelow group sequence.new) (map (disk_seen P.seen) disks.new) }
    ensures ends { CommitEnds result carriers sequence.new text.now (map (disk_seen P.seen) disks.old) (map (disk_seen P.seen) disks.new) }
    ensures goes { Each (CommitGoes (sequence.old + 1) sequence.new text.now) (map (disk_seen P.seen) disks.old) (map (disk_seen P.seen) disks.new) }
    ensures sound { (group : Word) (missing : ℕ) (others : List Copy) → IsSound group missing others sequence.old carriers (map (disk_seen P.seen) disks.old) → IsSound group missing others sequence.new carriers (map (disk_seen P.seen) disks.new) }
    ensures all { OnOk result ((group : Word) (missing : ℕ) (others : List Copy) → IsSound group missing others sequence.old carriers (map (disk_seen P.seen) disks.old) → IsSound group missing others sequence.new (length disks.old) (map (disk_seen P.seen) disks.new)) }
    ensures order { (group : Word) (before : ℕ) → AllOf (IsBelow group before) (map (disk_seen P.seen) disks.old) → AreInOrder group before (map (disk_seen P.seen) disks.new) }
    ensures lead { (group : Word) (before : ℕ) → before ≤ sequence.old → AllOf (IsBelow group before) (map (disk_seen P.seen) disks.old) → AllOf (IsGoodMember group) (take carriers (map (disk_seen P.seen) disks.old)) → IsLed group before carriers (map (disk_seen P.seen) disks.new) }
    ensures more { sequence.old ≤ sequence.new }
    ensures recorded { Recorded (sequence.old + 1) sequence.new text.now (map (disk_seen P.seen) disks.old) (map (disk_seen P.seen) disks.new) }
    ensures done { OnOk result (IsDone carriers sequence.new text.now (map (disk_seen P.seen) disks.new)) }
    ensures exact { OnOk result (Each IsQuiet (map (disk_seen P.seen) disks.old) (map (disk_seen P.seen) disks.new) → Each (WritesJust (sectors_of text.now)) (map (disk_seen P.seen) disks.old) (map (disk_seen P.seen) disks.new)) }
    ensures few { sequence.new ≤ sequence.old + 32 }
{
    commit_on(disks, carriers, sequence, text, padded, sector)
}
