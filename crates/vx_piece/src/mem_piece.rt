ghost use Rattle.std.specs.Prelude.{◌≡◌, ℕ, ◌+◌, ◌-◌, ◌*◌, ◌/◌, ◌%◌, ◌^◌, ◌<◌, ◌≤◌, ◌++◌, ◌↔◌, ◌⊎◌, Some, true, false, IsTrue, IsErr, IsSome, IfSome, IfOk, IfErr, OnOk, if◌then◌else◌, is_ok, length, take, drop, vec_len};
ghost use Rattle.vx_base.specs.Blocks.{AreBlocks, block_at, blocks_in};
ghost use Rattle.vx_base.specs.Counts.{later_count};
ghost use Rattle.vx_piece.specs.Device.{new_device};
ghost use Rattle.vx_piece.specs.Seen.{IsInside, Keeps, IsRead, CountsRead, IsWritten, IsOff, HasCause, IsSplit, IsNeighbour, IsJoined};

use crate::bad::{bads_in, touch};
use crate::{Bad, Piece, PieceFault};
use std::alloc::Global;
use vx_base::{BLOCK, OutOfMemory};

/// How often a piece has failed, and how many sectors were handed to its `write` and to its `read`.
#[derive(Clone, Copy, Debug, PartialEq, Eq)]
pub struct Counts {
    pub faults: u64,
    pub writes: u64,
    pub reads: u64,
}

/// A run of sectors of a device in memory, which fails where its Bads say so.
#[derive(Drop)]
pub struct MemPiece {
    device: u32,
    start: u64,
    bytes: Vec<u8>,
    bad: Vec<Bad>,
    faults: u64,
    writes: u64,
    reads: u64,
    stop: Option<u64>,
    ghost whole: { vec_len bytes % 512 ≡ 0 },
    ghost on_device: { start + vec_len bytes / 512 < 2 ^ 64 },
    pub ghost counted: { (faults < 2 ^ 64) × (writes < 2 ^ 64) × (reads < 2 ^ 64) },
}

impl MemPiece {
    ghost use Rattle.vx_piece.specs.MemPiece.{mem_seen, bads_of};

    /// A whole device that holds these bytes.
    pub fn new(device: u32, bytes: Vec<u8>, bad: Vec<Bad>) -> Option<MemPiece>
        ensures form { IsSome result ↔ ((0 < vec_len bytes) × (vec_len bytes % 512 ≡ 0)) }
        ensures seen { IfSome result (λ p. mem_seen p ≡ new_device device bytes.items) }
        ensures bads { IfSome result (λ p. bads_of p ≡ bad.items) }
    {
        if bytes.is_empty() || bytes.len() % BLOCK != 0 {
            return None;
        }
        Some(MemPiece {
            device,
            start: 0,
            bytes,
            bad,
            faults: 0,
            writes: 0,
            reads: 0,
            stop: None,
        })
    }

    pub fn counts(&self) -> Counts
        ensures faults { result.faults ≡ (mem_seen self.now).faults }
        ensures writes { result.writes ≡ (mem_seen self.now).writes }
        ensures reads { result.reads ≡ (mem_seen self.now).reads }
    {
        Counts {
            faults: self.faults,
            writes: self.writes,
            reads: self.reads,
        }
    }

    /// What its sectors hold.
    pub fn bytes(&self) -> &[u8]
        ensures told { (mem_seen self.now).told ≡ Some (block_at result.now) }
        ensures sectors { (mem_seen self.now).sectors ≡ blocks_in result.now }
    {
        self.bytes.as_slice()
    }
}

impl MemPiece {
    ghost use Rattle.vx_piece.specs.MemPiece.{mem_seen};

    /// The empty run behind its last sector, with its count of faults.
    pub fn end(&self, alloc: Global) -> MemPiece
        ensures device { (mem_seen result).device ≡ (mem_seen self.now).device }
        ensures start { (mem_seen result).start ≡ (mem_seen self.now).start + (mem_seen self.now).sectors }
        ensures empty { (mem_seen result).sectors ≡ 0 }
        ensures faults { (mem_seen result).faults ≡ (mem_seen self.now).faults }
    {
        MemPiece {
            device: self.device,
            start: self.start + self.sectors(),
            bytes: Vec::new(alloc),
            bad: Vec::new(alloc),
            faults: self.faults,
            writes: 0,
            reads: 0,
            stop: None,
        }
    }
}

impl Piece for MemPiece {
    ghost use Rattle.vx_piece.specs.MemPiece.{mem_seen, bads_of, good_of, HasCounted, WritesGood, PartsBads};
    ghost use Rattle.std.proofs.Common.{ap, arith};
    ghost use Rattle.std.proofs.lemmas.List.{drop_all};

    ghost seen = { mem_seen };

    ghost ends = { λ p k le. ap (take 512) (drop_all (512 * k) p.bytes.items (Prim.omega (arith, p.whole, le))) };

    ghost counts = { λ p. record { faults = p.counted.0; writes = p.counted.1; reads = p.counted.2 } };

    fn device(&self) -> u32 {
        self.device
    }

    fn start(&self) -> u64 {
        self.start
    }

    fn sectors(&self) -> u64 {
        (self.bytes.len() / BLOCK) as u64
    }

    fn read(&mut self, at: u64, into: &mut [u8]) -> Result<(), PieceFault>
        requires { IsInside (mem_seen self.old) at (length into.old) }
        ensures kept { Keeps (mem_seen self.old) (mem_seen self.new) }
        ensures same { IsRead (mem_seen self.old) (mem_seen self.new) }
        ensures counted { CountsRead into.old (mem_seen self.old) (mem_seen self.new) }
        ensures ok { OnOk result (IfSome (mem_seen self.old).told (λ contents. AreBlocks into.new contents at)) }
        ensures off { IsTrue (mem_seen self.old).cut → IsOff (mem_seen self.old) (mem_seen self.new) result }
        ensures cause { HasCause (mem_seen self.old) (mem_seen self.new) result }

        // It fails exactly where a Bad makes it fail, and each failure is counted once.
        ensures fails { IsErr result ↔ (good_of self.old at (length into.old) false < length into.old / 512) }
        ensures bads { HasCounted at (length into.old) false self.old self.new }
        ensures faults { (mem_seen self.new).faults ≡ later_count (mem_seen self.old).faults (if is_ok result then 0 else 1) }
    {
        let count = (into.len() / BLOCK) as u64;
        self.reads = self.reads.saturating_add(count);
        if touch(&mut self.bad, self.start + at, count, false) < count {
            return Err(failed(&mut self.faults));
        }
        copy_out(&self.bytes, at as usize, into);
        Ok(())
    }

    fn write(&mut self, at: u64, from: &[u8]) -> Result<(), PieceFault>
        requires { IsInside (mem_seen self.old) at (length from.now) }
        ensures kept { Keeps (mem_seen self.old) (mem_seen self.new) }
        ensures told { IsWritten at from.now (mem_seen self.old) (mem_seen self.new) result }
        ensures off { IsTrue (mem_seen self.old).cut → IsOff (mem_seen self.old) (mem_seen self.new) result }
        ensures cause { HasCause (mem_seen self.old) (mem_seen self.new) result }

        // It fails exactly where a Bad makes it fail, after the sectors before it, and each failure is counted once.
        ensures fails { IsErr result ↔ (good_of self.old at (length from.now) true < length from.now / 512) }
        ensures good { WritesGood at from.now (good_of self.old at (length from.now) true) self.old self.new }
        ensures bads { HasCounted at (length from.now) true self.old self.new }
        ensures faults { (mem_seen self.new).faults ≡ later_count (mem_seen self.old).faults (if is_ok result then 0 else 1) }
    {
        let count = (from.len() / BLOCK) as u64;
        self.writes = self.writes.saturating_add(count);
        let good = touch(&mut self.bad, self.start + at, count, true);
        copy_in(&mut self.bytes, at as usize, from, good as usize);
        if good < count {
            return Err(failed(&mut self.faults));
        }
        Ok(())
    }

    fn split(
        mut self,
        alloc: Global,
        at: u64,
    ) -> Result<(MemPiece, MemPiece), (MemPiece, OutOfMemory)>
        requires some { 0 < at }
        requires inside { at < (mem_seen self).sectors }
        ensures parts { IfOk result (λ x. IsSplit at (mem_seen self) (mem_seen x.0) (mem_seen x.1)) }
        ensures kept { IfErr result (λ x. mem_seen x.0 ≡ mem_seen self) }

        // Each part has the Bads that overlap it, cut to it; after a refusal they are as before.
        ensures bads { IfOk result (λ x. PartsBads at self x.0 x.1) }
        ensures kept_bads { IfErr result (λ x. bads_of x.0 ≡ bads_of self) }
    {
        let behind = self.sectors() - at;
        let Ok(front) = bads_in(alloc, &self.bad, self.start, at) else {
            return Err((self, OutOfMemory));
        };
        let Ok(back) = bads_in(alloc, &self.bad, self.start + at, behind) else {
            return Err((self, OutOfMemory));
        };
        let Ok(bytes) = tail_of(alloc, &self.bytes, at as usize) else {
            return Err((self, OutOfMemory));
        };
        let second = MemPiece {
            device: self.device,
            start: self.start + at,
            bytes,
            bad: back,
            faults: 0,
            writes: 0,
            reads: 0,
            stop: self.stop,
        };
        keep_front(&mut self.bytes, at as usize);
        self.bad = front;
        Ok((self, second))
    }

    fn join(
        mut self,
        _alloc: Global,
        mut next: MemPiece,
    ) -> Result<MemPiece, (MemPiece, MemPiece, OutOfMemory)>
        requires { IsNeighbour (mem_seen self) (mem_seen next) }
        ensures joined { IfOk result (λ x. IsJoined (mem_seen self) (mem_seen next) (mem_seen x)) }
        ensures first { IfErr result (λ x. mem_seen x.0 ≡ mem_seen self) }
        ensures second { IfErr result (λ x. mem_seen x.1 ≡ mem_seen next) }

        // The Bads of the first are followed by those of the second; after a refusal both are as before.
        ensures bads { IfOk result (λ x. bads_of x ≡ bads_of self ++ bads_of next) }
        ensures first_bads { IfErr result (λ x. bads_of x.0 ≡ bads_of self) }
        ensures second_bads { IfErr result (λ x. bads_of x.1 ≡ bads_of next) }
    {
        if self.bad.reserve(next.bad.len()).is_err() {
            return Err((self, next, OutOfMemory));
        }
        if self.bytes.append(&mut next.bytes).is_err() {
            return Err((self, next, OutOfMemory));
        }
        let _ = self.bad.append(&mut next.bad);
        self.faults = self.faults.saturating_add(next.faults);
        self.writes = self.writes.saturating_add(next.writes);
        self.reads = self.reads.saturating_add(next.reads);
        Ok(self)
    }

    fn arm(&mut self, stop: Option<u64>) {
        self.stop = stop;
    }
}

/// Counts a failure.
fn failed(faults: &mut u64) -> PieceFault
    ensures counted { faults.new ≡ later_count faults.old 1 }
    ensures answer { result ≡ PieceFault.Failed }
{
    *faults = faults.saturating_add(1);
    PieceFault::Failed
}

/// The bytes behind the first `at` sectors.
fn tail_of(alloc: Global, bytes: &Vec<u8>, at: usize) -> Result<Vec<u8>, OutOfMemory>
    requires { 512 * at ≤ vec_len bytes.now }
    ensures { IfOk result (λ tail. tail.items ≡ drop (512 * at) bytes.now.items) }
{
    Ok(Vec::from_slice(alloc, &bytes[BLOCK * at..])?)
}

/// Lets the bytes behind the first `at` sectors go, and their memory where it is more than half: a run that is cut from
/// its end again and again is so moved seldom.
fn keep_front(bytes: &mut Vec<u8>, at: usize)
    requires { 512 * at ≤ vec_len bytes.old }
    ensures { bytes.new.items ≡ take (512 * at) bytes.old.items }
{
    bytes.truncate(BLOCK * at);
    if bytes.len() < bytes.capacity() / 2 {
        bytes.shrink_to_fit();
    }
}

/// Copies the sectors from `at` on.
fn copy_out(bytes: &[u8], at: usize, into: &mut [u8])
    requires { 512 * at + length into.old ≤ length bytes.now }
    ensures { into.new ≡ take (length into.old) (drop (512 * at) bytes.now) }
{
    let start = BLOCK * at;
    into.copy_from_slice(&bytes[start..start + into.len()]);
}

/// Copies the first `good` sectors to those from `at` on.
fn copy_in(bytes: &mut Vec<u8>, at: usize, from: &[u8], good: usize)
    requires fits { 512 * at + length from.now ≤ vec_len bytes.old }
    requires some { 512 * good ≤ length from.now }
    ensures items { bytes.new.items ≡ take (512 * at) bytes.old.items ++ take (512 * good) from.now ++ drop (512 * at + 512 * good) bytes.old.items }
    ensures len { vec_len bytes.new ≡ vec_len bytes.old }
{
    let start = BLOCK * at;
    let count = BLOCK * good;
    bytes[start..start + count].copy_from_slice(&from[..count]);
}
