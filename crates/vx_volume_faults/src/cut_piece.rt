ghost use Rattle.std.specs.Prelude.{◌≡◌, ◌<◌, ◌^◌, ◌||◌, false, length};
ghost use Rattle.vx_base.specs.Counts.{later_count};
ghost use Rattle.vx_piece.specs.MemPiece.{mem_seen};
ghost use Rattle.vx_piece.specs.Seen.{IsInside, Keeps};

use crate::clock::{Clock, Leaves, Power};
use std::alloc::Global;
use vx_base::{BLOCK, OutOfMemory};
use vx_piece::{MemPiece, Piece, PieceFault};

/// A run of sectors of a device in memory that is cut once the power is gone. It does not tell what it holds.
#[derive(Drop)]
pub struct CutPiece<'c> {
    pub memory: MemPiece,
    clock: &'c Clock,
    supply: Supply,
}

/// Whether a piece has met that the power is gone, and how many sectors it was handed before.
#[derive(Clone, Copy)]
struct Supply {
    cut: bool,
    writes: u64,
    reads: u64,
    ghost counted: { (writes < 2 ^ 64) × (reads < 2 ^ 64) },
}

impl Supply {
    /// Of a piece that no call has met.
    fn new(cut: bool) -> Supply
        ensures cut { result.cut ≡ cut }
        ensures writes { result.writes ≡ 0 }
        ensures reads { result.reads ≡ 0 }
    {
        Supply {
            cut,
            writes: 0,
            reads: 0,
        }
    }

    /// Of two pieces that are joined.
    fn and(self, next: Supply) -> Supply
        ensures cut { result.cut ≡ (self.cut || next.cut) }
        ensures writes { result.writes ≡ later_count self.writes next.writes }
        ensures reads { result.reads ≡ later_count self.reads next.reads }
    {
        Supply {
            cut: self.cut || next.cut,
            writes: self.writes.saturating_add(next.writes),
            reads: self.reads.saturating_add(next.reads),
        }
    }
}

impl<'c> CutPiece<'c> {
    ghost use Rattle.vx_volume_faults.specs.Cut.{cut_seen, new_cut};

    /// One that no call has met since the power was there.
    pub fn new(memory: MemPiece, clock: &'c Clock) -> CutPiece<'c>
        ensures { cut_seen result ≡ new_cut (mem_seen memory) }
    {
        CutPiece {
            memory,
            clock,
            supply: Supply::new(false),
        }
    }
}

impl<'c> Piece for CutPiece<'c> {
    ghost use Rattle.vx_volume_faults.specs.Cut.{cut_seen};

    ghost seen = { cut_seen };

    ghost ends = { λ p. tt };

    ghost counts = { λ p. record { faults = p.memory.counted.0; writes = p.supply.counted.0; reads = p.supply.counted.1 } };

    fn device(&self) -> u32 {
        self.memory.device()
    }

    fn start(&self) -> u64 {
        self.memory.start()
    }

    fn sectors(&self) -> u64 {
        self.memory.sectors()
    }

    fn read(&mut self, at: u64, into: &mut [u8]) -> Result<(), PieceFault> {
        if self.supply.cut {
            return Err(PieceFault::PowerLost);
        }
        let count = (into.len() / BLOCK) as u64;
        self.supply.reads = self.supply.reads.saturating_add(count);
        if self.clock.call(0) == Power::On {
            return self.memory.read(at, into);
        }
        self.supply.cut = true;
        Err(PieceFault::PowerLost)
    }

    fn write(&mut self, at: u64, from: &[u8]) -> Result<(), PieceFault> {
        if self.supply.cut {
            return Err(PieceFault::PowerLost);
        }
        let count = (from.len() / BLOCK) as u64;
        self.supply.writes = self.supply.writes.saturating_add(count);
        match self.clock.call(count) {
            Power::On => return self.memory.write(at, from),
            Power::Goes => write_part(&mut self.memory, at, from, self.clock.leaves),
            Power::Gone => {}
        }
        self.supply.cut = true;
        Err(PieceFault::PowerLost)
    }

    fn split(
        self,
        alloc: Global,
        at: u64,
    ) -> Result<(CutPiece<'c>, CutPiece<'c>), (CutPiece<'c>, OutOfMemory)> {
        let CutPiece {
            memory,
            clock,
            supply,
        } = self;
        match memory.split(alloc, at) {
            Ok((front, back)) => Ok((
                CutPiece {
                    memory: front,
                    clock,
                    supply,
                },
                CutPiece {
                    memory: back,
                    clock,
                    supply: Supply::new(supply.cut),
                },
            )),
            Err((memory, error)) => Err((
                CutPiece {
                    memory,
                    clock,
                    supply,
                },
                error,
            )),
        }
    }

    fn join(
        self,
        alloc: Global,
        next: CutPiece<'c>,
    ) -> Result<CutPiece<'c>, (CutPiece<'c>, CutPiece<'c>, OutOfMemory)> {
        let CutPiece {
            memory,
            clock,
            supply,
        } = self;
        let behind = next.supply;
        match memory.join(alloc, next.memory) {
            Ok(memory) => Ok(CutPiece {
                memory,
                clock,
                supply: supply.and(behind),
            }),
            Err((memory, next, error)) => Err((
                CutPiece {
                    memory,
                    clock,
                    supply,
                },
                CutPiece {
                    memory: next,
                    clock,
                    supply: behind,
                },
                error,
            )),
        }
    }

    fn arm(&mut self, stop: Option<u64>) {
        if !self.supply.cut {
            self.memory.arm(stop);
        }
    }
}

/// Writes the sectors that a write leaves at which the power goes.
fn write_part(memory: &mut MemPiece, at: u64, from: &[u8], leaves: Leaves)
    requires { IsInside (mem_seen memory.old) at (length from.now) }
    ensures { Keeps (mem_seen memory.old) (mem_seen memory.new) }
{
    let count = match leaves {
        Leaves::Nothing => 0,
        Leaves::FirstHalf => from.len() / BLOCK / 2,
        Leaves::All => from.len() / BLOCK,
    };
    if 0 < count {
        let _ = memory.write(at, &from[..BLOCK * count]);
    }
}
