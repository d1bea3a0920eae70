ghost use Rattle.std.specs.Prelude.{◌≡◌, length};
ghost use Rattle.vx_piece.specs.MemPiece.{mem_seen};
ghost use Rattle.vx_piece.specs.Seen.{IsInside, Keeps};

use crate::fault::{End, Step, Torn};
use crate::watch::Watch;
use std::alloc::Global;
use vx_base::OutOfMemory;
use vx_piece::{MemPiece, Piece, PieceFault};

/// A piece in memory whose calls go wrong where the faults of a trial say so. It notes each of its calls, and does not tell
/// what it holds.
#[derive(Drop)]
pub struct RowPiece {
    memory: MemPiece,
    watch: Watch,
}

impl RowPiece {
    ghost use Rattle.vx_store_rows.specs.Piece.{row_seen};

    pub fn new(memory: MemPiece, watch: Watch) -> RowPiece
        ensures { (row_seen result).sectors ≡ (mem_seen memory).sectors }
    {
        RowPiece { memory, watch }
    }

    /// What its sectors hold.
    pub fn bytes(&self) -> &[u8] {
        self.memory.bytes()
    }

    /// Its calls, in order.
    pub fn steps(&self) -> &[Step] {
        self.watch.steps()
    }
}

/// Writes the sectors that a write that goes wrong has written: none, the first, those behind the first, or all.
#[tactic(auto, using(crate::proofs::Ranges::others_inside))]
fn tear(memory: &mut MemPiece, at: u64, from: &[u8], torn: Torn)
    requires { IsInside (mem_seen memory.old) at (length from.now) }
    ensures { Keeps (mem_seen memory.old) (mem_seen memory.new) }
{
    let _ = match torn {
        Torn::Old => Ok(()),
        Torn::Front => memory.write(at, &from[..512]),
        Torn::Back => {
            if from.len() > 512 {
                memory.write(at + 1, &from[512..])
            } else {
                memory.write(at, from)
            }
        }
        Torn::New => memory.write(at, from),
    };
}

impl Piece for RowPiece {
    ghost use Rattle.vx_store_rows.specs.Piece.{row_seen};

    ghost seen = { row_seen };

    ghost ends = { λ p. tt };

    ghost counts = { λ p. record { faults = p.watch.counted.0; writes = p.watch.counted.1; reads = p.watch.counted.2 } };

    fn device(&self) -> u32 {
        self.memory.device()
    }

    fn start(&self) -> u64 {
        self.memory.start()
    }

    fn sectors(&self) -> u64 {
        self.memory.sectors()
    }

    fn read(&mut self, at: u64, into: &mut [u8]) -> Result<(), PieceFault> {
        if self.watch.cut {
            return Err(PieceFault::PowerLost);
        }
        let count = (into.len() / 512) as u64;
        self.watch.reads = self.watch.reads.saturating_add(count);
        let device = self.memory.device();
        let sector = self.memory.start().saturating_add(at);
        let (end, _torn) = self.watch.begin(false, device, sector, count);
        match end {
            End::Lost => {
                self.watch.cut = true;
                Err(PieceFault::PowerLost)
            }
            End::Done => match self.memory.read(at, into) {
                Ok(()) => Ok(()),
                Err(_) => Err(self.watch.count_fault()),
            },
            End::Failed => Err(self.watch.count_fault()),
        }
    }

    fn write(&mut self, at: u64, from: &[u8]) -> Result<(), PieceFault> {
        if self.watch.cut {
            return Err(PieceFault::PowerLost);
        }
        let count = (from.len() / 512) as u64;
        self.watch.writes = self.watch.writes.saturating_add(count);
        let device = self.memory.device();
        let sector = self.memory.start().saturating_add(at);
        let (end, torn) = self.watch.begin(true, device, sector, count);
        match end {
            End::Lost => {
                tear(&mut self.memory, at, from, torn);
                self.watch.cut = true;
                Err(PieceFault::PowerLost)
            }
            End::Done => match self.memory.write(at, from) {
                Ok(()) => Ok(()),
                Err(_) => Err(self.watch.count_fault()),
            },
            End::Failed => {
                tear(&mut self.memory, at, from, torn);
                Err(self.watch.count_fault())
            }
        }
    }

    fn split(
        self,
        alloc: Global,
        at: u64,
    ) -> Result<(RowPiece, RowPiece), (RowPiece, OutOfMemory)> {
        let RowPiece { memory, watch } = self;
        let Ok(other) = watch.other(alloc) else {
            return Err((RowPiece { memory, watch }, OutOfMemory));
        };
        match memory.split(alloc, at) {
            Ok((first, second)) => Ok((
                RowPiece {
                    memory: first,
                    watch,
                },
                RowPiece {
                    memory: second,
                    watch: other,
                },
            )),
            Err((memory, error)) => Err((RowPiece { memory, watch }, error)),
        }
    }

    fn join(
        self,
        alloc: Global,
        next: RowPiece,
    ) -> Result<RowPiece, (RowPiece, RowPiece, OutOfMemory)> {
        let RowPiece { memory, mut watch } = self;
        let RowPiece {
            memory: behind,
            watch: watch_behind,
        } = next;
        match memory.join(alloc, behind) {
            Ok(memory) => {
                watch.join(watch_behind);
                Ok(RowPiece { memory, watch })
            }
            Err((memory, behind, error)) => Err((
                RowPiece { memory, watch },
                RowPiece {
                    memory: behind,
                    watch: watch_behind,
                },
                error,
            )),
        }
    }

    fn arm(&mut self, stop: Option<u64>) {
        if !self.watch.cut {
            self.memory.arm(stop);
        }
    }
}
