ghost use Rattle.std.specs.Prelude.{◌≡◌, ◌<◌, ◌^◌, IfSome};
ghost use Rattle.vx_piece.specs.MemPiece.{mem_seen};

use std::alloc::Global;
use vx_base::OutOfMemory;
use vx_piece::{Counts, MemPiece, Piece, PieceFault};

/// A piece in memory whose power goes at one of its calls, which is not carried out. It does not tell what it holds.
#[derive(Drop)]
pub struct RowPiece {
    memory: MemPiece,
    /// How many calls come before that one, if it comes.
    left: Option<u64>,
    cut: bool,
    writes: u64,
    reads: u64,
    ghost counted: { (writes < 2 ^ 64) × (reads < 2 ^ 64) },
}

impl RowPiece {
    ghost use Rattle.vx_cell_rows.specs.Piece.{row_seen};

    pub fn new(memory: MemPiece, left: Option<u64>) -> RowPiece
        ensures { (row_seen result).sectors ≡ (mem_seen memory).sectors }
    {
        RowPiece {
            memory,
            left,
            cut: false,
            writes: 0,
            reads: 0,
        }
    }

    pub fn counts(&self) -> Counts {
        Counts {
            faults: self.memory.counts().faults,
            writes: self.writes,
            reads: self.reads,
        }
    }

    /// What its sectors hold.
    pub fn bytes(&self) -> &[u8] {
        self.memory.bytes()
    }

    pub fn is_cut(&self) -> bool {
        self.cut
    }
}

/// Counts a call, and tells whether the power goes at it.
fn goes(left: &mut Option<u64>) -> bool {
    match *left {
        Some(0) => true,
        Some(n) => {
            *left = Some(n - 1);
            false
        }
        None => false,
    }
}

impl Piece for RowPiece {
    ghost use Rattle.vx_cell_rows.specs.Piece.{row_seen};

    ghost seen = { row_seen };

    ghost ends = { λ p. tt };

    ghost counts = { λ p. record { faults = p.memory.counted.0; writes = p.counted.0; reads = p.counted.1 } };

    fn device(&self) -> u32 {
        self.memory.device()
    }

    fn start(&self) -> u64 {
        self.memory.start()
    }

    fn sectors(&self) -> u64 {
        self.memory.sectors()
    }

    fn read(&mut self, at: u64, into: &mut [u8]) -> Result<(), PieceFault> {
        if self.cut {
            return Err(PieceFault::PowerLost);
        }
        self.reads = self.reads.saturating_add((into.len() / 512) as u64);
        if goes(&mut self.left) {
            self.cut = true;
            return Err(PieceFault::PowerLost);
        }
        self.memory.read(at, into)
    }

    fn write(&mut self, at: u64, from: &[u8]) -> Result<(), PieceFault> {
        if self.cut {
            return Err(PieceFault::PowerLost);
        }
        self.writes = self.writes.saturating_add((from.len() / 512) as u64);
        if goes(&mut self.left) {
            self.cut = true;
            return Err(PieceFault::PowerLost);
        }
        self.memory.write(at, from)
    }

    fn split(
        self,
        alloc: Global,
        at: u64,
    ) -> Result<(RowPiece, RowPiece), (RowPiece, OutOfMemory)> {
        let RowPiece {
            memory,
            left,
            cut,
            writes,
            reads,
        } = self;
        match memory.split(alloc, at) {
            Ok((first, second)) => Ok((
                RowPiece {
                    memory: first,
                    left,
                    cut,
                    writes,
                    reads,
                },
                RowPiece {
                    memory: second,
                    left,
                    cut,
                    writes: 0,
                    reads: 0,
                },
            )),
            Err((memory, error)) => Err((
                RowPiece {
                    memory,
                    left,
                    cut,
                    writes,
                    reads,
                },
                error,
            )),
        }
    }

    fn join(
        self,
        alloc: Global,
        next: RowPiece,
    ) -> Result<RowPiece, (RowPiece, RowPiece, OutOfMemory)> {
        let RowPiece {
            memory,
            left,
            cut,
            writes,
            reads,
        } = self;
        let RowPiece {
            memory: behind,
            left: left_behind,
            cut: cut_behind,
            writes: writes_behind,
            reads: reads_behind,
        } = next;
        match memory.join(alloc, behind) {
            Ok(memory) => Ok(RowPiece {
                memory,
                left,
                cut: cut || cut_behind,
                writes: writes.saturating_add(writes_behind),
                reads: reads.saturating_add(reads_behind),
            }),
            Err((memory, behind, error)) => Err((
                RowPiece {
                    memory,
                    left,
                    cut,
                    writes,
                    reads,
                },
                RowPiece {
                    memory: behind,
                    left: left_behind,
                    cut: cut_behind,
                    writes: writes_behind,
                    reads: reads_behind,
                },
                error,
            )),
        }
    }

    fn arm(&mut self, stop: Option<u64>) {
        if !self.cut {
            self.memory.arm(stop);
        }
    }
}
