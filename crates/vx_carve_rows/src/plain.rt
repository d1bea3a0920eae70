ghost use Rattle.std.specs.Prelude.{◌+◌, ◌<◌, ◌^◌};

use std::alloc::Global;
use vx_base::OutOfMemory;
use vx_piece::{Piece, PieceFault};

/// A run of sectors of a device that stores nothing.
#[derive(Drop)]
pub struct PlainPiece {
    device: u32,
    start: u64,
    sectors: u64,
    writes: u64,
    reads: u64,
    stop: Option<u64>,
    ghost on_device: { start + sectors < 2 ^ 64 },
    ghost counted: { (0 < 2 ^ 64) × (writes < 2 ^ 64) × (reads < 2 ^ 64) },
}

impl PlainPiece {
    /// A whole device.
    pub fn new(device: u32, sectors: u64) -> PlainPiece {
        PlainPiece {
            device,
            start: 0,
            sectors,
            writes: 0,
            reads: 0,
            stop: None,
        }
    }
}

impl Piece for PlainPiece {
    ghost use Rattle.vx_carve_rows.specs.Plain.{plain_seen};

    ghost seen = { plain_seen };

    ghost ends = { λ p. tt };

    ghost counts = { λ p. record { faults = p.counted.0; writes = p.counted.1; reads = p.counted.2 } };

    fn device(&self) -> u32 {
        self.device
    }

    fn start(&self) -> u64 {
        self.start
    }

    fn sectors(&self) -> u64 {
        self.sectors
    }

    fn read(&mut self, _at: u64, into: &mut [u8]) -> Result<(), PieceFault> {
        self.reads = self.reads.saturating_add((into.len() / 512) as u64);
        Ok(())
    }

    fn write(&mut self, _at: u64, from: &[u8]) -> Result<(), PieceFault> {
        self.writes = self.writes.saturating_add((from.len() / 512) as u64);
        Ok(())
    }

    fn split(
        mut self,
        _alloc: Global,
        at: u64,
    ) -> Result<(PlainPiece, PlainPiece), (PlainPiece, OutOfMemory)> {
        let second = PlainPiece {
            device: self.device,
            start: self.start + at,
            sectors: self.sectors - at,
            writes: 0,
            reads: 0,
            stop: self.stop,
        };
        self.sectors = at;
        Ok((self, second))
    }

    fn join(
        self,
        _alloc: Global,
        next: PlainPiece,
    ) -> Result<PlainPiece, (PlainPiece, PlainPiece, OutOfMemory)> {
        Ok(PlainPiece {
            device: self.device,
            start: self.start,
            sectors: self.sectors + next.sectors,
            writes: self.writes.saturating_add(next.writes),
            reads: self.reads.saturating_add(next.reads),
            stop: self.stop,
        })
    }

    fn arm(&mut self, stop: Option<u64>) {
        self.stop = stop;
    }
}
