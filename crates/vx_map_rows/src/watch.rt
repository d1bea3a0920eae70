ghost use Rattle.std.specs.Prelude.{◌≡◌, ◌^◌, ◌<◌, ◌≤◌, ◌||◌, false, IfOk};
ghost use Rattle.vx_base.specs.Counts.{later_count};

use crate::clock::Clock;
use crate::fault::End;
use std::alloc::{AllocError, Global};
use std::sync::Arc;
use vx_piece::PieceFault;

/// What goes wrong with the calls of a piece, and its counts.
#[derive(Drop)]
pub struct Watch {
    clock: Arc<Clock, Global>,
    pub cut: bool,
    pub failed: u64,
    pub writes: u64,
    pub reads: u64,
    pub ghost counted: { (failed < 2 ^ 64) × (writes < 2 ^ 64) × (reads < 2 ^ 64) },
}

impl Watch {
    ghost use Rattle.vx_piece.specs.declared.piece.PieceFault.TheVariants.{Failed};

    /// Of a piece without calls.
    pub fn new(clock: Arc<Clock, Global>) -> Watch
        ensures cut { result.cut ≡ false }
        ensures failed { result.failed ≡ 0 }
        ensures writes { result.writes ≡ 0 }
        ensures reads { result.reads ≡ 0 }
    {
        Watch {
            clock,
            cut: false,
            failed: 0,
            writes: 0,
            reads: 0,
        }
    }

    /// The same of another piece, which is cut as this one is.
    pub fn other(&self) -> Result<Watch, AllocError>
        ensures cut { IfOk result (λ other. other.cut ≡ self.now.cut) }
        ensures failed { IfOk result (λ other. other.failed ≡ 0) }
        ensures writes { IfOk result (λ other. other.writes ≡ 0) }
        ensures reads { IfOk result (λ other. other.reads ≡ 0) }
    {
        let clock = Arc::try_clone(&self.clock)?;
        let mut other = Watch::new(clock);
        other.cut = self.cut;
        Ok(other)
    }

    /// How a call on a device ends.
    pub fn begin(&self, device: u32, is_write: bool) -> End {
        self.clock.begin(device, is_write)
    }

    /// Counts a fault.
    pub fn count_fault(&mut self) -> PieceFault
        ensures answer { result ≡ Failed }
        ensures failed { self.new.failed ≡ later_count self.old.failed 1 }
        ensures rises { self.old.failed ≤ self.new.failed }
        ensures cut { self.new.cut ≡ self.old.cut }
        ensures writes { self.new.writes ≡ self.old.writes }
        ensures reads { self.new.reads ≡ self.old.reads }
    {
        self.failed = self.failed.saturating_add(1);
        PieceFault::Failed
    }

    /// The counts of both pieces.
    pub fn join(&mut self, next: Watch)
        ensures cut { self.new.cut ≡ (self.old.cut || next.cut) }
        ensures failed { self.new.failed ≡ later_count self.old.failed next.failed }
        ensures writes { self.new.writes ≡ later_count self.old.writes next.writes }
        ensures reads { self.new.reads ≡ later_count self.old.reads next.reads }
    {
        self.cut = self.cut || next.cut;
        self.failed = self.failed.saturating_add(next.failed);
        self.writes = self.writes.saturating_add(next.writes);
        self.reads = self.reads.saturating_add(next.reads);
    }
}
