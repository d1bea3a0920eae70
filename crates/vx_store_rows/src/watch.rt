ghost use Rattle.std.specs.Prelude.{◌≡◌, ◌^◌, ◌<◌, ◌≤◌, ◌||◌, false, IfOk};
ghost use Rattle.vx_base.specs.Counts.{later_count};

use crate::clock::Clock;
use crate::fault::{End, Fault, Kind, Step, Torn};
use std::alloc::{AllocError, Global};
use std::sync::Arc;
use vx_piece::PieceFault;

/// What goes wrong with the calls of a piece, and what is noted of them.
#[derive(Drop)]
pub struct Watch {
    clock: Arc<Clock, Global>,
    faults: [Option<Fault>; 2],
    steps: Vec<Step>,
    pub cut: bool,
    pub failed: u64,
    pub writes: u64,
    pub reads: u64,
    pub ghost counted: { (failed < 2 ^ 64) × (writes < 2 ^ 64) × (reads < 2 ^ 64) },
}

impl Watch {
    ghost use Rattle.vx_store_rows.specs.Watching.{SameCounts};
    ghost use Rattle.vx_piece.specs.declared.piece.PieceFault.TheVariants.{Failed};

    /// Of a piece without calls.
    pub fn new(alloc: Global, clock: Arc<Clock, Global>, faults: [Option<Fault>; 2]) -> Watch
        ensures cut { result.cut ≡ false }
        ensures failed { result.failed ≡ 0 }
        ensures writes { result.writes ≡ 0 }
        ensures reads { result.reads ≡ 0 }
    {
        Watch {
            clock,
            faults,
            steps: Vec::new(alloc),
            cut: false,
            failed: 0,
            writes: 0,
            reads: 0,
        }
    }

    /// The same of another piece, which is cut as this one is.
    pub fn other(&self, alloc: Global) -> Result<Watch, AllocError>
        ensures cut { IfOk result (λ other. other.cut ≡ self.now.cut) }
        ensures failed { IfOk result (λ other. other.failed ≡ 0) }
        ensures writes { IfOk result (λ other. other.writes ≡ 0) }
        ensures reads { IfOk result (λ other. other.reads ≡ 0) }
    {
        let clock = Arc::try_clone(&self.clock)?;
        let mut other = Watch::new(alloc, clock, self.faults);
        other.cut = self.cut;
        Ok(other)
    }

    /// Its calls, in order.
    pub fn steps(&self) -> &[Step] {
        self.steps.as_slice()
    }

    /// Notes a call on so many sectors of a device: how it ends, and what a write leaves that goes wrong.
    pub fn begin(&mut self, is_write: bool, device: u32, sector: u64, count: u64) -> (End, Torn)
        ensures { SameCounts self.old self.new }
    {
        let number = self.clock.next();
        let (end, torn) = self.fate(number, device);
        let step = Step {
            number,
            device,
            is_write,
            sector,
            count,
            end,
        };
        let _ = self.steps.push(step);
        (end, torn)
    }

    fn fate(&self, number: u64, device: u32) -> (End, Torn) {
        if self.clock.is_dark() {
            return (End::Lost, Torn::Old);
        }
        for fault in self.faults {
            if let Some(fault) = fault {
                if fault.at == number {
                    return (end_of(&self.clock, device, fault.kind), fault.torn);
                }
            }
        }
        if self.clock.is_broken(device) {
            return (End::Failed, Torn::Old);
        }
        (End::Done, Torn::Old)
    }

    /// Counts a fault.
    pub fn count_fault(&mut self) -> PieceFault
        ensures answer { result ≡ Failed }
        ensures failed { self.new.failed ≡ later_count self.old.failed 1 }
        ensures rises { self.old.failed ≤ self.new.failed }
        ensures cut { self.new.cut ≡ self.old.cut }
        ensures writes { self.new.writes ≡ self.old.writes }
        ensures reads { self.new.reads ≡ self.old.reads }
    {
        self.failed = self.failed.saturating_add(1);
        PieceFault::Failed
    }

    /// The notes of both pieces.
    pub fn join(&mut self, next: Watch)
        ensures cut { self.new.cut ≡ (self.old.cut || next.cut) }
        ensures failed { self.new.failed ≡ later_count self.old.failed next.failed }
        ensures writes { self.new.writes ≡ later_count self.old.writes next.writes }
        ensures reads { self.new.reads ≡ later_count self.old.reads next.reads }
    {
        let mut behind = next;
        let _ = self.steps.append(&mut behind.steps);
        self.cut = self.cut || behind.cut;
        self.failed = self.failed.saturating_add(behind.failed);
        self.writes = self.writes.saturating_add(behind.writes);
        self.reads = self.reads.saturating_add(behind.reads);
    }
}

/// How a call with this fault ends on a device, and what becomes of the device and of the power.
fn end_of(clock: &Clock, device: u32, kind: Kind) -> End {
    match kind {
        Kind::Once => End::Failed,
        Kind::Ever => {
            clock.break_device(device);
            End::Failed
        }
        Kind::Cut => {
            clock.put_out();
            End::Lost
        }
    }
}
