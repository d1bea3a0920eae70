use crate::fault::{End, Fault, Kind, Wrong};
use std::sync::atomic::{AtomicBool, AtomicU64, Ordering};

/// What the devices of a trial share: how many device calls there were since the clock was set, which of them go wrong, whether
/// the power is gone, and which call the second fault was at. The calls behind the first fault are numbered from 0 once more,
/// and they alone are told.
#[derive(Drop)]
pub struct Clock {
    first: Option<Fault>,
    second: Option<Fault>,
    calls: AtomicU64,
    writes: AtomicU64,
    dark: AtomicBool,
    device: AtomicU64,
    write: AtomicBool,
}

/// No device has this number.
const NONE: u64 = u64::MAX;

/// Calls before the clock is set have numbers from here on, which no fault has.
const BEFORE: u64 = 1 << 32;

impl Clock {
    pub fn new(first: Option<Fault>, second: Option<Fault>) -> Clock {
        Clock {
            first,
            second,
            calls: AtomicU64::new(BEFORE),
            writes: AtomicU64::new(0),
            dark: AtomicBool::new(false),
            device: AtomicU64::new(NONE),
            write: AtomicBool::new(false),
        }
    }

    /// From here on calls are counted from 0.
    pub fn set(&self) {
        self.calls.store(0, Ordering::SeqCst);
        self.writes.store(0, Ordering::SeqCst);
    }

    /// Counts a call on a device. How it ends.
    pub fn begin(&self, device: u32, is_write: bool) -> End {
        if self.dark.load(Ordering::SeqCst) {
            return End::Lost { is_written: false };
        }
        let number = self.calls.fetch_add(1, Ordering::SeqCst);
        if let Some(first) = self.first {
            if number <= first.at {
                return self.end_at(number, first);
            }
        }
        if is_write {
            self.writes.fetch_add(1, Ordering::SeqCst);
        }
        match self.second {
            Some(second) if number.saturating_sub(self.skipped()) == second.at => {
                self.device.store(device as u64, Ordering::SeqCst);
                self.write.store(is_write, Ordering::SeqCst);
                self.fire(second)
            }
            _ => End::Done,
        }
    }

    fn end_at(&self, number: u64, fault: Fault) -> End {
        if number == fault.at {
            self.fire(fault)
        } else {
            End::Done
        }
    }

    fn fire(&self, fault: Fault) -> End {
        let is_written = fault.is_written;
        match fault.kind {
            Kind::Fails => End::Failed { is_written },
            Kind::Cut => {
                self.dark.store(true, Ordering::SeqCst);
                End::Lost { is_written }
            }
        }
    }

    /// How many calls there are up to the first fault, with it.
    fn skipped(&self) -> u64 {
        match self.first {
            Some(first) => first.at.saturating_add(1),
            None => 0,
        }
    }

    /// How many calls there were behind the first fault.
    pub fn calls(&self) -> u64 {
        self.calls
            .load(Ordering::SeqCst)
            .saturating_sub(self.skipped())
    }

    /// How many of them were writes.
    pub fn writes(&self) -> u64 {
        self.writes.load(Ordering::SeqCst)
    }

    /// The call that the second fault was at, if there were so many.
    pub fn wrong(&self) -> Option<Wrong> {
        let device = u32::try_from(self.device.load(Ordering::SeqCst)).ok()?;
        Some(Wrong {
            device,
            is_write: self.write.load(Ordering::SeqCst),
        })
    }
}
