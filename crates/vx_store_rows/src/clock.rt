use std::sync::atomic::{AtomicBool, AtomicU64, Ordering};

/// What the devices of a trial share: how many device calls there were since the clock was set, whether the power is gone,
/// and which device is broken.
#[derive(Drop)]
pub struct Clock {
    calls: AtomicU64,
    dark: AtomicBool,
    broken: AtomicU64,
}

/// No device has this number, and no fault this place among the calls.
const NONE: u64 = u64::MAX;

/// Calls before the clock is set have numbers from here on, which no fault has.
const BEFORE: u64 = 1 << 32;

impl Clock {
    pub fn new() -> Clock {
        Clock {
            calls: AtomicU64::new(BEFORE),
            dark: AtomicBool::new(false),
            broken: AtomicU64::new(NONE),
        }
    }

    /// From here on calls are counted from 0.
    pub fn set(&self) {
        self.calls.store(0, Ordering::SeqCst);
    }

    /// The number of the next call.
    pub fn next(&self) -> u64 {
        self.calls.fetch_add(1, Ordering::SeqCst)
    }

    /// How many calls there were.
    pub fn calls(&self) -> u64 {
        self.calls.load(Ordering::SeqCst)
    }

    pub fn put_out(&self) {
        self.dark.store(true, Ordering::SeqCst);
    }

    pub fn is_dark(&self) -> bool {
        self.dark.load(Ordering::SeqCst)
    }

    pub fn break_device(&self, device: u32) {
        self.broken.store(device as u64, Ordering::SeqCst);
    }

    pub fn is_broken(&self, device: u32) -> bool {
        self.broken.load(Ordering::SeqCst) == device as u64
    }
}
