//! What the devices of a run share whose power goes.
use std::fmt;
use std::sync::atomic::{AtomicBool, AtomicU64, Ordering};

/// Which sectors of a write at which the power goes hold what was to be written.
#[derive(Clone, Copy, PartialEq, Eq)]
pub enum Leaves {
    Nothing,
    FirstHalf,
    All,
}

impl fmt::Display for Leaves {
    fn fmt<W: fmt::Write>(&self, f: &mut fmt::Formatter<W>) -> fmt::Result {
        let name = match self {
            Leaves::Nothing => "nothing",
            Leaves::FirstHalf => "the first half",
            Leaves::All => "all",
        };
        write!(f, "{name}")
    }
}

/// How the power is at a device call.
#[derive(Clone, Copy, PartialEq, Eq)]
pub enum Power {
    On,
    /// It goes at this call.
    Goes,
    Gone,
}

/// How many device calls there were, and whether the power is gone. It goes at the call of one number, counted from 0.
#[derive(Drop)]
pub struct Clock {
    at: u64,
    pub leaves: Leaves,
    calls: AtomicU64,
    dark: AtomicBool,
    sectors: AtomicU64,
}

impl Clock {
    pub fn new(at: u64, leaves: Leaves) -> Clock {
        Clock {
            at,
            leaves,
            calls: AtomicU64::new(0),
            dark: AtomicBool::new(false),
            sectors: AtomicU64::new(0),
        }
    }

    /// Counts a device call that writes so many sectors, or none.
    pub fn call(&self, sectors: u64) -> Power {
        if self.is_gone() {
            return Power::Gone;
        }
        if self.calls.fetch_add(1, Ordering::SeqCst) != self.at {
            return Power::On;
        }
        self.dark.store(true, Ordering::SeqCst);
        self.sectors.store(sectors, Ordering::SeqCst);
        Power::Goes
    }

    /// Whether the power is gone.
    pub fn is_gone(&self) -> bool {
        self.dark.load(Ordering::SeqCst)
    }

    /// How many sectors the call was to write at which the power went.
    pub fn sectors(&self) -> u64 {
        self.sectors.load(Ordering::SeqCst)
    }
}
