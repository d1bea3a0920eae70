//! What was counted, and what was found first, with where.
use std::alloc::{AllocError, AllocFailed};
use std::fmt;
use vx_volume_judge::Finding;

/// How much was tried.
#[derive(Clone, Copy)]
pub struct Tally {
    /// The commands that were swept.
    pub commands: u64,
    /// The cuts of commands, of recoveries, and the faults, that were reached.
    pub cuts: u64,
    pub again: u64,
    pub faults: u64,
    /// The faults that leave a group of which nothing can be recovered: the disks that it needs are not recorded as good any more.
    pub refused: u64,
    /// The scripts that were run.
    pub scripts: u64,
}

impl Tally {
    pub fn new() -> Tally {
        Tally {
            commands: 0,
            cuts: 0,
            again: 0,
            faults: 0,
            refused: 0,
            scripts: 0,
        }
    }

    pub fn add(&mut self, other: &Tally) {
        self.commands = self.commands.saturating_add(other.commands);
        self.cuts = self.cuts.saturating_add(other.cuts);
        self.again = self.again.saturating_add(other.again);
        self.faults = self.faults.saturating_add(other.faults);
        self.refused = self.refused.saturating_add(other.refused);
        self.scripts = self.scripts.saturating_add(other.scripts);
    }

    /// So many scripts were run.
    pub fn run(&mut self, scripts: u64) {
        self.scripts = self.scripts.saturating_add(scripts);
    }
}

impl fmt::Display for Tally {
    fn fmt<W: fmt::Write>(&self, f: &mut fmt::Formatter<W>) -> fmt::Result {
        write!(f, "{} commands, {} cuts", self.commands, self.cuts)?;
        write!(
            f,
            ", {} cuts of recoveries, {} faults",
            self.again, self.faults
        )?;
        if 0 < self.refused {
            write!(f, " ({} past recovery)", self.refused)?;
        }
        write!(f, ", {} scripts", self.scripts)
    }
}

/// What is called where a fault fires.
#[derive(Clone, Copy, PartialEq, Eq)]
pub enum Part {
    Private,
    Data,
    Log,
}

/// Where a fault fires, and at which call.
#[derive(Clone, Copy)]
pub struct FaultAt {
    pub device: u64,
    pub part: Part,
    pub on_write: bool,
    pub lasts: bool,
    pub call: u64,
}

impl fmt::Display for FaultAt {
    fn fmt<W: fmt::Write>(&self, f: &mut fmt::Formatter<W>) -> fmt::Result {
        let part = match self.part {
            Part::Private => "private region",
            Part::Data => "data",
            Part::Log => "log",
        };
        let kind = if self.on_write { "write" } else { "read" };
        let times = if self.lasts { "for good" } else { "once" };
        write!(
            f,
            "{kind} {} of the {part} of i{} fails {times}",
            self.call, self.device
        )
    }
}

/// What is done behind a cut as something is found.
#[derive(Clone, Copy)]
pub enum During {
    /// The cut itself, or the recovery of what it leaves.
    Itself,
    /// The recovery, the first or the second line of which was cut behind so many writes.
    Again { line: u64, writes: u64 },
    /// The recovery beside a fault.
    Fault(FaultAt),
}

impl fmt::Display for During {
    fn fmt<W: fmt::Write>(&self, f: &mut fmt::Formatter<W>) -> fmt::Result {
        match self {
            During::Itself => write!(f, ""),
            During::Again { line: 1, writes } => { write!(f, ", then the import behind {writes}") }
            During::Again { writes, .. } => write!(f, ", then the recovery behind {writes}"),
            During::Fault(fault) => write!(f, ", then {fault}"),
        }
    }
}

/// What was found, and during what.
#[derive(Clone, Copy)]
pub struct Found {
    pub finding: Finding,
    pub during: During,
}

impl From<Finding> for Found {
    fn from(finding: Finding) -> Found {
        Found {
            finding,
            during: During::Itself,
        }
    }
}

impl From<AllocError> for Found {
    fn from(_refused: AllocError) -> Found {
        Found::from(Finding::OutOfMemory)
    }
}

impl<T: Drop> From<AllocFailed<T>> for Found {
    fn from(_refused: AllocFailed<T>) -> Found {
        Found::from(Finding::OutOfMemory)
    }
}

/// What was found where a command, counted from 1 behind those that leave the base, was cut behind so many writes.
#[derive(Clone, Copy)]
pub struct Report {
    pub found: Found,
    pub command: u64,
    pub writes: u64,
}

impl fmt::Display for Report {
    fn fmt<W: fmt::Write>(&self, f: &mut fmt::Formatter<W>) -> fmt::Result {
        write!(
            f,
            "command {} cut behind {} writes",
            self.command, self.writes
        )?;
        write!(f, "{}: {}", self.found.during, self.found.finding)
    }
}
