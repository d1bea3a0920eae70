//! What is found wrong with a run or with what it leaves.
use std::alloc::{AllocError, AllocFailed};
use std::fmt;

/// The first thing that is not as it has to be.
#[derive(Clone, Copy, PartialEq, Eq)]
pub enum Finding {
    /// Memory was wanting: it was not looked at to its end.
    OutOfMemory,
    /// The images stand on no shelf, or have other sizes than they should.
    Images,
    /// A header or a toggle is none, or two toggles of one sequence have two texts.
    Copies,
    /// No image has a configuration, or its text is none of records.
    Configuration,
    /// The records do not describe a volume of plexes of one column, or are not those that it was made with.
    Records,
    /// The volume is recorded, and must not be.
    Recorded,
    /// The volume is not recorded, and has to be.
    NotRecorded,
    /// The plex of a mirror is recorded, and must not be.
    Mirrored,
    /// The plex of a mirror is not recorded, and has to be.
    NotMirrored,
    /// Logs are recorded, and must not be.
    Logged,
    /// Logs are not recorded, and have to be.
    NotLogged,
    /// A copy of the log has no header.
    NoHeader,
    /// The volume was stopped, and a copy of the log shows this region as dirty.
    Dirty(u64),
    /// The volume is recorded in a state in which it cannot be.
    VolumeState,
    /// A plex is recorded in a state in which it cannot be.
    PlexState,
    /// A mirror was done and nothing failed, and a plex is marked in this region.
    Marked(u64),
    /// By some choice of the marks each plex is marked in this region.
    NoUnmarked(u64),
    /// By some choice of the marks unmarked plexes differ in this region, and may not.
    Differ(u64),
    /// A plex that is read holds a value in this block that is none of its candidates.
    Value(u64),
    /// This line of the answers, counted from 1, is not one that may be given.
    Answer(u64),
    /// The status is not that of the answers.
    Status,
    /// A recovery tells numbers of regions that were dirty or copied which cannot be so.
    Counts,
    /// By the bytes a volume can be neither started nor recovered, and nothing stands against that.
    Unrecoverable,
    /// A command that is cut one write later has written more than that one write.
    Writes,
    /// A fault fires at each call.
    Endless,
}

impl Finding {
    fn text(self) -> &'static str {
        match self {
            Finding::OutOfMemory => "memory was wanting",
            Finding::Images => "these images stand on no shelf",
            Finding::Copies => "a copy of the configuration is damaged",
            Finding::Configuration => "there is no configuration",
            Finding::Records => "the records are others",
            Finding::Recorded => "the volume is recorded",
            Finding::NotRecorded => "the volume is not recorded",
            Finding::Mirrored => "the plex of a mirror is recorded",
            Finding::NotMirrored => "the plex of a mirror is not recorded",
            Finding::Logged => "logs are recorded",
            Finding::NotLogged => "no logs are recorded",
            Finding::NoHeader => "a copy of the log has no header",
            Finding::Dirty(_) => "a volume that was stopped is dirty in region",
            Finding::VolumeState => "the volume is in another state",
            Finding::PlexState => "a plex is in another state",
            Finding::Marked(_) => "a plex that was copied to is marked in region",
            Finding::NoUnmarked(_) => "no plex is unmarked in region",
            Finding::Differ(_) => "unmarked plexes differ in region",
            Finding::Value(_) => "something else is held in block",
            Finding::Answer(_) => "what may not be given is answer",
            Finding::Status => "the status is another",
            Finding::Counts => "a recovery tells other numbers of regions",
            Finding::Unrecoverable => "the volume cannot be recovered",
            Finding::Writes => "more was written than the next write",
            Finding::Endless => "the fault fires at each call",
        }
    }

    /// The region, the block or the line.
    fn place(self) -> Option<u64> {
        match self {
            Finding::Dirty(region) => Some(region),
            Finding::Marked(region) => Some(region),
            Finding::NoUnmarked(region) => Some(region),
            Finding::Differ(region) => Some(region),
            Finding::Value(block) => Some(block),
            Finding::Answer(line) => Some(line),
            _ => None,
        }
    }
}

impl fmt::Display for Finding {
    fn fmt<W: fmt::Write>(&self, f: &mut fmt::Formatter<W>) -> fmt::Result {
        match self.place() {
            None => write!(f, "{}", self.text()),
            Some(place) => write!(f, "{} {place}", self.text()),
        }
    }
}

impl From<AllocError> for Finding {
    fn from(_refused: AllocError) -> Finding {
        Finding::OutOfMemory
    }
}

impl<T: Drop> From<AllocFailed<T>> for Finding {
    fn from(_refused: AllocFailed<T>) -> Finding {
        Finding::OutOfMemory
    }
}
