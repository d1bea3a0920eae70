use crate::{BlockLines, Bytes, Parts, Refusal, Views};
use vx_names::Name;

/// What a command shows before its answer line.
#[derive(Drop)]
pub enum View {
    /// Records or a listing, each line with its newline.
    Text(Bytes),
    /// A volume is recovered: regions that were made equal, and regions that were copied for a plex at least.
    Recovered {
        vol: Name,
        dirty: u64,
        copied: u64,
    },
    /// A snapshot differs from its source in so many of its regions.
    Snap {
        snap: Name,
        source: Name,
        changed: u64,
        regions: u64,
    },
}

/// How a command ended.
#[derive(Drop)]
pub enum End {
    /// All was done: regions copied, where the command copies; the parts of a call; the bytes that a read gives.
    Done {
        copied: Option<u64>,
        parts: Parts,
        blocks: Bytes,
    },
    Refused(Refusal),
    /// A device failed: the name that is told, which is the disk's in a group, and the device's own. The parts are those
    /// that were begun.
    Fault {
        told: Name,
        device: Name,
        parts: Parts,
    },
    /// The shelf could not tell its devices.
    ShelfFailed,
    /// No disk of the group could be written.
    GroupLost,
    /// The power was gone. The parts are those that were begun.
    Lost {
        parts: Parts,
    },
}

/// The answer to a line of a block of sessions.
#[derive(Drop)]
pub struct BlockLine {
    pub session: u64,
    pub end: End,
}

/// What a command answers, or a block of sessions.
#[derive(Drop)]
pub enum Answer {
    One { views: Views, end: End },
    /// Whether a device call of the block met that the power was gone stands behind its lines.
    Block { lines: BlockLines, lost: bool },
}
