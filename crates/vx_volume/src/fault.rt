use crate::log::VolumeLog;
use vx_cell::{Place, Plex};
use vx_pages::LocalPiece;

/// Why a call on a volume was not done.
#[derive(Clone, Copy, Debug, PartialEq, Eq)]
pub enum IoFault {
    /// The range does not lie in the volume.
    Range,
    /// Devices of a region failed; the place is the first whose count of faults rose there.
    Fault(Place),
    /// The power is gone, or the region was killed.
    PowerLost,
}

/// Why a volume is not opened.
#[derive(Clone, Copy, Debug, PartialEq, Eq)]
pub enum OpenFault {
    /// No plex that is on is unmarked in this region; it is the first such one.
    NoCurrent(u64),
    OutOfMemory,
}

/// Why a volume is not opened, and what it would have been made of, as it was.
#[derive(Drop)]
pub struct OpenRefused<P: LocalPiece> {
    pub fault: OpenFault,
    pub regions: Vec<Vec<Plex<P>>>,
    pub log: VolumeLog<P>,
}
