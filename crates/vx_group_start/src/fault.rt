/// Why a volume is not started.
#[derive(Clone, Copy, Debug, PartialEq, Eq)]
pub enum StartFault {
    OutOfMemory,
    /// It has a DCO, and none of its logs could be used: none is on good disks, or no copy could be read.
    NoLog,
    /// The first region without a plex that is on and unmarked.
    NoCurrent(u64),
    /// A device failed, by its number.
    Failed(u32),
    PowerLost,
}
