use vx_config_parts::{Limit, PlexState, VolState};
use vx_names::Name;

/// Why a command is refused. A refused command changes nothing.
#[derive(Clone, Copy)]
pub enum Refusal {
    /// The form is not built yet.
    NotBuilt,
    /// No device has the name.
    NoDisk(Name),
    /// The device is held by a started volume, by the group, or by this command already.
    Held(Name),
    /// The name is taken.
    Exists(Name),
    /// The device has no header.
    NotInitialised(Name),
    /// The disk is not there; None where the configuration does not name it.
    Missing(Option<Name>),
    /// No group of the name is imported, or can be; None where no name was given.
    NoGroup(Option<Name>),
    /// The configuration's text has so many bytes.
    TooLong(u64),
    /// The disk's toggle does not fit at this byte of its device.
    Damaged { disk: Name, byte: u64 },
    /// The configuration's text does not fit at this line.
    BadRecord(u64),
    NoObject(Name),
    InUse(Name),
    Overlap(Name),
    Outside(Name),
    NotWhole(Name),
    NoMap(Name),
    /// A device that is to be a disk of a group has 2,049 to 2^40 sectors.
    DeviceLimit,
    Limit(Limit),
    /// So many sectors are free where so many are needed.
    NoSpace { have: u64, need: u64 },
    /// So many disks are needed.
    TooFewDisks(u64),
    /// No other plex has the current blocks of some region.
    OnlyPlex(Name),
    /// The volume is not started.
    NotStarted(Name),
    /// The range passes the end of the volume.
    Range,
    /// No plex has the current blocks of the region.
    NoCurrent(u64),
    NoLog(Name),
    /// The volume's state does not fit.
    VolState(VolState),
    /// The plex's state does not fit.
    PlexState(PlexState),
    /// The region is not copied yet.
    NotDone(u64),
    /// The volume is no snapshot of the other.
    NotRelated(Name),
    /// The snapshot is lent to a block of sessions.
    InSession(Name),
    /// The snapshot has so many data plexes.
    Mirrored { snap: Name, plexes: u64 },
    /// The volume is itself a snapshot.
    Cascade(Name),
}
