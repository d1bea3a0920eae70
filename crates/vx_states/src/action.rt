use vx_config_parts::{PlexState, VolState};

/// What is done to a volume, with one of its data plexes where it has a part in it.
#[derive(Clone, Copy, Debug, PartialEq, Eq)]
pub enum Action {
    Start,
    /// `marked` tells whether the plex misses some region.
    Stop { marked: bool },
    Import,
    /// Recovery begins, and later ends: `marked` tells whether the plex misses some region still.
    RecoverBegin,
    RecoverEnd { marked: bool },
    Detach,
    Attach,
    Dissociate,
    /// A plex is added that will be a snapshot, or one joins again; later it is complete.
    Add,
    Added,
    /// A plex is added as a mirror.
    Mirror,
    /// A plex joins again as what the volume is restored from.
    Restore,
    /// A plex is broken off as a volume of its own.
    BreakOff,
}

/// The kept state for which an action does not exist: the volume's, or where that fits the plex's.
#[derive(Clone, Copy, Debug, PartialEq, Eq)]
pub enum WrongState {
    Vol(VolState),
    Plex(PlexState),
}
