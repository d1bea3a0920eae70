//! The states of records.

#[derive(Clone, Copy, PartialEq, Eq)]
pub enum VolumeState {
    Empty,
    Clean,
    Active,
    NeedSync,
    Sync,
}

impl VolumeState {
    pub fn read(word: &str) -> Option<VolumeState> {
        match word {
            "EMPTY" => Some(VolumeState::Empty),
            "CLEAN" => Some(VolumeState::Clean),
            "ACTIVE" => Some(VolumeState::Active),
            "NEEDSYNC" => Some(VolumeState::NeedSync),
            "SYNC" => Some(VolumeState::Sync),
            _ => None,
        }
    }
}

#[derive(Clone, Copy, PartialEq, Eq)]
pub enum PlexState {
    Empty,
    Clean,
    Active,
    IoFail,
    Stale,
}

impl PlexState {
    /// None of a snapshot's states is read: no plex has them here.
    pub fn read(word: &str) -> Option<PlexState> {
        match word {
            "EMPTY" => Some(PlexState::Empty),
            "CLEAN" => Some(PlexState::Clean),
            "ACTIVE" => Some(PlexState::Active),
            "IOFAIL" => Some(PlexState::IoFail),
            "STALE" => Some(PlexState::Stale),
            _ => None,
        }
    }

    /// Whether a plex in this state is read and written.
    pub fn is_available(self) -> bool {
        self != PlexState::Stale
    }
}

/// A set of states in which a volume may be recorded. It may have that the volume is not recorded.
#[derive(Clone, Copy)]
pub struct States {
    unrecorded: bool,
    empty: bool,
    clean: bool,
    active: bool,
    need_sync: bool,
    sync: bool,
}

impl States {
    /// No state.
    pub fn none() -> States {
        States {
            unrecorded: false,
            empty: false,
            clean: false,
            active: false,
            need_sync: false,
            sync: false,
        }
    }

    /// The volume is not recorded.
    pub fn unrecorded() -> States {
        States {
            unrecorded: true,
            ..States::none()
        }
    }

    /// The states, and this one.
    pub fn and(self, state: VolumeState) -> States {
        let mut states = self;
        match state {
            VolumeState::Empty => states.empty = true,
            VolumeState::Clean => states.clean = true,
            VolumeState::Active => states.active = true,
            VolumeState::NeedSync => states.need_sync = true,
            VolumeState::Sync => states.sync = true,
        }
        states
    }

    pub fn has(self, state: VolumeState) -> bool {
        match state {
            VolumeState::Empty => self.empty,
            VolumeState::Clean => self.clean,
            VolumeState::Active => self.active,
            VolumeState::NeedSync => self.need_sync,
            VolumeState::Sync => self.sync,
        }
    }

    /// Whether the volume may be recorded.
    pub fn may_be_recorded(self) -> bool {
        self.empty || self.clean || self.may_be_started()
    }

    /// Whether the volume may not be recorded.
    pub fn may_be_unrecorded(self) -> bool {
        self.unrecorded
    }

    /// Whether some state is one of a volume that was started as its bytes were left.
    pub fn may_be_started(self) -> bool {
        self.active || self.need_sync || self.sync
    }

    /// The states that an import leaves: what was started is recorded as one that has to be made equal, unless its recovery was begun.
    pub fn imported(self) -> States {
        States {
            active: false,
            need_sync: self.active || self.need_sync,
            ..self
        }
    }
}
