ghost use Rattle.std.specs.Prelude.{◌≡◌, codes};
ghost use Rattle.vx_config_parts.specs.Words.{plex_state_word, vol_state_word};

/// The kept state of a volume.
#[derive(Clone, Copy, Debug, PartialEq, Eq)]
pub enum VolState {
    Empty,
    Clean,
    Active,
    NeedSync,
    Sync,
}

/// The kept state of a plex.
#[derive(Clone, Copy, Debug, PartialEq, Eq)]
pub enum PlexState {
    Empty,
    Clean,
    Active,
    IoFail,
    Stale,
    SnapAtt,
    SnapDone,
    DcoSnp,
}

impl VolState {
    /// The word of a record.
    pub fn word(self) -> &'static [u8]
        ensures { result.now ≡ vol_state_word self }
    {
        match self {
            VolState::Empty => b"EMPTY",
            VolState::Clean => b"CLEAN",
            VolState::Active => b"ACTIVE",
            VolState::NeedSync => b"NEEDSYNC",
            VolState::Sync => b"SYNC",
        }
    }
}

impl PlexState {
    /// The word of a record.
    pub fn word(self) -> &'static [u8]
        ensures { result.now ≡ plex_state_word self }
    {
        match self {
            PlexState::Empty => b"EMPTY",
            PlexState::Clean => b"CLEAN",
            PlexState::Active => b"ACTIVE",
            PlexState::IoFail => b"IOFAIL",
            PlexState::Stale => b"STALE",
            PlexState::SnapAtt => b"SNAPATT",
            PlexState::SnapDone => b"SNAPDONE",
            PlexState::DcoSnp => b"DCOSNP",
        }
    }
}
