use crate::Boxed;
use vx_names::Name;

/// A command that may also stand in a block, in the administering session. Second names are boxed, so that a block's line
/// is no larger than a call.
#[derive(Drop)]
pub enum Act {
    /// Without a plex `nmirror=1` is meant.
    SnapMake {
        vol: Boxed<Name>,
        snap: Boxed<Name>,
        plex: Option<Boxed<Name>>,
    },
    Reattach {
        snap: Name,
        vol: Boxed<Name>,
    },
    Restore {
        vol: Name,
        snap: Boxed<Name>,
    },
    Snapback {
        snap: Name,
        from_replica: bool,
    },
    PlexDet {
        plex: Name,
    },
    PlexAtt {
        vol: Name,
        plex: Boxed<Name>,
    },
}

/// An act and the word after its `-g`.
#[derive(Drop)]
pub struct Admin {
    pub group: Option<Boxed<Name>>,
    pub act: Act,
}
