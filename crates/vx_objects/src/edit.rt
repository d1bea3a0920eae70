use crate::{Dco, Disk, Listed, Object, PlexState, PolicyName, Snap, VolState};
use vx_names::Name;

/// A step from one configuration to another.
#[derive(Drop)]
pub enum Edit {
    AddDisk(Disk),
    /// Adds these records as they are.
    Make(Listed<Object>),
    SetPlex {
        plex: Name,
        vol: Option<Name>,
        state: PlexState,
        map: Option<u8>,
    },
    SetVol {
        vol: Name,
        state: VolState,
        policy: PolicyName,
    },
    /// Removes the plex and its subdisks.
    RemovePlex(Name),
    /// Removes the volume, its plexes with their subdisks, and its DCO.
    RemoveVol(Name),
    /// Adds the DCO, and names it in its volume.
    AddDco(Dco),
    /// Removes the DCO; its volume then names none.
    RemoveDco(Name),
    AddSnap(Snap),
    RemoveSnap(Name),
    SetRegion {
        vol: Name,
        region: u64,
    },
}
