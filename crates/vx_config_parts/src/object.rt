ghost use Rattle.std.specs.Prelude.{◌≡◌};
ghost use Rattle.vx_config_parts.specs.Objects.{name_of};

use crate::{Dco, Disk, Group, Plex, Snap, Subdisk, Vol};
use vx_names::Name;

/// A record of a configuration, whatever its kind.
#[derive(Clone, Copy)]
pub enum Object {
    GroupRecord(Group),
    DiskRecord(Disk),
    SubdiskRecord(Subdisk),
    PlexRecord(Plex),
    VolRecord(Vol),
    DcoRecord(Dco),
    SnapRecord(Snap),
}

impl Object {
    pub fn name(&self) -> &Name
        ensures { result.now ≡ name_of self.now }
    {
        match self {
            Object::GroupRecord(group) => &group.name,
            Object::DiskRecord(disk) => &disk.name,
            Object::SubdiskRecord(subdisk) => &subdisk.name,
            Object::PlexRecord(plex) => &plex.name,
            Object::VolRecord(vol) => &vol.name,
            Object::DcoRecord(dco) => &dco.name,
            Object::SnapRecord(snap) => &snap.name,
        }
    }
}
