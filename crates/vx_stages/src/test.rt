use vx_names::Name;

/// A test of a command, on the world as it stands: the configuration, what is started, and the sizes of devices.
#[derive(Clone, Copy)]
pub enum Test {
    /// The device's sectors make a volume of regions of 128 sectors.
    Sized(Name),
    /// No group is imported.
    NoGroup,
    /// The imported group has the name, if one is given.
    GroupIs(Option<Name>),
    /// The devices of a new group of this name, the number of its disks and all names keep the limits.
    GroupLimits(Name),
    /// A device that is to join the group, its slot and its name keep the limits.
    JoinLimits,
    /// The records of a new group of this name keep the rules.
    GroupRecords(Name),
    /// The group records the volume.
    HasVolume(Name),
    /// No volume of the group is started.
    NoneStarted,
    /// The volume is not started.
    Stopped(Name),
    /// The volume is in no relation.
    Unrelated(Name),
    /// The plex is a data plex of the volume.
    HasPlex { vol: Name, plex: Name },
}
