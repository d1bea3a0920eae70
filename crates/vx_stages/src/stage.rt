use crate::Test;
use vx_config_parts::PolicyName;
use vx_names::Name;
use vx_new_volumes::{NewLogs, NewPlex, NewVolume};
use vx_script_words::Bytes;

/// A change of the group's configuration.
#[derive(Clone, Copy)]
pub enum Change {
    /// The volume gets the policy.
    Policy { vol: Name, policy: PolicyName },
    /// The volume goes, with its plexes, their subdisks and its DCO.
    Remove(Name),
}

/// Records that are to be added to a group.
#[derive(Drop)]
pub enum Source {
    /// Those of a text, as none of its volumes was ever started.
    Text(Bytes),
    /// Those of a new volume, which are planned.
    Volume(NewVolume),
}

/// A stage of a command. Disks and devices of a list are those of the command's words.
#[derive(Drop)]
pub enum Stage {
    Gate(Test),
    /// The device is free, and the shelf hands it over.
    Take(Name),
    /// Each device of the list is free, one after the other, and the shelf hands it over.
    TakeDisks,
    /// The device's header is read, and there is none.
    LookBlank(Name),
    /// The headers of the devices of the list are read, one after the other, and there is none.
    LookDisks,
    /// The device's header is read, and there is one.
    LookHeaded(Name),
    /// The headers of all free devices that are not taken are read, and none names the group.
    Search(Name),
    /// No device has the name, and one of so many sectors of zeros is made.
    MakeImage { device: Name, sectors: u64 },
    /// Zeros are written over the device's header.
    Wipe(Name),
    /// No volume has the name, started or recorded, and the device becomes one that is started, of its blocks.
    StartBare { vol: Name, device: Name },
    /// The configuration of the imported group is changed, and committed.
    Change(Change),
    /// The records are added to the configuration of the imported group, and this is committed.
    Make(Source),
    /// The only disk of the list joins the group.
    Join,
    /// No group is imported, and one of the name is made of the disks of the list.
    Create(Name),
    /// No group is imported; the one of the name is searched for, and its configuration is committed.
    Import(Name),
    /// The group leaves, and its devices with it.
    LetGo,
    /// The volume of the imported group is opened, recorded as started, and its plexes are copied to; this ends the command.
    Start(Name),
    /// The running volume of the imported group gets a mirror: its map is marked, its records are committed, it joins the volume, and is
    /// copied to; this ends the command.
    Mirror(NewPlex),
    /// The volume of the imported group gets logs: an empty one is written where it was started before, the records are committed, and
    /// where it runs it goes on with the log.
    Prepare(NewLogs),
    /// The volume of the imported group loses its logs by a commit, and where it runs it goes on without one.
    Unprepare(Name),
    /// The volume of the data plex comes to rest, and the plex is recorded as out of use by a commit: it is not written to any more.
    Detach(Name),
    /// The data plex of the running volume is recorded as in use by a commit, it is written to, and what it misses is copied to it; this ends
    /// the command.
    Attach { vol: Name, plex: Name },
    /// The plex leaves its volume, which comes to rest first where that is needed, and is recorded as one of none, or is removed with its
    /// subdisks. A running volume goes on without it.
    Dissociate { plex: Name, remove: bool },
    /// The volume of the imported group comes to rest, its states are recorded, and it runs no more.
    Stop(Name),
}
