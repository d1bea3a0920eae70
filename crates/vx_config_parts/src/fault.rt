use vx_base::OutOfMemory;
use vx_names::Name;

/// The limit that a configuration passes.
#[derive(Clone, Copy, Debug, PartialEq, Eq)]
pub enum Limit {
    /// There is one group record.
    Group,
    /// A number has fewer than 41 bits, and a DCO has 32 maps.
    Number,
    /// Slots differ and are below 32.
    Disks,
    /// There are at most 64 volumes.
    Volumes,
    /// Names of the group, of disks and of volumes have at most 24 characters.
    Name,
    /// A region has a size that is allowed, and a snapshot has its original's shape.
    Region,
    /// A volume has 1 to 262,144 regions.
    Regions,
    /// A volume has a data plex, and at most 32 plexes.
    Plexes,
}

/// Why a configuration is refused.
#[derive(Clone, Copy, Debug, PartialEq, Eq)]
pub enum ObjectFault {
    /// The name stands twice.
    Exists(Name),
    /// Nothing that would fit has the name.
    NoObject(Name),
    /// The snapshot has another relation, or its original is a snapshot.
    InUse(Name),
    /// The subdisk overlaps an earlier one.
    Overlap(Name),
    /// The subdisk is empty, or does not lie in its disk's public region.
    Outside(Name),
    /// The maps of the volume are not right.
    NoMap(Name),
    /// A limit is passed.
    Limit(Limit),
    /// The plex has not the subdisks that it needs.
    NotWhole(Name),
    /// The volume has not the log that it needs.
    NoLog(Name),
    /// Memory was not there.
    OutOfMemory,
}

impl From<OutOfMemory> for ObjectFault {
    fn from(_refused: OutOfMemory) -> ObjectFault {
        ObjectFault::OutOfMemory
    }
}
