use vx_names::Name;
use vx_objects::Listed;

/// A data plex that is to be added to a volume.
#[derive(Drop)]
pub struct NewPlex {
    pub vol: Name,
    /// The disks that it may lie on; all good ones where none is named.
    pub disks: Listed<Name>,
}
