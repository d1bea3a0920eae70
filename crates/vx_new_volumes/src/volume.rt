use crate::Request;
use vx_names::Name;

/// A volume that is to be made.
#[derive(Drop)]
pub struct NewVolume {
    pub vol: Name,
    /// Its length and regions, its plexes and logs, and the disks that they may lie on.
    pub request: Request,
}
