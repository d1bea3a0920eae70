use vx_objects::Listed;
use vx_space::Extent;

/// Where new plexes and logs are to lie.
#[derive(Drop)]
pub struct Plan {
    /// The extents of each column of each plex.
    pub plexes: Listed<Listed<Listed<Extent>>>,
    /// The extents of each log.
    pub logs: Listed<Listed<Extent>>,
}
