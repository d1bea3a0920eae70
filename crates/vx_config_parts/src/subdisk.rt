use vx_names::Name;

/// A run of sectors of a disk's public region.
#[derive(Clone, Copy)]
pub struct Subdisk {
    pub name: Name,
    pub disk: Name,
    /// The first sector in the public region.
    pub off: u64,
    /// Its sectors.
    pub len: u64,
    /// The plex that it is a piece of.
    pub plex: Option<Name>,
    /// The column of the plex.
    pub col: u32,
    /// The first sector in the column.
    pub at: u64,
}
