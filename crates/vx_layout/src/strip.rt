/// A range of sectors of a disk.
#[derive(Clone, Copy, Debug, PartialEq, Eq)]
pub struct Strip {
    /// The slot of the disk.
    pub disk: u8,
    /// The first sector.
    pub start: u64,
    /// How many sectors.
    pub count: u64,
}
