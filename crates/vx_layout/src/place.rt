/// A sector of a disk.
#[derive(Clone, Copy, Debug, PartialEq, Eq)]
pub struct Place {
    /// The slot of the disk.
    pub disk: u8,
    /// The sector.
    pub sector: u64,
}
