use vx_names::Name;

/// A disk of the group.
#[derive(Clone, Copy)]
pub struct Disk {
    pub name: Name,
    /// The device that held it when the record was written.
    pub device: Name,
    /// Its place among the group's disks, below 32.
    pub slot: u8,
    /// The sectors of its public region.
    pub publen: u64,
}
