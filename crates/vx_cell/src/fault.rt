/// Where a device failed: the piece of a plex, by its index, or a piece of a copy of the log. The device is that of the
/// piece.
#[derive(Clone, Copy, Debug, PartialEq, Eq)]
pub enum Place {
    Data { map: u8, piece: u32, device: u32 },
    Log { copy: u8, device: u32 },
}

/// Why a call on a region was not done.
#[derive(Clone, Copy, Debug, PartialEq, Eq)]
pub enum CellFault {
    /// Devices failed; the place is the first whose count of faults rose.
    Fault(Place),
    /// The power is gone, or the cell was killed.
    PowerLost,
    /// The page of the region's marks is out. The call is not over, and goes on with `resume`.
    Held,
    /// The plex with this map is the only one that is on and unmarked.
    Only(u8),
}
