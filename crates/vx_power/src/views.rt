//! What the seats of a board know. No value of this type is made.

/// The draws of a seat's fuse, and the sectors that were handed over as it acted.
pub struct View {
    pub draws: u64,
    pub writes: u64,
    pub reads: u64,
}
