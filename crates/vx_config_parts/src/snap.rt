use vx_names::Name;

/// The relation of a snapshot to its original.
#[derive(Clone, Copy)]
pub struct Snap {
    pub name: Name,
    /// The snapshot.
    pub vol: Name,
    /// The original.
    pub of: Name,
    /// The relation's change map in the snapshot's DCO.
    pub map: u8,
    /// The relation's change map in the original's DCO.
    pub ofmap: u8,
}
