use vx_names::Name;

/// Logs that are to be added to a volume, and a DCO with them.
#[derive(Clone, Copy)]
pub struct NewLogs {
    pub vol: Name,
    pub count: u32,
    /// The sectors of the volume's regions from then on; as they are where none is given.
    pub region: Option<u64>,
}
