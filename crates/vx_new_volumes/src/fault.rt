/// Why there is no plan.
#[derive(Clone, Copy, Debug, PartialEq, Eq)]
pub enum PlanFault {
    OutOfMemory,
    /// A plex, a column or a log needs so many sectors, and the disks that may hold it have only so many.
    NoSpace { have: u64, need: u64 },
    /// So many disks are needed.
    TooFewDisks(u32),
}
