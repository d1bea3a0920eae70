/// Why sectors were not taken.
#[derive(Clone, Copy, Debug, PartialEq, Eq)]
pub enum SpaceFault {
    OutOfMemory,
    /// The disk has only so many free sectors.
    Short(u64),
}
