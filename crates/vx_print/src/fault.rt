use vx_names::Name;

/// Why a view was not printed.
#[derive(Clone, Copy, Debug, PartialEq, Eq)]
pub enum PrintFault {
    /// No volume has the name.
    NoObject(Name),
    OutOfMemory,
}
