use vx_names::Name;

/// A disk group.
#[derive(Clone, Copy)]
pub struct Group {
    pub name: Name,
    /// The version of its formats.
    pub version: u32,
}
