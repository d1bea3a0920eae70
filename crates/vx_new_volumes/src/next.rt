use vx_names::Name;

/// The number from which on the next subdisk of a disk is named.
#[derive(Clone, Copy)]
pub struct Next {
    pub disk: Name,
    pub number: u64,
}
