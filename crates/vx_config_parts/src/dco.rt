use vx_names::Name;

/// The object that stands for a volume's change maps.
#[derive(Clone, Copy)]
pub struct Dco {
    pub name: Name,
    pub vol: Name,
    /// How many change maps a log plex holds.
    pub maps: u32,
}
