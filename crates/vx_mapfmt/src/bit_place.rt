/// Where the bit of a region stands in each map.
#[derive(Clone, Copy, Debug, PartialEq, Eq)]
pub struct BitPlace {
    /// The page, by its index in the map.
    pub page: u64,
    /// The byte of the page's sector.
    pub byte: u64,
    /// The bit of the byte, 0 the lowest.
    pub bit: u32,
}
