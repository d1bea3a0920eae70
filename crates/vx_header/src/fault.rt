/// What is wrong with the sector of a header or a toggle.
#[derive(Clone, Copy, Debug, PartialEq, Eq)]
pub enum HeaderFault {
    /// The first eight bytes are not the mark of a header.
    NotInitialised,
    /// The first byte that does not fit, from the sector's start: of a number the number's first byte.
    BadHeader(u64),
}
