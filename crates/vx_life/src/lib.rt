//! The history of a volume: its entries, and what its blocks may hold after them. What a life of a volume is, from
//! its start to its stop, loss or joining, is told here in definitions alone; no code of the project is named.
#![tactic(auto)]

/// A part of a call: a region, and the place of the part in the region's history.
#[derive(Clone, Copy, Debug, PartialEq, Eq)]
pub struct Part {
    /// The region, from 0 up.
    pub region: u64,
    /// How often a snapshot had been broken off, or the volume restored, in this life.
    pub epoch: u64,
    /// The number of the part in its region, from 1 up.
    pub number: u64,
}

/// How a part ended. A write that was not acknowledged is torn, and a read without values is missed.
#[derive(Clone, Copy, Debug, PartialEq, Eq)]
pub enum EntryKind {
    Read,
    Write,
    Torn,
    Missed,
}
