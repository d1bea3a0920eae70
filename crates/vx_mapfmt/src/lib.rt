//! The shape of a plex of change maps: its sizes, its header, and where the bit of a region stands.
#![tactic(auto)]

mod bit_place;
mod shape;

pub use bit_place::BitPlace;
pub use shape::DcoShape;
