//! The pieces of a new plex: they come out of the pool of a group before the plex is recorded, lie among what is left over meanwhile,
//! and go from there into the regions of its volume.
#![tactic(auto)]

pub mod laws;
mod parking;
mod runs;

pub use parking::{park_plex, unpark_plex};
pub use runs::runs_of;
