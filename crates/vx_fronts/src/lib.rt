//! Disks of a group of which it has the fronts: how their devices are parted and joined again, and what is written to the fronts
//! as what is written to whole devices.
#![tactic(auto)]

mod disk;
pub mod laws;
mod parting;

pub use parting::{close_group, open_group};
