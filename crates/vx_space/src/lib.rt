//! The free space of a disk group: the sectors of the public regions of its good disks that are in no subdisk.
#![tactic(auto)]

mod disks;
mod extent;
mod fault;
mod free;
mod gaps;
pub mod laws;
mod taking;

pub use disks::good_disks;
pub use extent::Extent;
pub use fault::SpaceFault;
pub use free::Free;
