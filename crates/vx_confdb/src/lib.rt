//! The configuration database of a disk group: the disks that carry its configuration, how a group is made of disks, and
//! how a new configuration is written to them.
#![tactic(auto)]

mod fault;
mod founding;
mod group;
mod joining;
mod text;
mod writing;

pub use fault::GroupFault;
pub use founding::{Refused, create};
pub use group::Group;
pub use text::{Text, sectors_for};
pub use vx_copies::Disk;
