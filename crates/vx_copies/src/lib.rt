//! The copies of a disk group's configuration on its disks: how a new text is written to all good disks, so that
//! wherever it is stopped the disks give the old text or the new one.
#![tactic(auto)]

mod disk;
mod pass;
mod writing;

pub use disk::Disk;
pub use writing::{Lost, commit, good_slots};
