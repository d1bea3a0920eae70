//! Commits to the disks of a group, as steps of the world, and the stages that commit to the imported group: a change of its
//! configuration, a disk that joins it, a group that is made, and records that are added, those of a text or those of a new volume that is
//! planned.
#![tactic(auto)]

mod adding;
mod changing;
mod committing;
mod creating;
mod founding;
mod handing;
mod joining;
mod laying;
mod making;
mod planning;
mod slots;
mod sources;

pub use changing::{change, commit_edits, commit_growing};
pub use committing::{LATE, commit, stop_of};
pub use creating::create;
pub use joining::join;
pub use making::make;
pub use planning::{NextConfig, broken, edited, planned, volume_in};
