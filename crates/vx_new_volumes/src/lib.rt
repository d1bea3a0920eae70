//! The planner of space on disks: where a new volume, a mirror or logs are to lie; and what a command that is planned so adds to a
//! configuration: its tests, its names and its records.
#![tactic(auto)]

mod disks;
mod fault;
mod gather;
pub mod laws;
mod length;
mod logs;
mod mirror;
mod next;
mod parts;
mod place;
mod planner;
mod request;
mod volume;

pub use fault::PlanFault;
pub use logs::NewLogs;
pub use mirror::NewPlex;
pub use next::Next;
pub use parts::Plan;
pub use planner::plan;
pub use request::Request;
pub use volume::NewVolume;
