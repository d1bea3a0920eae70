//! The import of a disk group: its devices are found on the shelf, and its configuration is read and committed again.
#![tactic(auto)]

mod checking;
mod committing;
mod gathering;
mod giving;
mod importing;
mod inspecting;
mod judging;
mod naming;
mod placing;
mod searching;
mod sorting;

pub use importing::import;
