//! The view of the volumes of a configuration with their plexes and subdisks, and their kernel states.
#![tactic(auto)]

mod hierarchy;
mod kernel;
mod lines;
mod row;
mod rows;

pub use hierarchy::print_ht;
