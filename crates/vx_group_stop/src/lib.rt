//! A volume comes to rest before it is recorded clean: its regions are settled, and their dirty marks taken away.
#![tactic(auto)]

pub mod laws;
mod quiescing;

pub use quiescing::{marked, quiesce};
