//! What a start, a stop and a recovery of a volume record in its configuration: the edits, and laws of what they leave.
#![tactic(auto)]

mod edits;
pub mod laws;

pub use edits::{recovered_edits, recovery_edits, start_edits, stop_edits};
