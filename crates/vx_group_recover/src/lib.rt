//! A volume that was opened over what a power cut left is made whole: its regions are settled, its plexes copied, and its dirty marks
//! taken away.
#![tactic(auto)]

mod healing;
pub mod laws;

pub use healing::{Healed, heal};
