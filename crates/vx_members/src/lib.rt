//! Functions that answer a member of a mask of maps, for pickers.
#![tactic(auto)]

mod members;

pub use members::{highest_member, lowest_member};
