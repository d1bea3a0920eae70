//! Which of the plexes that may serve a read serves it: in turn, a preferred one, or as a stored function says. Whatever
//! the policy and the function, the plex is one of those that may.
#![tactic(auto)]

mod members;
mod picker;

pub use picker::{Picker, Policy};
