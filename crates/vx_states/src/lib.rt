//! The kept states of volumes and plexes, and what each action on a volume makes of them.
#![tactic(auto)]

mod action;
mod table;

pub use action::{Action, WrongState};
pub use table::next_state;
pub use vx_config_parts::{PlexState, VolState};
