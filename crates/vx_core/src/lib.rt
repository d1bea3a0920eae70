//! What a region of a mirrored volume does next: pure decisions, with no device in sight. A region has its plexes and
//! marks as masks and a phase; an event comes, and `next` says which act follows. Proved of it: it is the table of the
//! rules, and whatever the devices answer, and wherever the power is cut, the marks and the blocks stay sound and the
//! calls a legal history.
#![tactic(auto)]

pub mod laws;
mod rules;
mod stage;

pub use rules::next;
pub use stage::{Act, Event, Job, Phase, Stage, Step, Work};
