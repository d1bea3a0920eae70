//! The records of a configuration as values, the words of their attributes, and the refusals of a configuration.
#![tactic(auto)]

mod dco;
mod disk;
mod fault;
mod group;
mod names;
mod object;
mod plex;
mod snap;
mod state;
mod subdisk;
mod vol;

pub use dco::Dco;
pub use disk::Disk;
pub use fault::{Limit, ObjectFault};
pub use group::Group;
pub use names::{comes_before, refers, same};
pub use object::Object;
pub use plex::{Plex, PlexKind, PlexLayout};
pub use snap::Snap;
pub use state::{PlexState, VolState};
pub use subdisk::Subdisk;
pub use vol::{PolicyKind, PolicyName, Vol};
