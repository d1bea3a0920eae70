//! The configuration of a disk group, which is valid at all times, and the edits that lead from one to another.
#![tactic(auto)]

mod change;
mod config;
mod edit;
pub mod laws;
mod lists;
mod parts;
mod printed;
mod records;
mod said;

pub use config::Config;
pub use edit::Edit;
pub use lists::Listed;
pub use printed::record_of;
pub use records::{objects_of, records_of};
pub use vx_config_parts::{
    Dco, Disk, Group, Limit, Object, ObjectFault, Plex, PlexKind, PlexLayout, PlexState,
    PolicyKind, PolicyName, Snap, Subdisk, Vol, VolState,
};
pub use vx_rules::{Rule, first_broken};
