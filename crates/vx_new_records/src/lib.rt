//! The tests of a new volume, and of new plexes and logs of a volume, before they are planned, and the records that a plan makes of them.
#![tactic(auto)]

mod known;
mod laying;
mod logs;
mod mirrors;
mod naming;
mod parts;
mod records;
mod tests;

pub use logs::{logs_fault, logs_of, logs_request};
pub use mirrors::{free_map, lowest_plex, mirror_fault, mirror_of, mirror_request, room_fault};
pub use records::{dco_name, records_of};
pub use tests::{absent_disk, new_fault};
