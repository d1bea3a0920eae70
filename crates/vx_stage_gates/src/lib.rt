//! The tests of commands, by what a house holds: its group's configuration, which volumes are started, the sizes of devices.
#![tactic(auto)]

mod devices;
mod groups;
mod slots;
mod test;
mod volumes;

pub use devices::new_records;
pub use slots::next_slot;
pub use test::failing;
pub use volumes::is_started;
