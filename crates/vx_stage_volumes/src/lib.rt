//! The stages that start and stop a volume of the imported group. A start makes or loads its log, opens it, records it as started by a commit, and
//! copies to its plexes; a stop brings it to rest, commits its states, and puts its pieces back.
#![tactic(auto)]

mod disks;
mod early;
mod fitting;
mod laying;
mod naming;
mod numbering;
mod opening;
mod recording;
mod resting;
mod starting;
mod stopping;

pub use disks::have_disks;
pub use early::test_early;
pub use laying::put_back;
pub use naming::{copied, unopened};
pub use numbering::numbers_of;
pub use opening::{each_piece_ends, open_in, prepare};
pub use recording::record_start;
pub use resting::told;
pub use starting::start;
pub use stopping::stop;
