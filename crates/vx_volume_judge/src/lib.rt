//! A reader of disks with a mirror that shares nothing with the volume manager: what the bytes hold by the formats alone, and whether
//! that is what the definitions and the answers that were given want.
#![tactic(auto)]

mod bytes;
mod candidates;
mod finding;
mod form;
mod known;
mod logs;
mod making;
mod mirror;
mod private;
mod record;
mod sound;
mod start;
mod state;
mod step;
mod verdict;
mod volume;

pub use bytes::{are_zero, cut, decimal, field, fill_of, has, hexadecimal, part, sectors};
pub use candidates::Candidates;
pub use finding::Finding;
pub use form::Form;
pub use known::{Known, REGION, take_all};
pub use logs::{NewLogs, logs_of};
pub use making::making_of;
pub use mirror::mirror_of;
pub use private::{Offer, PRIVATE, is_disk, newest, slot_of};
pub use record::Records;
pub use start::{lone_start_of, start_of};
pub use state::{PlexState, VolumeState};
pub use step::{Answer, Command, Sort, Step};
pub use verdict::{Want, is_ok, judge, judge_next, judge_status};
pub use volume::Volume;
