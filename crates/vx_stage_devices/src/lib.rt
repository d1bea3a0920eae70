//! Stages over devices that are no commits: headers are read and wiped out, a device is made, or started as a volume.
#![tactic(auto)]

mod header;
mod heading;
mod imaging;
mod looking;
mod searching;
mod starting;
mod wiping;

pub use heading::look_headed;
pub use imaging::make_image;
pub use looking::{look_blank, look_disks};
pub use searching::search;
pub use starting::start_bare;
pub use wiping::wipe;
