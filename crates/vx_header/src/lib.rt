//! The header and the toggle of a disk's private region: one sector each, written and read.
#![tactic(auto)]

mod fault;
mod header;
mod name_field;
mod toggle;

pub use fault::HeaderFault;
pub use header::{Header, PRIVATE_SECTORS};
pub use toggle::{MOST_TEXT, Toggle};
