//! Names of disk groups, disks, volumes, plexes, subdisks and devices; numbers, lengths and attributes as words.
#![tactic(auto)]

mod attr;
mod length;
mod name;
mod number;

pub use attr::{Attr, AttrFault};
pub use length::{LengthFault, read_length};
pub use name::{Name, NameFault};
pub use number::read_number;
