//! A volume is a list of blocks of 512 bytes, cut into regions of one size.
#![tactic(auto)]

mod geometry;
mod reading;
mod word;

pub use geometry::{Geometry, Span};
pub use reading::{BlockFault, read_block};
pub use vx_base::BLOCK;
pub use word::{put_block, put_hex};
