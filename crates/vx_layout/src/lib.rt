//! How the blocks of a plex lie on disks: columns of strips, and the contiguous runs of a range of blocks.
#![tactic(auto)]

mod column;
mod columns;
mod layout;
mod place;
mod run;
mod search;
mod strip;

pub use column::Column;
pub use columns::Columns;
pub use layout::Layout;
pub use place::Place;
pub use run::{Run, Runs};
pub use strip::Strip;
