//! Owned runs of sectors of one device, and one in memory.
#![tactic(auto)]

mod bad;
mod mem_piece;
mod piece;

pub use bad::Bad;
pub use mem_piece::{Counts, MemPiece};
pub use piece::{Piece, PieceFault};
