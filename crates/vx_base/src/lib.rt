//! Words that all crates' contracts use: bytes seen as blocks, counts that never fall, and want of memory.
#![tactic(auto)]

mod memory;

pub use memory::OutOfMemory;

/// The bytes of a block, which are those of a sector.
pub const BLOCK: usize = 512;
