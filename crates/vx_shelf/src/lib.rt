//! Sets of whole devices under names, and one over devices in memory.
#![tactic(auto)]

mod mem_shelf;
mod names;
mod shelf;

pub use mem_shelf::MemShelf;
pub use names::in_order;
pub use shelf::{Shelf, ShelfFault, numbers_differ};
