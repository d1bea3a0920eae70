//! Reads and writes of a script, served by a running volume of a disk group.
#![tactic(auto)]

mod bytes;
mod calling;
mod ending;
pub mod laws;
mod served;

pub use calling::serve;
pub use served::Served;
