//! The change maps of a volume on one or two copies, as a log of marks: the store of all pages.
#![tactic(auto)]

mod arming;
mod assembly;
mod counting;
mod creating;
mod cutting;
mod fault;
mod header;
mod joining;
mod loading;
mod pages;
mod paging;
mod parting;
mod reading;
mod runs;
mod showing;
mod slots;
mod store;

pub use counting::store_pieces;
pub use fault::{StoreFault, StoreRefused};
pub use store::{Base, MapStore};
