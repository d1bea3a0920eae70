//! A volume of a group that is started: its regions, each a cell over its pieces, and the log of its marks. A call is made
//! region by region, in rising order, up to the first that cannot be done. Whole change maps of the log's store of pages are cleared, set
//! from bytes, and listed.
#![tactic(auto)]

mod bytes;
mod calls;
mod cells;
mod changing;
mod fault;
pub mod laws;
mod listing;
mod log;
mod logging;
pub mod map_laws;
mod opening;
mod parting;
mod passes;
mod receipt;
mod setting;
mod switching;
mod volume;
mod whole_maps;
mod yielding;

pub use fault::{IoFault, OpenFault, OpenRefused};
pub use log::VolumeLog;
pub use receipt::Receipt;
pub use volume::{Volume, VolumeShape};
pub use whole_maps::WholeMaps;
