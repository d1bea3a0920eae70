//! The marks of the regions of a volume, as those who ask for them see a log of marks: the trait `Marker`. A mark that is
//! answered Ok is on every copy of the log, whatever a log of marks is kept on.
#![tactic(auto)]

pub mod laws;
mod marker;
mod no_log;

pub use marker::{MarkFault, Marker};
pub use no_log::NoLog;
