//! A bare volume: a whole device that is started as a volume of its blocks. Reads and writes are served part by part,
//! one device call each, and each part draws the next number of its region.
#![tactic(auto)]

mod bytes;
mod part;
mod range;
mod started;

pub use started::Started;
