//! The stage that takes a plex out of its volume, or removes it: it is tested and planned before anything is touched. A data plex leaves a running
//! volume once that has come to rest with its log made firm, and each region has another plex that is current; one of a volume that does not run
//! once its log says so. A copy of a log leaves a running volume once that is committed. All else is done by the record alone.
#![tactic(auto)]

mod asking;
mod dissociating;
mod forms;
mod layouts;
mod logging;
mod planning;
mod powering;
mod recording;
mod resting;
mod taking;
mod testing;
mod ways;

pub use dissociating::dissociate;
