//! Runs of pieces cut into pieces of one sector.
#![tactic(auto)]

mod cut;

pub use cut::cut_run;
