//! The tests of records that are added to a group, in the order of the documentation. Every command that adds records asks
//! them first.
#![tactic(auto)]

mod refusal;

pub use refusal::refusal_of;
