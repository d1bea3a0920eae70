//! A new volume that passes its tests, and has a plan, is let through by the tests of added records: laws, as functions that do
//! nothing and promise them.
#![tactic(auto)]

pub mod laws;
