//! The moments of a world of devices, groups and volumes, and what the bytes of a group's disks say of its volumes from one moment to
//! another. Definitions, and laws as functions that do nothing and promise them.
#![tactic(auto)]

pub mod laws;
