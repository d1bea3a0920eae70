//! `vxrecover`: goes over the volumes of the imported group that do not run, by name, and starts or recovers each. A recovery has two steps,
//! each over the house of a run. It is recorded as begun; then the volume is opened out of the pieces of its group and healed, the end is
//! recorded, and it runs over what was healed.
#![tactic(auto)]

mod beginning;
mod ending;
mod going;
mod healing;
mod names;
mod needs;
mod opening;
mod recovering;
mod seeing;
mod tests;
mod texts;

pub use going::recover;
