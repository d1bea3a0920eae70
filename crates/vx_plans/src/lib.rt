//! Commands as plans: the plan of each form, a list of stages, and what a run of commands may do from moment to moment. No shelf and
//! no device is named.
#![tactic(auto)]

mod laws;
mod planning;
mod stages;

pub use laws::each_plan_is_complete;
pub use planning::plan;
pub use stages::{Finish, Plan, Stages};
