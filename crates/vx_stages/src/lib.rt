//! What the commands of a script are made of: tests, stages and how each stage goes or ends its command, from moment to moment. No shelf
//! and no device is named.
#![tactic(auto)]

mod refusals;
mod stage;
mod test;

pub use refusals::{refusal_by, refusal_from};
pub use stage::{Change, Source, Stage};
pub use test::Test;
