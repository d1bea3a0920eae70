//! Laws of the region core over whole courses of events: what is kept stays kept from any moment to any other, what begins
//! no call leaves the history, how the marks on the copies of a log move, and how a new history begins.
#![tactic(auto)]

pub mod laws;
