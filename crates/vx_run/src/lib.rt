//! The top call: runs a script of commands on a shelf of devices, one after the other, writes the line of each answer, and answers a
//! status. Below it the engine of plans: the stages of a command are run one after the other over a house and its shelf.
#![tactic(auto)]

mod calling;
mod executing;
mod fine;
mod grouped;
mod laws;
mod lent;
mod lines;
mod place;
mod planning;
mod policies;
mod powering;
mod ranges;
mod recovering;
mod running;
mod showing;
mod source;
mod stages;
mod top;
mod unserved;
mod words;

pub use executing::execute;
pub use fine::is_fine;
pub use laws::each_told_shelf_is_a_moment;
pub use lines::{ServeFault, run_commands};
pub use powering::serve;
pub use source::{Unread, read_all};
pub use top::run;
pub use unserved::Unserved;
pub use words::folder;
