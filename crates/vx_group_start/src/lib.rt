//! A volume of a disk group is started out of the pool of its group's pieces, and put back.
#![tactic(auto)]

mod closing;
mod copying;
mod fault;
mod gathering;
pub mod laws;
mod laying;
mod logs;
mod making;
mod opening;
mod remains;

pub use closing::close_volume;
pub use copying::copy_all;
pub use fault::StartFault;
pub use gathering::gather;
pub use laying::lay_down;
pub use logs::{is_fresh, mask_to_copy};
pub use making::{leave_log, make_log, take_log};
pub use opening::open_volume;
