//! The import of a disk group: what its devices say of themselves, and which of their configurations is taken.
#![tactic(auto)]

mod choosing;
mod device;
mod inspecting;
mod judging;
mod naming;
mod reading;
mod taking;
mod toggles;

pub use choosing::{Best, Taken, Tried, choose, take_one};
pub use device::{GroupDevice, Reading, half_of};
pub use inspecting::inspect;
pub use judging::{Given, ImportFault};
pub use naming::Damage;
pub use reading::{read_header, read_text, read_toggle};
pub use taking::try_best;
