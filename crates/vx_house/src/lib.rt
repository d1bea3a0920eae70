//! What a run holds of its shelf, and the moments of the world that it is: devices are taken into its hand, and given back.
#![tactic(auto)]

mod giving;
mod house;
mod leaving;
mod lying;
mod standing;
mod stop;
mod taking;

pub use giving::{give_disks, give_group, give_hand, give_volumes};
pub use house::{House, Imported, Taken};
pub use leaving::leave;
pub use lying::each_idle_volume_is_free;
pub use standing::each_house_stands;
pub use stop::{Stop, fault, lost, refused};
pub use taking::{take, take_disks};
