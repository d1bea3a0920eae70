//! What a volume has while it is started. Its form is read from the configuration; its regions and the copies of its log come out of the
//! pool of a group, its log is loaded or made new, and all goes back; and what lies behind the private regions of a group's disks: pieces
//! that no volume has, and the volumes that run.
#![tactic(auto)]

mod back;
mod cells;
mod copies;
mod form;
pub mod form_laws;
mod fresh;
pub mod laws;
mod left;
mod logs;
mod masks;
mod pieces;
mod plexes;
mod policy;
mod public;
mod region;
pub mod region_laws;
mod regions_back;
mod regions_taking;
mod room;
mod taking;
mod volumes;

pub use back::{put_copies, put_pieces};
pub use cells::put_cells;
pub use copies::take_copies;
pub use form::{VolumeForm, form_of};
pub use fresh::fresh_log;
pub use left::{FreshRefused, LogLeft, VolumeLeft};
pub use logs::load_log;
pub use pieces::VolumePieces;
pub use policy::policy_of;
pub use public::{Public, Remains, Running};
pub use region::take_region;
pub use regions_back::{put_plexes, put_regions};
pub use regions_taking::take_regions;
pub use room::{pieces_in, reserve_cells};
pub use taking::take_pieces;
pub use volumes::put_volume;
