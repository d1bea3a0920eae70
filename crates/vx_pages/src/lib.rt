//! A page of the change maps of a volume on one or two copies, as a log of marks: for each map a sector, with its piece on
//! each copy and what is known of it.
#![tactic(auto)]

mod bytes;
pub mod copies;
mod create;
mod local_piece;
mod page;
mod sector;
mod sectors;

pub use bytes::{clip_all, empty_page, full_page, has_bit, with_bit};
pub use create::{SectorRefused, create_sector};
pub use local_piece::LocalPiece;
pub use page::Page;
pub use sector::MapSector;
