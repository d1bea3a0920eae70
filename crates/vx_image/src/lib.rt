//! A volume as the bytes of its disks are: what its data plexes hold and what the copies of its log mark, what is read from
//! that, and when it is sound. Definitions, and laws as functions that do nothing and promise them. And where the plexes of a valid
//! configuration lie: no sector of a disk is in two subdisks, and the subdisks of a plex lie end to end in its columns.
#![tactic(auto)]

mod columns;
mod laws;
mod layout;
pub mod plex_laws;
mod strips;

pub use laws::{
    each_count_fits, each_image_is_its_own, each_image_is_sound_or_not, each_import_stands,
    each_narrowed_image_is_sound, each_reading_is_within,
};
pub use layout::layout_of;
pub use strips::slot_of;
