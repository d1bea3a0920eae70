//! The stages that give a volume of the imported group plexes or logs, take logs away, or take a plex out of use and put one into use: a running
//! volume gets a mirror; one of one plex gets logs, or loses them; a data plex of a running volume goes out of use, or into use. Each is tested and
//! planned before anything is touched. For a mirror the pieces of the new plex are taken, a free map is marked in each region, the plex joins the
//! volume by a commit, and is copied to. For logs of a volume that was started before an empty log is written on the new plexes before these are
//! recorded by a commit; a volume that runs goes on with the log, or without one. A plex goes out of use once the volume has come to rest with its
//! log made firm, and each region has another plex; one that goes into use is copied to; both by a commit with which it is switched off or on.
#![tactic(auto)]

mod att_testing;
mod attaching;
mod committing;
mod copying;
mod det_testing;
mod detaching;
mod join_laws;
mod joining;
mod laying;
mod log_laws;
mod log_laying;
mod log_planning;
mod log_testing;
mod making;
mod marked;
mod marking;
mod mirroring;
mod new_places;
mod parking;
mod planning;
mod plex_states;
mod powering;
mod preparing;
mod relogging;
mod settling;
mod switch_laws;
mod switching;
mod testing;
mod unpreparing;

pub use att_testing::is_held;
pub use attaching::attach;
pub use committing::commit_next;
pub use copying::{copy_plexes, each_copying_goes, each_marked_region_is_missed};
pub use detaching::{detach, needs_plex};
pub use join_laws::{
    each_failed_join_stops, each_join_goes_on, each_joined_plex_is_in_place, each_joined_plex_runs,
    each_parked_plex_may_join, each_parking_parts,
};
pub use joining::join_plex;
pub use log_laws::{
    each_failed_record_stops, each_log_is_made, each_log_is_unmade, each_record_goes,
    each_relog_goes,
};
pub use log_testing::{is_data_plex_of, is_log_plex_of};
pub use marked::{each_mark_is_shown, each_marked_volume_is_sound, each_shown_plex_is_sound};
pub use marking::{Unmarked, each_free_map_is_free, each_marking_rests, mark_plex};
pub use mirroring::mirror;
pub use new_places::{each_held_plex_can_be_taken, each_new_plex_is_free};
pub use planning::{PlannedMirror, planned_mirror};
pub use plex_states::{map_or_zero, plex_in};
pub use preparing::prepare;
pub use settling::settle;
pub use switch_laws::{each_switch_goes, each_switch_is_sound, each_switch_is_within};
pub use testing::test_mirror;
pub use unpreparing::{unprepare, widen};
