//! The edits of a commit keep each volume that they do not name; and what a volume has, beside what it had, to which plexes are added, a
//! planned mirror among them, or that gets logs and a DCO or loses them. Laws, as functions that do nothing and promise them.
#![tactic(auto)]

mod dcos;
mod edits;
mod joining;
mod mirrors;

pub use dcos::{
    each_fitting_log_has_no_fault, each_lone_image_is_sound, each_lone_plex_holds,
    each_new_log_is_used, each_own_edit_keeps_group, each_preparing_changes_dco,
    each_preparing_is_own, each_unpreparing_changes_dco, each_unpreparing_is_own,
};
pub use edits::{
    each_change_keeps, each_joining_keeps, each_making_keeps, each_own_edit_keeps_others,
    each_plex_keeps_others, each_policy_keeps, each_record_keeps, each_removal_keeps,
    each_rewriting_keeps,
};
pub use joining::{
    each_image_is_joined, each_marked_plex_stays_sound, each_new_plex_lies_apart, each_plex_joins,
};
pub use mirrors::{
    each_free_map_is_free, each_laid_mirror_is_held, each_laid_mirror_is_new,
    each_mirror_can_be_asked_for, each_mirror_is_of_its_volume, each_volume_has_a_lowest_plex,
};
