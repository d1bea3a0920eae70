//! The edits of a commit keep each volume that they do not name: laws, as functions that do nothing and promise them.

ghost use Rattle.vx_group_edits.specs.Laws.{EachChangeKeeps, EachJoiningKeeps, EachMakingKeeps, EachOwnEditKeepsOthers, EachPlexKeepsOthers, EachPolicyKeeps, EachRemovalKeeps, EachRewritingKeeps, EachStartKeeps, EachStopKeeps};

use vx_state_edits::laws::each_change_restates;

/// Another policy of a volume keeps every volume.
pub fn each_policy_keeps()
    ensures { EachPolicyKeeps }
{}

/// The removal of a volume keeps every other one.
pub fn each_removal_keeps()
    ensures { EachRemovalKeeps }
{}

/// What a command changes of the group keeps each volume that it does not remove.
pub fn each_change_keeps()
    ensures { EachChangeKeeps }
{}

/// A disk that joins the group keeps every volume.
pub fn each_joining_keeps()
    ensures { EachJoiningKeeps }
{}

/// Records that are added, of a text or of a new volume, keep every volume.
pub fn each_making_keeps()
    ensures { EachMakingKeeps }
{}

/// What a start and a stop record keeps every volume but their own.
pub fn each_record_keeps()
    ensures started { EachStartKeeps }
    ensures stopped { EachStopKeeps }
{
    each_change_restates();
}

/// A configuration that is written as it is keeps every volume.
pub fn each_rewriting_keeps()
    ensures { EachRewritingKeeps }
{}

/// Plexes of a volume that are added with their subdisks keep every other volume.
pub fn each_plex_keeps_others()
    ensures { EachPlexKeepsOthers }
{}

/// So do all edits that are of one volume alone.
pub fn each_own_edit_keeps_others()
    ensures { EachOwnEditKeepsOthers }
{}
