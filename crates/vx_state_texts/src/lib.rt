//! How long the text of a configuration is after a stop of a volume, and where it is alike another but for states: laws, as functions that do
//! nothing and promise them.
#![tactic(auto)]

ghost use Rattle.vx_state_texts.specs.Alike.{EachAlikeIsNoLonger, EachChangeStaysAlike};
ghost use Rattle.vx_state_texts.specs.Texts.{EachMaskIsWithinAll, EachStopIsNoLonger};

use vx_state_edits::laws::each_change_restates;

/// The text of a group is no longer after a stop of a volume than where more of its plexes miss something.
pub fn each_stop_is_no_longer()
    ensures { EachStopIsNoLonger }
{
    each_change_restates();
}

/// Each mask is within that of all maps, with which the text is the longest.
pub fn each_mask_is_within_all()
    ensures { EachMaskIsWithinAll }
{}

/// Of configurations that are alike but for states with shorter names in the one, the text of that is no longer; and they stay alike where a
/// volume that was the same in both gets new states.
pub fn each_alike_is_no_longer()
    ensures text { EachAlikeIsNoLonger }
    ensures change { EachChangeStaysAlike }
{}
