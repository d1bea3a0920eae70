//! Laws of losses: a volume that ran as its group or the power was lost comes back by an import and a recovery, as functions that do nothing and
//! promise them.
#![tactic(auto)]

ghost use Rattle.vx_loss_laws.specs.Laws.{EachAcknowledgedWriteIsHeld, EachAcknowledgedWriteOutlivesLoss, EachLeftIsRecovered, EachLossLeaves};

use vx_group_edits::each_record_keeps;
use vx_sound_imports::each_step_keeps_all_sound;
use vx_state_edits::laws::each_change_restates;

/// A command in which the group or the power is lost leaves each volume that runs, whichever newest configuration is read afterwards.
pub fn each_loss_leaves()
    ensures { EachLossLeaves }
{
    each_change_restates();
    each_record_keeps();
}

/// What is left is made one list again by an import and a recovery that tells of the volume.
pub fn each_left_is_recovered()
    ensures { EachLeftIsRecovered }
{
    each_change_restates();
    each_record_keeps();
    each_step_keeps_all_sound();
}

/// That list has each value whose write was acknowledged.
pub fn each_acknowledged_write_is_held()
    ensures { EachAcknowledgedWriteIsHeld }
{}

/// A run, a loss, an import and a recovery: each block whose newest entry was an acknowledged write holds the value of that.
pub fn each_acknowledged_write_outlives_loss()
    ensures { EachAcknowledgedWriteOutlivesLoss }
{
    each_change_restates();
    each_record_keeps();
    each_step_keeps_all_sound();
    each_loss_leaves();
    each_left_is_recovered();
}
