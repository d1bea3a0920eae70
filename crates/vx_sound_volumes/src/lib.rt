//! Soundness of the bytes of volumes, which each command keeps: laws, as functions that do nothing and promise them.
#![tactic(auto)]

ghost use Rattle.vx_sound_volumes.specs.Laws.{EachLeavingLeavesVolumesSound, EachRunKeepsVolumesSound, EachRunLeavesVolumesSound, EachRunLeftOffLeavesVolumesSound, EachStepKeepsVolumesSound, EachStepLeavesVolumesSound, EachWantKeepsVolumesSound};

use vx_group_edits::each_record_keeps;
use vx_state_edits::laws::each_change_restates;

/// A command keeps volumes sound, however it ends, if the group that it imports has sound ones.
pub fn each_step_keeps_volumes_sound()
    ensures { EachStepKeepsVolumesSound }
{
    each_change_restates();
    each_record_keeps();
}

/// What want of memory leaves of a command keeps volumes sound.
pub fn each_want_keeps_volumes_sound()
    ensures { EachWantKeepsVolumesSound }
{
    each_change_restates();
    each_record_keeps();
}

/// As a group leaves, each of its volumes that was started before is sound by what the devices then hold.
pub fn each_leaving_leaves_volumes_sound()
    ensures { EachLeavingLeavesVolumesSound }
{}

/// So they are by what a command leaves, by which the group has left.
pub fn each_step_leaves_volumes_sound()
    ensures { EachStepLeavesVolumesSound }
{
    each_change_restates();
    each_record_keeps();
}

/// A run from a world without a group and without started volumes, of which each import brings sound volumes, has sound volumes at its
/// last moment; and they are sound by what is left as the power goes then.
pub fn each_run_keeps_volumes_sound()
    ensures kept { EachRunKeepsVolumesSound }
    ensures left { EachRunLeavesVolumesSound }
    ensures left_off { EachRunLeftOffLeavesVolumesSound }
{
    each_step_keeps_volumes_sound();
    each_want_keeps_volumes_sound();
}
