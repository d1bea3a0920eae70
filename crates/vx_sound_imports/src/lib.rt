//! Soundness from what devices hold at first to what they hold at last: laws, as functions that do nothing and promise them.
#![tactic(auto)]

ghost use Rattle.vx_sound_imports.specs.Back.{EachGroupComesBack};
ghost use Rattle.vx_sound_imports.specs.Laws.{EachImportBringsSound, EachRunKeepsDevicesSound, EachRunLeftOffKeepsDevicesSound, EachStepKeepsAllSound, EachWantKeepsAllSound};

use vx_group_edits::each_record_keeps;
use vx_sound_volumes::{each_step_keeps_volumes_sound, each_want_keeps_volumes_sound};
use vx_state_edits::laws::each_change_restates;

/// Where all is sound, an import brings sound volumes.
pub fn each_import_brings_sound()
    ensures { EachImportBringsSound }
{}

/// Each command keeps all sound, however it ends.
pub fn each_step_keeps_all_sound()
    ensures { EachStepKeepsAllSound }
{
    each_change_restates();
    each_record_keeps();
    each_step_keeps_volumes_sound();
}

/// What want of memory leaves of a command keeps all sound.
pub fn each_want_keeps_all_sound()
    ensures { EachWantKeepsAllSound }
{
    each_change_restates();
    each_record_keeps();
    each_want_keeps_volumes_sound();
}

/// A group that has left comes back as an import finds it, with what its volumes' bytes stand for.
pub fn each_group_comes_back()
    ensures { EachGroupComesBack }
{}

/// A run that finds sound devices leaves sound devices as the power goes, also where memory was wanting in its last command.
pub fn each_run_keeps_all_devices_sound()
    ensures kept { EachRunKeepsDevicesSound }
    ensures left_off { EachRunLeftOffKeepsDevicesSound }
{
    each_step_keeps_all_sound();
    each_want_keeps_all_sound();
}
