//! Soundness of the configuration copies on devices, which each command keeps: laws, as functions that do nothing and promise them.
#![tactic(auto)]

ghost use Rattle.vx_sound.specs.Laws.{EachImportTakesTheNewest, EachStepKeepsTheWorldSound, EachRunLeavesSoundDevices, EachRunKeepsDevicesSound, EachRunLeftOffKeepsDevicesSound, EachWantKeepsTheWorldSound};

/// Where the copies of a group are chained, an import takes the newest configuration that any of its devices offers, also
/// of those that cannot be read; or it is refused.
pub fn each_import_takes_the_newest()
    ensures { EachImportTakesTheNewest }
{}

/// A command keeps the world sound, however it ends.
pub fn each_step_keeps_the_world_sound()
    ensures { EachStepKeepsTheWorldSound }
{}

/// A run that began on sound devices leaves sound devices, as the power goes at its end.
pub fn each_run_leaves_sound_devices()
    ensures { EachRunLeavesSoundDevices }
{}

/// A run that begins with sound devices, no imported group and no started volume leaves sound devices.
pub fn each_run_keeps_devices_sound()
    ensures { EachRunKeepsDevicesSound }
{}

/// What want of memory leaves of a command is sound: the world as it began, or with a volume of the group whose log was
/// called, or that has come to rest.
pub fn each_want_keeps_the_world_sound()
    ensures { EachWantKeepsTheWorldSound }
{}

/// A run that begins with sound devices alone, and is left off in a command for want of memory, leaves sound devices.
pub fn each_run_left_off_keeps_devices_sound()
    ensures { EachRunLeftOffKeepsDevicesSound }
{}
