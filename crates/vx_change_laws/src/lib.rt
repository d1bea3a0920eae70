//! What becomes of a running volume of the world where a map of its log is set, its log is made firm, a plex joins it, goes on or off, or
//! leaves it, it gets another log, or that gives up a copy: laws, as functions that do nothing and promise them.
#![tactic(auto)]

ghost use Rattle.vx_change_laws.specs.Laws.{EachFailureIsNoted, EachFreeMapIsNew, EachJoiningFits, EachJoiningRunsOn, EachJoiningStaysCut, EachJoiningStaysExact, EachSettingFits, EachSettingIsQuiet, EachSettingKeepsPlaces, EachSettingLeavesFree, EachSettingRunsOn, EachSettingStaysCut, EachSettingStaysExact};
ghost use Rattle.vx_change_laws.specs.Switching.{EachFirmingFits, EachFirmingKeepsPlaces, EachFirmingRunsOn, EachFirmingStaysCut, EachFirmingStaysExact, EachPlexOffRunsOn, EachPlexOnRunsOn, EachSwitchFits, EachSwitchStaysCut, EachSwitchStaysExact};
ghost use Rattle.vx_change_laws.specs.Parting.{EachPartingFits, EachPartingRunsOn, EachPartingStaysCut, EachPartingStaysExact};
ghost use Rattle.vx_change_laws.specs.Logging.{EachLogChangeFits, EachLogChangeIsExact, EachLogChangeRunsOn, EachLogChangeStaysCut};
ghost use Rattle.vx_change_laws.specs.Yielding.{EachCopyGivenUpFits, EachCopyGivenUpKeepsPlaces, EachCopyGivenUpRunsElsewhere, EachCopyGivenUpRunsOn, EachCopyGivenUpStaysCut, EachCopyGivenUpStaysExact};

use vx_volume::laws::{
    each_copy_may_go, each_firming_goes_on, each_history_goes_on, each_plex_may_leave,
    each_plex_may_switch, each_putting_stands, each_setting_stands,
};

/// A volume that runs also runs as one of which some devices have failed too.
pub fn each_failure_is_noted()
    ensures { EachFailureIsNoted }
{}

/// A map that is free in a volume is that of none of its plexes.
pub fn each_free_map_is_new()
    ensures { EachFreeMapIsNew }
{}

/// After a free map was set, or failed to be, a volume runs as the same one but for the failures.
pub fn each_setting_runs_on()
    ensures quiet { EachSettingIsQuiet }
    ensures runs { EachSettingRunsOn }
{
    each_setting_stands();
}

/// The owners of tracks fit then as they did.
pub fn each_setting_fits()
    ensures { EachSettingFits }
{}

/// The log stays exact then where no call on it failed.
pub fn each_setting_stays_exact()
    ensures { EachSettingStaysExact }
{
    each_setting_stands();
}

/// The map stays free then and the volume lies where it lay, and its regions are dead only where they are cut.
pub fn each_setting_keeps_places()
    ensures free { EachSettingLeavesFree }
    ensures places { EachSettingKeepsPlaces }
    ensures cut { EachSettingStaysCut }
{}

/// After a marked plex with a free map was put in, a volume runs as the one that it has joined.
pub fn each_joining_runs_on()
    ensures { EachJoiningRunsOn }
{
    each_putting_stands();
}

/// The owners of tracks fit then, with that of the new plex.
pub fn each_joining_fits()
    ensures { EachJoiningFits }
{}

/// The log stays exact then.
pub fn each_joining_stays_exact()
    ensures { EachJoiningStaysExact }
{}

/// Its regions are dead then only where they are cut.
pub fn each_joining_stays_cut()
    ensures { EachJoiningStaysCut }
{}

/// After the log of a volume of one plex was changed for a new one that shows nothing, or for none, it runs as the one that has it.
pub fn each_log_change_runs_on()
    ensures { EachLogChangeRunsOn }
{}

/// The owners of tracks fit then, where all are written to and have number 0.
pub fn each_log_change_fits()
    ensures { EachLogChangeFits }
{}

/// The new log says exactly what the regions do.
pub fn each_log_change_is_exact()
    ensures { EachLogChangeIsExact }
{}

/// Its regions are dead then only where they are cut, if they were so before and the power of the old log is there.
pub fn each_log_change_stays_cut()
    ensures { EachLogChangeStaysCut }
{}

/// After what was left open on its log was written again, or that failed, a volume runs as the same one.
pub fn each_firming_runs_on()
    ensures { EachFirmingRunsOn }
{
    each_firming_goes_on();
    each_history_goes_on();
}

/// The owners of tracks fit then, its log stays exact, it lies where it lay, and its regions are dead only where they are cut.
pub fn each_firming_keeps()
    ensures fits { EachFirmingFits }
    ensures exact { EachFirmingStaysExact }
    ensures places { EachFirmingKeepsPlaces }
    ensures cut { EachFirmingStaysCut }
{}

/// After a plex went off that can be spared, a volume runs as the same one, and after one went on, as the one in which nothing is sure of it.
pub fn each_switch_runs_on()
    ensures off { EachPlexOffRunsOn }
    ensures on { EachPlexOnRunsOn }
{
    each_plex_may_switch();
}

/// The owners of tracks fit then, the log stays exact, and regions are dead only where they are cut.
pub fn each_switch_keeps()
    ensures fits { EachSwitchFits }
    ensures exact { EachSwitchStaysExact }
    ensures cut { EachSwitchStaysCut }
{}

/// After a plex has left that can be spared, a volume runs as the one that it has left, with the plexes that are there then.
pub fn each_parting_runs_on()
    ensures { EachPartingRunsOn }
{
    each_plex_may_leave();
}

/// The owners of tracks fit then, the log stays exact, and no region is dead where all were settled.
pub fn each_parting_keeps()
    ensures fits { EachPartingFits }
    ensures exact { EachPartingStaysExact }
    ensures cut { EachPartingStaysCut }
{}

/// After its log gave up one of two copies, a volume runs as the same one, also where it is said to lie on other plexes.
pub fn each_copy_given_up_runs_on()
    ensures runs { EachCopyGivenUpRunsOn }
    ensures elsewhere { EachCopyGivenUpRunsElsewhere }
{
    each_copy_may_go();
}

/// The owners of tracks fit then, its log stays exact, it lies where it lay, and its regions are dead only where they are cut, if none was
/// before.
pub fn each_copy_given_up_keeps()
    ensures fits { EachCopyGivenUpFits }
    ensures exact { EachCopyGivenUpStaysExact }
    ensures places { EachCopyGivenUpKeepsPlaces }
    ensures cut { EachCopyGivenUpStaysCut }
{}
