//! Laws of started volumes, each a function whose contract states it.

ghost use Rattle.vx_volume_laws.specs.ExactLaws.{EachCleanLogIsLeft, EachClearingStaysExact, EachCopyStaysExact, EachOpeningIsExact, EachSettlingStaysExact};
ghost use Rattle.vx_volume_laws.specs.RunLaws.{EachClearingRunsOn, EachCopyRunsOn, EachReadRunsOn, EachSettlingRunsOn, EachWriteRunsOn};
ghost use Rattle.vx_volume_laws.specs.Leaving.{EachLeavingStands, EachRunningForgets, EachSettlingSettles, EachStopStands};
ghost use Rattle.vx_volume_laws.specs.Starting.{EachOpeningRuns};

use crate::{each_call_is_tracked, each_opening_is_fresh, each_volume_is_left};

/// A volume that is opened over bytes runs as the volume of the world for which they stand.
pub fn each_opening_runs()
    ensures { EachOpeningRuns }
{
    each_opening_is_fresh();
}

/// After a read or a write of a volume its life has gone on by the entries that the receipt tells.
pub fn each_call_runs_on()
    ensures read { EachReadRunsOn }
    ensures written { EachWriteRunsOn }
{
    each_call_is_tracked();
}

/// After a pass over a volume its life is as it was.
pub fn each_pass_runs_on()
    ensures settled { EachSettlingRunsOn }
    ensures cleared { EachClearingRunsOn }
    ensures copied { EachCopyRunsOn }
{
    each_call_is_tracked();
}

/// Where a volume is left its bytes stand for the volume of the world; once all regions are settled one list is read from them.
pub fn each_left_volume_stands()
    ensures leaving { EachLeavingStands }
    ensures stop { EachStopStands }
{
    each_volume_is_left();
}

/// A volume may forget what is sure of plexes that are written to.
pub fn each_running_forgets()
    ensures { EachRunningForgets }
{}

/// Once a pass that settles is done all regions are settled.
pub fn each_settling_settles()
    ensures { EachSettlingSettles }
{}

/// The log of a volume is exact as it is opened, and after each pass in which no call on it failed. Once no region is marked dirty, the
/// image that the volume leaves has no dirty region.
pub fn each_log_stays_exact()
    ensures opened { EachOpeningIsExact }
    ensures settled { EachSettlingStaysExact }
    ensures cleared { EachClearingStaysExact }
    ensures copied { EachCopyStaysExact }
    ensures left { EachCleanLogIsLeft }
{}
