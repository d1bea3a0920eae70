//! Laws over whole schedules, each a function with an empty body whose contract states it. They speak of the table,
//! which `next` meets.

ghost use Rattle.vx_core.specs.Plexes.{PutKeeps, SetOffKeeps, SetOnKeeps, TakeKeeps};
ghost use Rattle.vx_core.specs.Recovery.{EachCopyLoadsSound, EachRecovers, ReadsLowestFirst};
ghost use Rattle.vx_core.specs.Schedule.{EachStaysSound};
ghost use Rattle.vx_core.specs.Wrong.{AMarkedPlexMayLie, ForgetsAMark, LeavesTheFailedPlexUnmarked, ReadsAMarkedPlex, SettlesFromAMarkedPlex, SettlesThoughAWriteFailed, TakesAFailedMark, UnmarksBeforeTheCopy, WritesBeforeTheMark};

/// Over every list of events that fit, in any number of regions, each region stays sound, and its entries are a legal
/// history in order.
pub fn each_stays_sound()
    ensures { EachStaysSound }
{}

/// After a cut, whichever copy of the log is loaded, each region is sound.
pub fn each_copy_loads_sound()
    ensures { EachCopyLoadsSound }
{}

/// After a cut and a load, a settling and a clear leave the unmarked plexes equal, each block among its candidates.
pub fn each_recovers()
    ensures { EachRecovers }
{}

/// A settling reads from the lowest current plex that can be read.
pub fn reads_lowest_first()
    ensures { ReadsLowestFirst }
{}

/// What is done to the plexes between jobs keeps what is kept: set on, set off, taken out and put in.
pub fn plexes_keep()
    ensures on { SetOnKeeps }
    ensures off { SetOffKeeps }
    ensures taken { TakeKeeps }
    ensures put { PutKeeps }
{}

/// That soundness refuses wrong answers, whatever the table says: each would break what is kept.
pub fn wrong_answers_break()
    ensures unmarked_write { WritesBeforeTheMark }
    ensures failed_mark { TakesAFailedMark }
    ensures forgotten_mark { ForgetsAMark }
    ensures early_unmark { UnmarksBeforeTheCopy }
    ensures marked_read { ReadsAMarkedPlex }
    ensures marked_contents { AMarkedPlexMayLie }
    ensures marked_source { SettlesFromAMarkedPlex }
    ensures missed_plex { LeavesTheFailedPlexUnmarked }
    ensures missed_settling { SettlesThoughAWriteFailed }
{}
