//! Laws of calls on volumes, each a function with an empty body whose contract states it.

ghost use Rattle.vx_volume.specs.Calls.{IsRead, IsWritten};
ghost use Rattle.vx_volume.specs.Laws.{CallOfRegionGoesOn, CalledGoesOn, CopyPassGoesOn, EachClearingGoesOn, EachClearingOfRegionGoesOn, EachCopyGoesOn, EachCopyMayGo, EachCopyOfRegionGoesOn, EachCourseIsNoted, EachFirmingGoesOn, EachFirmingTightens, EachGoingGoesOn, EachGoingIsScheduled, EachGoingStands, EachLeavingTells, EachLogChangeStands, EachLogChangeTells, EachOtherGoesOn, EachPlexMayGoOff, EachPlexMayGoOn, EachPlexMayLeave, EachPuttingStands, EachPuttingTells, EachReadOfVolumeGoesOn, EachSettingKnows, EachSettingMarks, EachSettingStands, EachSettingTells, EachSettlingGoesOn, EachSettlingOfRegionGoesOn, EachSwitchTells, EachWriteOfVolumeGoesOn, EachYieldingTells, MayTellRead, MayTellWrite, PassGoesOn};
ghost use Rattle.vx_volume.specs.Passes.{Clears, Settles};
ghost use Rattle.vx_volume.specs.Retelling.{EachHistoryIsRetold};

/// A region that was called goes on with the entry of the call, and one of which a job without a call was run with the
/// entries that it had.
pub fn each_called_region_goes_on()
    ensures read { CalledGoesOn IsRead MayTellRead }
    ensures written { CalledGoesOn IsWritten MayTellWrite }
    ensures settled { EachSettlingGoesOn }
    ensures cleared { EachClearingGoesOn }
    ensures copied { EachCopyGoesOn }
{}

/// The other regions of the log go on with the entries that they had.
pub fn each_other_region_goes_on()
    ensures { EachOtherGoesOn }
{}

/// Where one region of a volume is called, or a job is run on it, all regions go on, and what is told stays told.
pub fn each_call_of_a_region_goes_on()
    ensures read { CallOfRegionGoesOn IsRead MayTellRead }
    ensures written { CallOfRegionGoesOn IsWritten MayTellWrite }
    ensures settled { EachSettlingOfRegionGoesOn }
    ensures cleared { EachClearingOfRegionGoesOn }
    ensures copied { EachCopyOfRegionGoesOn }
{}

/// After a read or a write of a volume each region goes on with the entries that it had, and one for its part of the call
/// where it had one.
pub fn each_call_goes_on()
    ensures read { EachReadOfVolumeGoesOn }
    ensures written { EachWriteOfVolumeGoesOn }
{}

/// After a pass over a volume each region goes on with the entries that it had.
pub fn each_pass_goes_on()
    ensures settled { PassGoesOn Settles }
    ensures cleared { PassGoesOn Clears }
    ensures copied { CopyPassGoesOn }
{}

/// One call after another: regions that go on and go on again go on, and stand for the histories with which they do. They go
/// by one schedule of happenings.
pub fn each_history_goes_on()
    ensures follows { EachGoingGoesOn }
    ensures stands { EachGoingStands }
    ensures scheduled { EachGoingIsScheduled }
{}

/// What is noted of a region on its course is what its new entries tell, and a plex to which a write failed has a count that
/// rose.
pub fn each_course_is_noted()
    ensures { EachCourseIsNoted }
{}

/// What a region stands for it stands for with its history told coarser: a write that was done as torn, and a read as missed.
pub fn each_history_is_retold()
    ensures { EachHistoryIsRetold }
{}

/// What the regions stand for they stand for when a free map of the log was set, and what is told stays told. Each region's
/// mark of the map is what the log claims then, and after Ok what was asked for.
pub fn each_setting_stands()
    ensures stands { EachSettingStands }
    ensures told { EachSettingTells }
    ensures known { EachSettingKnows }
    ensures marks { EachSettingMarks }
{}

/// What the regions stand for they stand for with a marked plex that was put in.
pub fn each_putting_stands()
    ensures stands { EachPuttingStands }
    ensures told { EachPuttingTells }
{}

/// What the regions of a volume of one plex stand for they stand for with another log that shows nothing.
pub fn each_log_change_stands()
    ensures stands { EachLogChangeStands }
    ensures told { EachLogChangeTells }
{}

/// Where loose marks of the log were written again, or that failed, each region goes on with its entries. After Ok none is loose.
pub fn each_firming_goes_on()
    ensures follows { EachFirmingGoesOn }
    ensures tight { EachFirmingTightens }
{}

/// What the regions stand for they stand for with a plex on that they have, and with one off that can be spared, where they are settled
/// and no mark is loose.
pub fn each_plex_may_switch()
    ensures on { EachPlexMayGoOn }
    ensures off { EachPlexMayGoOff }
    ensures told { EachSwitchTells }
{}

/// What the regions stand for they stand for without a plex that can be spared, where they are settled and no mark is loose.
pub fn each_plex_may_leave()
    ensures stands { EachPlexMayLeave }
    ensures told { EachLeavingTells }
{}

/// What the regions stand for they stand for when the log gives up one of its two copies.
pub fn each_copy_may_go()
    ensures stands { EachCopyMayGo }
    ensures told { EachYieldingTells }
{}
