//! A volume of an imported group from its start to its leaving: laws, as functions that do nothing and promise them. First how it starts,
//! runs and is left; then which sectors and devices its pieces have, and so what a call on them may change; then how it comes to rest.
#![tactic(auto)]

ghost use Rattle.vx_group_volumes.specs.CommitLaws.{EachCommitKeepsImages, EachCommitKeepsPublic};
ghost use Rattle.vx_group_volumes.specs.Copies.{EachCopyMissesNothing, EachCopyStaysTight, EachCopyUnmarks, EachUnmarkedMissesNothing};
ghost use Rattle.vx_group_volumes.specs.ExactLaws.{EachCopyingStaysExact, EachRestStaysExact, EachStoppedVolumeIsClean, EachWellRestIsClean, FreshStartIsExact, LoadedStartIsExact};
ghost use Rattle.vx_group_volumes.specs.Laws.{CopiesGoOn, EachLeavingStandsFor, EachRecordedVolumeRuns, EachStartChangesStates, EachStopChangesStates, FreshStartForgets, FreshStartIsTight, FreshStartRuns, LoadedStartForgets, LoadedStartRuns, RestGoesOn, StartFits, StartRuns};
ghost use Rattle.vx_group_volumes.specs.LogLaws.{EachCopyNarrows, EachDiskGoesByCopies, EachLogChangesOnly, EachLogCountsItsOwn, EachLogHasItsCopy, EachPassedLogHasFailed, EachTakenCopyIsOwn, EachTakenDeviceIsOwn};
ghost use Rattle.vx_group_volumes.specs.PlexLaws.{DataFailuresAreOwn, EachCutDeviceIsOwn, EachDeviceIsNamed, EachFailedDeviceIsOwn, EachHeldDeviceIsOwn, EachOwnDeviceIsNamed, LogFailuresAreOwn, PlexesFit};
ghost use Rattle.vx_group_volumes.specs.RestLaws.{EachRestHasReason, EachRestRunsOn, EachStoppedVolumeStands};
ghost use Rattle.vx_group_volumes.specs.SectorLaws.{AnyCutChangesItsOwn, AnyOrderChangesItsOwn, EachCallChangesOnly, EachDiskGoesOn, EachKeptPieceIsOwn, EachPieceIsOwn, HeldChangeTheirOwn, PlacesGoOn, PlacesStay, RecordedRunsInPlace, RestatedKeepPlaces, StartRunsInPlace};

use vx_lending::{Public, Running};
use vx_piece::Piece;
use vx_state_edits::laws::each_change_restates;
use vx_volume::Volume;
use vx_volume_laws::each_empty_begins;
use vx_volume_laws::lives::{
    each_left_volume_stands, each_opening_runs, each_pass_runs_on, each_running_forgets,
};

/// A volume that was started is one of its group that runs, by each configuration that records it as started.
pub fn each_started_volume_runs<P: Piece + Drop>(
    old: &Public<P>,
    new: &Public<P>,
    running: &Running<P>,
)
    ensures { StartRuns P.seen old.now new.now running.now }
{
    let _ = old;
    let _ = new;
    let _ = running;
}

/// As it starts its data plexes are written to just where they are available.
pub fn each_started_volume_fits<P: Piece + Drop>(
    old: &Public<P>,
    new: &Public<P>,
    running: &Running<P>,
)
    ensures { StartFits P.seen old.now new.now running.now }
{
    let _ = old;
    let _ = new;
    let _ = running;
}

/// Where its log was loaded it runs as the volume of the world that begins over its bytes, if these are sound, of which nothing need
/// be sure of a plex that is written to. Its log is exact.
pub fn each_loaded_start_runs<P: Piece + Drop>(
    old: &Public<P>,
    new: &Public<P>,
    running: &Running<P>,
)
    ensures runs { LoadedStartRuns P.seen old.now new.now running.now }
    ensures forgets { LoadedStartForgets P.seen old.now new.now running.now }
    ensures exact { LoadedStartIsExact P.seen old.now new.now running.now }
{
    each_opening_runs();
    each_running_forgets();
    let _ = old;
    let _ = new;
    let _ = running;
}

/// Where it was never started it runs as the volume of the world whose first life begins over its bytes, of which nothing need be sure
/// of a plex that is written to. No mark of its log is loose, and its log is exact.
pub fn each_fresh_start_runs<P: Piece + Drop>(
    old: &Public<P>,
    new: &Public<P>,
    running: &Running<P>,
)
    ensures runs { FreshStartRuns P.seen old.now new.now running.now }
    ensures forgets { FreshStartForgets P.seen old.now new.now running.now }
    ensures tight { FreshStartIsTight P.seen old.now new.now running.now }
    ensures exact { FreshStartIsExact P.seen old.now new.now running.now }
{
    each_empty_begins();
    each_opening_runs();
    each_running_forgets();
    let _ = old;
    let _ = new;
    let _ = running;
}

/// It runs by each configuration of which states have changed, and of which disks have failed. As it is left, its image stands for
/// the volume of the world that it runs as.
pub fn each_running_volume_is_left<P: Piece + Drop>(running: &Running<P>)
    ensures recorded { EachRecordedVolumeRuns P.seen running.now }
    ensures left { EachLeavingStandsFor P.seen running.now }
{
    each_left_volume_stands();
    let _ = running;
}

/// Copies to its plexes, and what brings it to rest, keep where a volume lies and its pieces.
pub fn each_pass_goes_on<P: Piece + Drop>(old: &Volume<P>, new: &Volume<P>)
    ensures copied { CopiesGoOn P.seen old.now new.now }
    ensures rested { RestGoesOn P.seen old.now new.now }
{
    let _ = old;
    let _ = new;
}

/// Copies that are done leave their plexes unmarked; where no call on the log failed meanwhile, and no mark was loose before, nothing is
/// missing on them.
pub fn each_copy_misses_nothing()
    ensures unmarks { EachCopyUnmarks }
    ensures tight { EachCopyStaysTight }
    ensures unmarked { EachUnmarkedMissesNothing }
    ensures nothing { EachCopyMissesNothing }
{}

/// What a start and a stop record changes states alone, and the volume is recorded still.
pub fn each_record_changes_states()
    ensures started { EachStartChangesStates }
    ensures stopped { EachStopChangesStates }
{
    each_change_restates();
}

/// A configuration keeps where the plexes of its volumes lie, and so does one of which states have changed since.
pub fn each_place_is_kept()
    ensures stay { PlacesStay }
    ensures go_on { PlacesGoOn }
    ensures restated { RestatedKeepPlaces }
{}

/// Each sector that a piece of a running volume has is one of a plex of the volume, in the configuration that it was opened by, and in
/// each that keeps where its plexes lie.
pub fn each_piece_is_own<P: Piece + Drop>(running: &Running<P>)
    ensures own { EachPieceIsOwn P.seen running.now }
    ensures kept { EachKeptPieceIsOwn P.seen running.now }
{
    let _ = running;
}

/// A volume that was started runs in its place, by the configuration that it was opened by and by each of which states have changed.
pub fn each_volume_runs_in_place<P: Piece + Drop>(
    old: &Public<P>,
    new: &Public<P>,
    running: &Running<P>,
)
    ensures started { StartRunsInPlace P.seen old.now new.now running.now }
    ensures recorded { RecordedRunsInPlace P.seen running.now }
{
    let _ = old;
    let _ = new;
    let _ = running;
}

/// Calls on pieces change no sector that none of them has, in whatever order all pieces are read and however they are cut, nor any such
/// sector of a disk.
pub fn each_call_changes_its_own()
    ensures sectors { HeldChangeTheirOwn }
    ensures order { AnyOrderChangesItsOwn }
    ensures cut { AnyCutChangesItsOwn }
    ensures disks { EachDiskGoesOn }
{}

/// Calls on the pieces of a volume that runs in its place change the devices of the world in the sectors of this volume alone.
pub fn each_call_changes_only<P: Piece + Drop>(running: &Running<P>)
    ensures { EachCallChangesOnly P.seen running.now }
{
    let _ = running;
}

/// Copies that were taken for the log of a volume lie on its log plexes, whether it was opened then or refused.
pub fn each_taken_copy_is_own()
    ensures sectors { EachTakenCopyIsOwn }
    ensures devices { EachTakenDeviceIsOwn }
    ensures plexes { EachLogHasItsCopy }
{}

/// Where each copy of the log of a volume was passed over as it was to be loaded, each log plex that counts has failed.
pub fn each_passed_log_has_failed()
    ensures { EachPassedLogHasFailed }
{}

/// Where these copies come nearer to one another, and nothing else changes on its disks, so does the image of the volume.
pub fn each_copy_narrows()
    ensures { EachCopyNarrows }
{}

/// So what opening a volume does to the pieces of its group changes the devices of the world in the sectors of this volume alone, and
/// counts nothing on devices that it does not lie on.
pub fn each_log_changes_only()
    ensures disks { EachDiskGoesByCopies }
    ensures world { EachLogChangesOnly }
    ensures counts { EachLogCountsItsOwn }
{}

/// The data plexes of a running volume, as their tracks see them by the configuration of now, are those that its regions have.
pub fn each_plex_fits<P: Piece + Drop>(running: &Running<P>)
    ensures { PlexesFit P.seen running.now }
{
    let _ = running;
}

/// The pieces of a running volume lie on devices of its plexes, so only those may fail or lose power as it is called.
pub fn each_device_is_own<P: Piece + Drop>(running: &Running<P>)
    ensures held { EachHeldDeviceIsOwn P.seen running.now }
    ensures failed { EachFailedDeviceIsOwn P.seen running.now }
    ensures cut { EachCutDeviceIsOwn P.seen running.now }
{
    let _ = running;
}

/// A device of a plex by its number is one by its name, where the member of its slot has that device.
pub fn each_device_is_named()
    ensures plex { EachDeviceIsNamed }
    ensures volume { EachOwnDeviceIsNamed }
{}

/// Where a plex failed in a region, or the log did, a device of this plex has failed.
pub fn each_failure_is_own<P: Piece + Drop>(running: &Running<P>, new: &Volume<P>)
    ensures data { DataFailuresAreOwn P.seen running.now new.now }
    ensures log { LogFailuresAreOwn P.seen running.now new.now }
{
    let _ = running;
    let _ = new;
}

/// A volume that was not brought to rest has a reason: a device failed, or the power is gone.
pub fn each_rest_has_reason<P: Piece + Drop>(old: &Volume<P>, new: &Volume<P>)
    ensures { EachRestHasReason P.seen old.now new.now }
{
    let _ = old;
    let _ = new;
}

/// A volume that comes to rest runs on as the volume of the world whose devices have failed too.
pub fn each_rest_runs_on()
    ensures { EachRestRunsOn }
{
    each_pass_runs_on();
}

/// Where no call on its log failed, the log of a volume stays exact through copies and what brings it to rest, and then no region is
/// marked dirty.
pub fn each_log_stays_exact()
    ensures copied { EachCopyingStaysExact }
    ensures rested { EachRestStaysExact }
    ensures clean { EachWellRestIsClean }
{}

/// Once a volume is at rest it may be recorded clean: by the configuration that its stop records its image stands for the volume of the
/// world, and one list is read from it. Where its log is exact, and no region is marked dirty, no copy of the image marks one so.
pub fn each_stopped_volume_stands<P: Piece + Drop>(running: &Running<P>)
    ensures stands { EachStoppedVolumeStands P.seen running.now }
    ensures clean { EachStoppedVolumeIsClean P.seen running.now }
{
    each_left_volume_stands();
    each_record_changes_states();
    let _ = running;
}

/// What a commit leaves of the disks of a group, however it ends, keeps what volumes have there, and so their images.
pub fn each_commit_keeps_images()
    ensures public { EachCommitKeepsPublic }
    ensures images { EachCommitKeepsImages }
{}
