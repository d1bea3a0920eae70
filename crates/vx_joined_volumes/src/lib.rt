//! A running volume of a group that a plex joins or leaves, that is given another log, or of which a plex goes on or off, runs in its place
//! by the new configuration, as if it had been opened by that. Laws, as functions that do nothing and promise them.
#![tactic(auto)]

ghost use Rattle.vx_joined_volumes.specs.RelogLaws.{EachLonePlexIsAlone, EachReloggedFormIsItsOwn, EachReloggedVolumeIsNamed, EachReloggedVolumeRunsInPlace};
ghost use Rattle.vx_joined_volumes.specs.PartLaws.{EachLeavingIsOfItsVolume, EachLeavingKeepsOthers, EachPartedFormIsItsOwn, EachPartedOwnerIsKept, EachPartedVolumeIsNamed, EachPartedVolumeRunsInPlace, EachPlexIsTakenOut};
ghost use Rattle.vx_joined_volumes.specs.SwitchLaws.{EachPlexLeftOutIsOff, EachStateIsSet, EachSwitchedFormIsItsOwn, EachSwitchedOwnerIsSwitched, EachSwitchedVolumeIsNamed, EachSwitchedVolumeRunsInPlace, EachTakenPlexIsThere};
ghost use Rattle.vx_joined_volumes.specs.Laws.{EachJoinedFormIsItsOwn, EachJoinedVolumeIsNamed, EachJoinedVolumeRunsInPlace, EachNumberingAgrees};

use vx_lending::Running;
use vx_piece::Piece;

/// The form with one plex more is that of the volume by the new configuration.
pub fn each_joined_form_is_its_own<P: Piece + Drop>(running: &Running<P>)
    ensures { EachJoinedFormIsItsOwn P.seen running.now }
{
    let _ = running;
}

/// A volume runs in its place by whatever numbers the slots have on which it was not opened.
pub fn each_numbering_agrees<P: Piece + Drop>(running: &Running<P>)
    ensures { EachNumberingAgrees P.seen running.now }
{
    let _ = running;
}

/// A volume into which the plex was put runs in its place by the new configuration.
pub fn each_joined_volume_runs_in_place<P: Piece + Drop>(running: &Running<P>, joined: &Running<P>)
    ensures { EachJoinedVolumeRunsInPlace P.seen running.now joined.now }
{
    let _ = running;
    let _ = joined;
}

/// It counts as opened with the plexes that it had and the new one, which has a new name and a new map.
pub fn each_joined_volume_is_named<P: Piece + Drop>(running: &Running<P>)
    ensures { EachJoinedVolumeIsNamed P.seen running.now }
{
    let _ = running;
}

/// A running volume with one data plex and no relation has that plex alone in each region.
pub fn each_lone_plex_is_alone<P: Piece + Drop>(running: &Running<P>)
    ensures { EachLonePlexIsAlone P.seen running.now }
{
    let _ = running;
}

/// The form with another log is that of the volume by the new configuration.
pub fn each_relogged_form_is_its_own<P: Piece + Drop>(running: &Running<P>)
    ensures { EachReloggedFormIsItsOwn P.seen running.now }
{
    let _ = running;
}

/// A volume that was given another log runs in its place by the new configuration.
pub fn each_relogged_volume_runs_in_place<P: Piece + Drop>(running: &Running<P>, later: &Running<P>)
    ensures { EachReloggedVolumeRunsInPlace P.seen running.now later.now }
{
    let _ = running;
    let _ = later;
}

/// It counts as opened with its data plex and the logs that it has then.
pub fn each_relogged_volume_is_named<P: Piece + Drop>(running: &Running<P>)
    ensures { EachReloggedVolumeIsNamed P.seen running.now }
{
    let _ = running;
}

/// The edit of a state of a data plex sets that alone.
pub fn each_state_is_set()
    ensures { EachStateIsSet }
{}

/// A running volume was opened with each data plex whose disks are good now, and with each that is on; and each region has those that it
/// was opened with.
pub fn each_taken_plex_is_there<P: Piece + Drop>(running: &Running<P>)
    ensures { EachTakenPlexIsThere P.seen running.now }
{
    let _ = running;
}

/// A running volume that was opened without a plex is as one in which that went off.
pub fn each_plex_left_out_is_off<P: Piece + Drop>(running: &Running<P>)
    ensures { EachPlexLeftOutIsOff P.seen running.now }
{
    let _ = running;
}

/// The form with a plex on or off is that of the volume by the new configuration.
pub fn each_switched_form_is_its_own<P: Piece + Drop>(running: &Running<P>)
    ensures { EachSwitchedFormIsItsOwn P.seen running.now }
{
    let _ = running;
}

/// A volume in which a plex was set on or off runs in its place by the new configuration.
pub fn each_switched_volume_runs_in_place<P: Piece + Drop>(running: &Running<P>, later: &Running<P>)
    ensures { EachSwitchedVolumeRunsInPlace P.seen running.now later.now }
{
    let _ = running;
    let _ = later;
}

/// It counts as opened with the plexes that it had, by their names and maps. The owners of their tracks are as they were, but for that of
/// the plex, which is written to just where it is on.
pub fn each_switched_volume_is_named<P: Piece + Drop>(running: &Running<P>)
    ensures names { EachSwitchedVolumeIsNamed P.seen running.now }
    ensures owners { EachSwitchedOwnerIsSwitched P.seen running.now }
{
    let _ = running;
}

/// The edit of a plex that leaves its volume takes that plex out alone.
pub fn each_plex_is_taken_out()
    ensures { EachPlexIsTakenOut }
{}

/// The edit of a plex that leaves its volume is of that volume alone, and keeps every other one.
pub fn each_leaving_keeps_others()
    ensures own { EachLeavingIsOfItsVolume }
    ensures others { EachLeavingKeepsOthers }
{}

/// The form without a plex is that of the volume by the new configuration.
pub fn each_parted_form_is_its_own<P: Piece + Drop>(running: &Running<P>)
    ensures { EachPartedFormIsItsOwn P.seen running.now }
{
    let _ = running;
}

/// A volume that a plex has left runs in its place by the new configuration.
pub fn each_parted_volume_runs_in_place<P: Piece + Drop>(running: &Running<P>, later: &Running<P>)
    ensures { EachPartedVolumeRunsInPlace P.seen running.now later.now }
{
    let _ = running;
    let _ = later;
}

/// It counts as opened with the plexes that it had but for that one, by their names and maps. The owners of their tracks are as they were.
pub fn each_parted_volume_is_named<P: Piece + Drop>(running: &Running<P>)
    ensures names { EachPartedVolumeIsNamed P.seen running.now }
    ensures owners { EachPartedOwnerIsKept P.seen running.now }
{
    let _ = running;
}
