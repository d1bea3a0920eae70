//! A running volume of a group that a plex of its log leaves runs in its place by the new configuration, as if it had been opened by that,
//! whether its log has given up a copy that was on the plex, or none was. Laws, as functions that do nothing and promise them.
#![tactic(auto)]

ghost use Rattle.vx_yielded_volumes.specs.YieldLaws.{EachLogIsFound, EachLogIsMissed, EachLogIsTakenOut, EachLogLeavingIsOfItsVolume, EachLogLeavingKeepsOthers, EachLoneCopyIsAlone, EachUnloggedFormIsItsOwn, EachUnloggedVolumeRunsInPlace, EachYieldedFormIsItsOwn, EachYieldedOwnerIsKept, EachYieldedVolumeIsNamed, EachYieldedVolumeRunsInPlace};

use vx_lending::Running;
use vx_piece::Piece;

/// The edit of a log plex that leaves its volume takes that plex out alone.
pub fn each_log_is_taken_out()
    ensures { EachLogIsTakenOut }
{}

/// The edit of a log plex that leaves its volume is of that volume alone, and keeps every other one.
pub fn each_log_leaving_keeps_others()
    ensures own { EachLogLeavingIsOfItsVolume }
    ensures others { EachLogLeavingKeepsOthers }
{}

/// A copy that lies where the layout of a log plex does is on that plex. Where none does, the volume was opened without the plex. Where it is
/// the only copy, the volume was opened with no other log plex.
pub fn each_log_is_found<P: Piece + Drop>(running: &Running<P>)
    ensures found { EachLogIsFound P.seen running.now }
    ensures missed { EachLogIsMissed P.seen running.now }
    ensures alone { EachLoneCopyIsAlone P.seen running.now }
{
    let _ = running;
}

/// The form without the copy that is on the plex, or as it was where none is, is that of the volume by the new configuration.
pub fn each_yielded_form_is_its_own<P: Piece + Drop>(running: &Running<P>)
    ensures yielded { EachYieldedFormIsItsOwn P.seen running.now }
    ensures unlogged { EachUnloggedFormIsItsOwn P.seen running.now }
{
    let _ = running;
}

/// A volume whose log has given up the copy on the plex runs in its place by the new configuration.
pub fn each_yielded_volume_runs_in_place<P: Piece + Drop>(running: &Running<P>, later: &Running<P>)
    ensures { EachYieldedVolumeRunsInPlace P.seen running.now later.now }
{
    let _ = running;
    let _ = later;
}

/// A volume with no copy on the plex runs in its place by the new configuration as it is.
pub fn each_unlogged_volume_runs_in_place<P: Piece + Drop>(running: &Running<P>)
    ensures { EachUnloggedVolumeRunsInPlace P.seen running.now }
{
    let _ = running;
}

/// It counts as opened with the plexes that it had but for that one. The names and maps of its data plexes, and the owners of their tracks, are
/// as they were.
pub fn each_yielded_volume_is_named<P: Piece + Drop>(running: &Running<P>)
    ensures names { EachYieldedVolumeIsNamed P.seen running.now }
    ensures owners { EachYieldedOwnerIsKept P.seen running.now }
{
    let _ = running;
}
