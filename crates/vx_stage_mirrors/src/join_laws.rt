//! What becomes of a running volume that a plex has joined: laws, as functions that do nothing and promise them.

ghost use Rattle.vx_stage_mirrors.specs.JoiningLaws.{EachJoinedPlexIsInPlace, EachJoinedPlexRuns};
ghost use Rattle.vx_stage_mirrors.specs.Parking.{EachParkedPlexMayJoin, EachParkingParts};
ghost use Rattle.vx_stage_mirrors.specs.Moments.{EachFailedJoinStops, EachJoinGoesOn};

use vx_change_laws::each_joining_runs_on;
use vx_house::{House, Imported};
use vx_lending::{Public, Running};
use vx_piece::Piece;
use vx_plex_pieces::laws::{each_taken_plex_may_be_put, each_taken_region_is_a_run};
use vx_stage_volumes::each_piece_ends;

/// A group of which pieces were parked is the same, with other parts of its devices.
pub fn each_parking_parts<P: Piece + Drop>(old: &Imported<P>, new: &Imported<P>)
    ensures { EachParkingParts P.seen old.now new.now }
{
    let _ = old;
    let _ = new;
}

/// A plex that was parked may join a running volume that is marked for it.
pub fn each_parked_plex_may_join<P: Piece + Drop>(
    old: &Public<P>,
    new: &Public<P>,
    running: &Running<P>,
)
    ensures { EachParkedPlexMayJoin P.seen old.now new.now running.now }
{
    each_taken_region_is_a_run();
    each_taken_plex_may_be_put();
    let _ = old;
    let _ = new;
    let _ = running;
}

/// A running volume that a plex has joined is in its place by the new configuration.
pub fn each_joined_plex_is_in_place<P: Piece + Drop>(before: &Running<P>, after: &Running<P>)
    ensures { EachJoinedPlexIsInPlace P.seen before.now after.now }
{
    let _ = before;
    let _ = after;
}

/// It runs as the volume of the world that the plex has joined.
pub fn each_joined_plex_runs<P: Piece + Drop>(before: &Running<P>, after: &Running<P>)
    ensures { EachJoinedPlexRuns P.seen before.now after.now }
{
    let _ = before;
    let _ = after;
    each_joining_runs_on();
}

/// A house of whose group a plex has joined a volume goes on, and so does each moment that it was.
pub fn each_join_goes_on<P: Piece + Drop>(house: &House<P>, old: &Imported<P>, new: &Imported<P>)
    ensures { EachJoinGoesOn P.seen house.now old.now new.now }
{
    each_piece_ends::<P>();
    each_joining_runs_on();
    let _ = house;
    let _ = old;
    let _ = new;
}

/// Where the commit ends the command instead, the group or the power is lost, and its volumes run as they did.
pub fn each_failed_join_stops<P: Piece + Drop>(
    house: &House<P>,
    old: &Imported<P>,
    new: &Imported<P>,
)
    ensures { EachFailedJoinStops P.seen house.now old.now new.now }
{
    let _ = house;
    let _ = old;
    let _ = new;
}
