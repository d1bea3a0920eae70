//! What the steps of both stages do to a house and its moments: laws, as functions that do nothing and promise them.

ghost use Rattle.vx_stage_mirrors.specs.LogMoments.{EachFailedRecordStops, EachLogIsMade, EachLogIsUnmade, EachRecordGoes, EachRelogGoes};

use vx_house::{House, Imported};
use vx_piece::Piece;
use vx_stage_volumes::each_piece_ends;

/// Where an empty log was made for a volume, sectors of the volume alone have changed, and nothing is marked in its log.
pub fn each_log_is_made<P: Piece + Drop>(house: &House<P>, old: &Imported<P>, new: &Imported<P>)
    ensures { EachLogIsMade P.seen house.now old.now new.now }
{
    each_piece_ends::<P>();
    let _ = house;
    let _ = old;
    let _ = new;
}

/// Where none could be made, sectors of the volume alone have changed, and there is a cause.
pub fn each_log_is_unmade<P: Piece + Drop>(house: &House<P>, old: &Imported<P>, new: &Imported<P>)
    ensures { EachLogIsUnmade P.seen house.now old.now new.now }
{
    each_piece_ends::<P>();
    let _ = house;
    let _ = old;
    let _ = new;
}

/// A commit of edits of a volume that does not run keeps the house, and all volumes run on.
pub fn each_record_goes<P: Piece + Drop>(house: &House<P>, old: &Imported<P>, new: &Imported<P>)
    ensures { EachRecordGoes P.seen house.now old.now new.now }
{
    let _ = house;
    let _ = old;
    let _ = new;
}

/// Where the commit ends the command instead, the group or the power is lost, and its volumes run as they did.
pub fn each_failed_record_stops<P: Piece + Drop>(
    house: &House<P>,
    old: &Imported<P>,
    new: &Imported<P>,
)
    ensures { EachFailedRecordStops P.seen house.now old.now new.now }
{
    let _ = house;
    let _ = old;
    let _ = new;
}

/// A running volume whose records are committed, and that has a new log then, or none, runs on with it, as all others do.
pub fn each_relog_goes<P: Piece + Drop>(house: &House<P>, old: &Imported<P>, new: &Imported<P>)
    ensures { EachRelogGoes P.seen house.now old.now new.now }
{
    each_piece_ends::<P>();
    let _ = house;
    let _ = old;
    let _ = new;
}
