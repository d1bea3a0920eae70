//! A call or a pass on one running volume of the imported group, as a step of the house that holds it, and a change of one that nobody sees:
//! laws, as functions that do nothing and promise them.
#![tactic(auto)]

ghost use Rattle.vx_house_calls.specs.Passes.{EachCallGoesOn};
ghost use Rattle.vx_house_calls.specs.Unseen.{EachUnseenChangeStays};

use vx_house::{House, Imported};
use vx_piece::Piece;

/// A call on one running volume of the group of a house goes on with the house, and with each moment that it is.
pub fn each_call_goes_on<P: Piece + Drop>(house: &House<P>, old: &Imported<P>, new: &Imported<P>)
    ensures { EachCallGoesOn P.seen house.now old.now new.now }
{
    let _ = house;
    let _ = old;
    let _ = new;
}

/// A house of which one running volume is another value that is seen as it was is the moments that it was.
pub fn each_unseen_change_stays<P: Piece + Drop>(
    house: &House<P>,
    old: &Imported<P>,
    new: &Imported<P>,
)
    ensures { EachUnseenChangeStays P.seen house.now old.now new.now }
{
    let _ = house;
    let _ = old;
    let _ = new;
}
