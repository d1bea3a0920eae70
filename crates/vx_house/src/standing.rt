//! What the bytes of a group's devices are while volumes run.
ghost use Rattle.vx_piece.specs.Seen.{AreCounts, EndsThere};
ghost use Rattle.vx_house.specs.Leaves.{StandsAt};
ghost use Rattle.vx_house.specs.Scene.{Shelved};
ghost use Rattle.vx_house.specs.View.{at};

use crate::House;
use vx_piece::Piece;
use vx_volume_laws::lives::each_left_volume_stands;

/// While no call is under way the bytes of the group's devices stand for the volumes that run: a law, as a function that does
/// nothing and promises it.
pub fn each_house_stands<P: Piece + Drop>(house: &House<P>)
    ensures { (shelf : Shelved) → StandsAt P.seen (at shelf house.now) }
{
    each_left_volume_stands();
    each_piece_ends::<P>();
    let _ = house;
}

/// Nothing is told behind the last sector of a piece, and its counts are numbers of 64 bits: laws of pieces, said to callers.
fn each_piece_ends<P: Piece>()
    ensures ends { (p : P) → EndsThere (P.seen p) }
    ensures counts { (p : P) → AreCounts (P.seen p) }
{}
