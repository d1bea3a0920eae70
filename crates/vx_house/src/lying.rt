//! Where the sectors of a group's volumes lie.
ghost use Rattle.vx_house.specs.Idle.{EachIdleVolumeIsFree};

use crate::Imported;
use vx_piece::Piece;

/// The sectors of a volume that does not run are in the pool of its group: a law, as a function that does nothing and promises it.
pub fn each_idle_volume_is_free<P: Piece + Drop>(group: &Imported<P>)
    ensures { EachIdleVolumeIsFree P.seen group.now }
{
    let _ = group;
}
