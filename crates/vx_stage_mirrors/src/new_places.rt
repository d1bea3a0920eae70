//! Where the plexes of a group lie that are added to a volume of it: in the pool of its pieces, out of which they can be taken. Laws, as
//! functions that do nothing and promise them.

ghost use Rattle.vx_stage_mirrors.specs.PlaceLaws.{EachHeldPlexCanBeTaken, EachNewPlexIsFree};

use vx_house::Imported;
use vx_piece::Piece;

/// The sectors of a new plex on good disks are in the pool of its group.
pub fn each_new_plex_is_free<P: Piece + Drop>(group: &Imported<P>)
    ensures { EachNewPlexIsFree P.seen group.now }
{
    let _ = group;
}

/// The layout of a plex on good disks has numbers for its strips, and that of a data plex holds its volume.
pub fn each_held_plex_can_be_taken()
    ensures { EachHeldPlexCanBeTaken }
{}
