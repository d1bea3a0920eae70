//! A running volume of a group, of which a map is marked in each region for a plex that is to join it: as the configuration with that plex
//! records it too, the volume is sound by its bytes. Laws, as functions that do nothing and promise them.

ghost use Rattle.vx_stage_mirrors.specs.MarkedLaws.{EachMarkIsShown, EachMarkedVolumeIsSound, EachShownPlexIsSound};

use vx_lending::Running;
use vx_piece::Piece;
use vx_volume_laws::lives::each_left_volume_stands;

/// Where all bits of a map were set in the log, each copy of it shows them.
pub fn each_mark_is_shown<P: Piece + Drop>(before: &Running<P>, after: &Running<P>)
    ensures { EachMarkIsShown P.seen before.now after.now }
{
    let _ = before;
    let _ = after;
}

/// With a plex that each copy of the log marks everywhere, a volume is sound by its bytes.
pub fn each_shown_plex_is_sound<P: Piece + Drop>(running: &Running<P>)
    ensures { EachShownPlexIsSound P.seen running.now }
{
    each_left_volume_stands();
    let _ = running;
}

/// So it is with a plex whose map was marked in each region.
pub fn each_marked_volume_is_sound<P: Piece + Drop>(before: &Running<P>, after: &Running<P>)
    ensures { EachMarkedVolumeIsSound P.seen before.now after.now }
{
    each_left_volume_stands();
    let _ = before;
    let _ = after;
}
