//! Which regions a recovery writes, and how many it tells: laws, as functions that do nothing and promise them.
#![tactic(auto)]

ghost use Rattle.vx_healed_regions.specs.Laws.{EachCopiedNumberFits, EachDirtyNumberFits, EachHealingSpares};

use vx_lending::{Public, Running};
use vx_piece::Piece;

/// A recovery writes nothing on a plex but regions that are dirty, or marked on it, and nothing on one that is not available.
pub fn each_healing_spares<P: Piece + Drop>(
    old: &Public<P>,
    new: &Public<P>,
    running: &Running<P>,
    after: &Running<P>,
)
    ensures { EachHealingSpares P.seen old.now new.now running.now after.now }
{
    let _ = old;
    let _ = new;
    let _ = running;
    let _ = after;
}

/// The numbers of regions that it tells are sizes of sets between what all copies of the log mark and what some copy does.
pub fn each_number_fits<P: Piece + Drop>(
    old: &Public<P>,
    new: &Public<P>,
    running: &Running<P>,
    after: &Running<P>,
)
    ensures dirty { EachDirtyNumberFits P.seen old.now new.now running.now after.now }
    ensures copied { EachCopiedNumberFits P.seen old.now new.now running.now after.now }
{
    let _ = old;
    let _ = new;
    let _ = running;
    let _ = after;
}
