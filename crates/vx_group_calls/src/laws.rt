//! Laws that callers need, each a function that does nothing and promises them.

ghost use Rattle.std.specs.Prelude.{ℕ};
ghost use Rattle.vx_volume.specs.Passes.{Clears, CopyEnds, PassEnds, Settles};
ghost use Rattle.vx_group_calls.specs.Laws.{OpenedAreAlive, PassKeepsCuts, PassKeepsPieces, TellStill};

use vx_piece::Piece;
use vx_volume::Volume;

/// From its opening on a region of a volume is dead only where a piece of it or of the log is cut; passes keep that, as calls do.
pub fn dead_regions_are_cut()
    ensures opened { OpenedAreAlive }
    ensures settled { PassKeepsCuts (PassEnds Settles) }
    ensures cleared { PassKeepsCuts (PassEnds Clears) }
    ensures copied { (map : ℕ) → PassKeepsCuts (CopyEnds map) }
{}

/// Passes keep each piece of a volume in its place, as calls do.
pub fn passes_keep_pieces<P: Piece + Drop>(old: &Volume<P>, new: &Volume<P>)
    ensures settled { PassKeepsPieces P.seen (PassEnds Settles) old.now new.now }
    ensures cleared { PassKeepsPieces P.seen (PassEnds Clears) old.now new.now }
    ensures copied { (map : ℕ) → PassKeepsPieces P.seen (CopyEnds map) old.now new.now }
{
    let _ = old;
    let _ = new;
}

/// Where pieces tell alike what they hold, those of a volume tell it still once calls have kept each in its place.
pub fn each_call_tells<P: Piece + Drop>(old: &Volume<P>, new: &Volume<P>)
    ensures { TellStill P.seen old.now new.now }
{
    let _ = old;
    let _ = new;
}
