//! The plexes of regions as runs of pieces, which a volume takes.

ghost use Rattle.std.specs.Prelude.{◌≡◌, ◌≤◌, [], map as map_of, vec_len, vec_capacity};
ghost use Rattle.std.specs.List.{All};
ghost use Rattle.vx_cell.specs.Plexes.{plexes_seen};
ghost use Rattle.vx_volume.specs.Changing.{runs_seen};
ghost use Rattle.vx_volume.specs.Opening.{regions_seen};
ghost use Rattle.vx_lending.specs.RegionPieces.{pieces_of};
ghost use Rattle.vx_plex_pieces.specs.Runs.{HasOnePlex};

use vx_cell::Plex;
use vx_piece::Piece;

/// The pieces of the one plex of each region, in order, in a list that has room for them. It takes no memory.
pub fn runs_of<P: Piece + Drop>(regions: Vec<Vec<Plex<P>>>, into: Vec<Vec<P>>) -> Vec<Vec<P>>
    requires one { All HasOnePlex (regions_seen P.seen regions.items) }
    requires none { into.items ≡ [] }
    requires room { vec_len regions ≤ vec_capacity into }
    ensures { runs_seen P.seen result.items ≡ map_of pieces_of (regions_seen P.seen regions.items) }
{
    let mut left = regions;
    let mut runs = into;
    'regions: while let Some(plexes) = left.pop() {
        runs.push_reserved(run_of(plexes));
    }
    runs.reverse();
    runs
}

/// The pieces of the one plex of a region.
fn run_of<P: Piece + Drop>(plexes: Vec<Plex<P>>) -> Vec<P>
    requires one { HasOnePlex (plexes_seen P.seen plexes.items) }
    ensures { map_of P.seen result.items ≡ pieces_of (plexes_seen P.seen plexes.items) }
{
    let mut plexes = plexes;
    let Plex { map: _, pieces } = plexes.pop().unwrap();
    pieces
}
