//! A region over plexes: a cell is made of a stage and plexes that fit one another.

ghost use Rattle.std.specs.Prelude.{◌≡◌, ◌<◌, ℕ, true, length, map as map_of, IfSome};
ghost use Rattle.vx_mask.specs.Mask.{has};
ghost use Rattle.vx_core.specs.Schedule.{IsIdle};
ghost use Rattle.vx_marks.specs.Log.{LogSeen};
ghost use Rattle.vx_cell.specs.Plexes.{plexes_seen};
ghost use Rattle.vx_runs.specs.Run.{run_sectors};
ghost use Rattle.vx_store_rows.specs.Ready.{FitMaps, FitsPlexes, IsLogHere, IsReady};

use vx_block::Span;
use vx_cell::{Cell, Plex};
use vx_core::{Phase, Stage};
use vx_piece::Piece;

/// The region of the rows, and its blocks.
pub const REGION: u64 = 1;

pub const START: u64 = 32;

pub const SECTORS: u64 = 32;

/// The maps of plexes of one piece each, which has the sectors of the region. None where two have one map, or a map is not
/// one of a data plex.
fn maps_of<P: Piece>(plexes: &[Plex<P>]) -> Option<u64>
    ensures { IfSome result (λ maps. FitsPlexes maps (plexes_seen P.seen plexes.now)) }
{
    match plexes {
        [] => Some(0),
        [first, rest @ ..] => {
            let maps = maps_of(rest)?;
            let map = first.map as u32;
            if map >= 30 || vx_mask::contains(maps, map) {
                return None;
            }
            if !covers(first) {
                return None;
            }
            Some(vx_mask::with(vx_mask::of(map), maps))
        }
    }
}

fn covers<P: Piece>(plex: &Plex<P>) -> bool
    ensures { result ≡ true → run_sectors (map_of P.seen plex.now.pieces.items) ≡ 32 }
{
    match plex.pieces.as_slice() {
        [piece] => piece.sectors() == SECTORS,
        _ => false,
    }
}

/// Whether these are the masks of a region with plexes of these maps, of which some can be read.
fn fits(on: u64, off: u64, snaps: u64, bits: u64, maps: u64) -> bool
    requires { (k : ℕ) → has maps k ≡ true → k < 30 }
    ensures { result ≡ true → FitMaps on off snaps bits maps }
{
    let all = vx_mask::with(on, off);
    if all != maps {
        return false;
    }
    let sole = vx_mask::less(on, off);
    if sole != on {
        return false;
    }
    let others = vx_mask::less(snaps, maps);
    if others != snaps || snaps >= 1 << 30 {
        return false;
    }
    let current = vx_mask::less(on, bits);
    current != 0
}

fn is_idle(phase: Phase) -> bool
    ensures { result ≡ true → IsIdle phase }
{
    match phase {
        Phase::Busy(_) => false,
        Phase::Settled | Phase::Unsettled | Phase::Dead => true,
    }
}

/// The cell of the region. None where the stage and the plexes do not fit one another.
#[tactic(auto, using(crate::proofs::Readiness::made_ready))]
pub fn cell_of<P: Piece + Drop>(stage: Stage, number: u64, plexes: Vec<Plex<P>>) -> Option<Cell<P>>
    ensures { IfSome result (λ cell. (log : LogSeen) → IsLogHere log → IsReady P.seen cell log) }
{
    let maps = maps_of(plexes.as_slice())?;
    if number == u64::MAX || !stage.logged || !is_idle(stage.phase) {
        return None;
    }
    if !fits(stage.on, stage.off, stage.snaps, stage.bits, maps) {
        return None;
    }
    let span = Span {
        start: START,
        count: SECTORS,
    };
    Some(Cell::new_at(stage, REGION, span, plexes, number, 0))
}
