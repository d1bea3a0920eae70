ghost use Rattle.std.specs.Prelude.{◌≡◌, ℕ, ◌<◌, ◌≤◌, ◌++◌, length, map, reverse, vec_len, vec_capacity, IfOk, IfErr, OnOk, ◌+◌};
ghost use Rattle.std.specs.List.{All};
ghost use Rattle.vx_runs.specs.Run.{run_sectors};
ghost use Rattle.vx_cut.specs.Same.{AreSingle, HasSome, IsSingle, SameRun, work};

use std::alloc::Global;
use vx_base::OutOfMemory;
use vx_piece::Piece;

/// Cuts the first so many sectors of a run into pieces of one sector, and leaves what lies behind them as it is. The pieces
/// are halved on and on, so that each sector is copied few times. After a refusal the run is the same, perhaps of more pieces.
pub fn cut_run<P: Piece + Drop>(
    alloc: Global,
    pieces: Vec<P>,
    sectors: u64,
) -> Result<Vec<P>, (Vec<P>, OutOfMemory)>
    requires some { All HasSome (map P.seen pieces.items) }
    requires inside { sectors ≤ run_sectors (map P.seen pieces.items) }
    ensures same { IfOk result (λ cut. SameRun (map P.seen pieces.items) (map P.seen cut.items)) }
    ensures count { IfOk result (λ cut. sectors ≤ length cut.items) }
    ensures singles { IfOk result (λ cut. AreSingle sectors (map P.seen cut.items)) }
    ensures kept { IfErr result (λ x. SameRun (map P.seen pieces.items) (map P.seen x.0.items)) }
{
    let mut left = pieces;
    let Ok(mut singles) = Vec::with_capacity(alloc, sectors as usize) else {
        return Err((left, OutOfMemory));
    };
    left.reverse();
    'cutting: while (singles.len() as u64) < sectors {
        if cut_next(alloc, &mut left, &mut singles).is_err() {
            return Err((put_back(left, singles), OutOfMemory));
        }
    }
    if singles.reserve(left.len()).is_err() {
        return Err((put_back(left, singles), OutOfMemory));
    }
    left.reverse();
    let _ = singles.append(&mut left);
    Ok(singles)
}

/// Takes the last piece, if it is of one sector, and else halves it. `left` has room to put all singles back.
fn cut_next<P: Piece + Drop>(
    alloc: Global,
    left: &mut Vec<P>,
    singles: &mut Vec<P>,
) -> Result<(), OutOfMemory>
    requires more { 0 < vec_len left.old }
    requires some { All HasSome (map P.seen left.old.items) }
    requires singles { All IsSingle (map P.seen singles.old.items) }
    requires room { vec_len singles.old < vec_capacity singles.old }
    requires back { vec_len left.old + vec_len singles.old ≤ vec_capacity left.old }
    ensures same { SameRun (map P.seen singles.old.items ++ reverse (map P.seen left.old.items)) (map P.seen singles.new.items ++ reverse (map P.seen left.new.items)) }
    ensures some { All HasSome (map P.seen left.new.items) }
    ensures singles { All IsSingle (map P.seen singles.new.items) }
    ensures capacity { vec_capacity singles.new ≡ vec_capacity singles.old }
    ensures back { vec_len left.new + vec_len singles.new ≤ vec_capacity left.new }
    ensures progress { OnOk result (work (map P.seen left.new.items) < work (map P.seen left.old.items)) }
    ensures few { vec_len singles.new ≤ vec_len singles.old + 1 }
{
    left.reserve(singles.len() + 1)?;
    let piece = left.pop().unwrap();
    let sectors = piece.sectors();
    if sectors == 1 {
        singles.push_reserved(piece);
        return Ok(());
    }
    match piece.split(alloc, sectors / 2) {
        Ok((front, behind)) => {
            left.push_reserved(behind);
            left.push_reserved(front);
            Ok(())
        }
        Err((piece, _)) => {
            left.push_reserved(piece);
            Err(OutOfMemory)
        }
    }
}

/// The singles, and behind them what is left, which stands in the other order.
fn put_back<P: Piece + Drop>(mut left: Vec<P>, mut singles: Vec<P>) -> Vec<P>
    requires room { vec_len left + vec_len singles ≤ vec_capacity left }
    ensures { map P.seen result.items ≡ map P.seen singles.items ++ reverse (map P.seen left.items) }
{
    'back: while let Some(piece) = singles.pop() {
        left.push_reserved(piece);
    }
    left.reverse();
    left
}
