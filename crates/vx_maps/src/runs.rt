//! A copy's pieces are put into slots, one for each sector of the plex, and come out of them.

ghost use Rattle.std.specs.Prelude.{◌≡◌, ◌≤◌, ◌<◌, ◌*◌, ◌^◌, [], map, length, vec_len, vec_capacity, IfOk, IfErr, Some};
ghost use Rattle.std.specs.List.{All};
ghost use Rattle.vx_runs.specs.Run.{run_sectors};
ghost use Rattle.vx_cut.specs.Same.{HasSome, SameRun};
ghost use Rattle.vx_maps.specs.Slots.{AreFull, IsWholeOn, pieces_in, slots_seen};

use std::alloc::Global;
use vx_base::OutOfMemory;
use vx_cut::cut_run;
use vx_pages::LocalPiece;
use vx_piece::Piece;

/// The pieces of a copy in slots, and the memory to put them together again.
#[derive(Drop)]
pub struct Slotted<P> {
    pub slots: Vec<Option<P>>,
    pub spare: Vec<P>,
}

/// Cuts a copy whose slots have so many sectors. After a refusal it is the same run, perhaps of more pieces.
pub fn cut_copy<P: Piece + Drop>(
    alloc: Global,
    size: u64,
    pieces: Vec<P>,
) -> Result<Slotted<P>, (Vec<P>, OutOfMemory)>
    requires some { All HasSome (map P.seen pieces.items) }
    requires inside { 35 * size ≤ run_sectors (map P.seen pieces.items) }
    requires fits { 35 * size < 2 ^ 64 }
    ensures whole { IfOk result (λ cut. IsWholeOn size (slots_seen P.seen cut.slots.items)) }
    ensures same { IfOk result (λ cut. SameRun (map P.seen pieces.items) (pieces_in (slots_seen P.seen cut.slots.items))) }
    ensures empty { IfOk result (λ cut. cut.spare.items ≡ []) }
    ensures room { IfOk result (λ cut. vec_len cut.slots ≤ vec_capacity cut.spare) }
    ensures kept { IfErr result (λ x. SameRun (map P.seen pieces.items) (map P.seen x.0.items)) }
{
    match cut_run(alloc, pieces, 35 * size) {
        Ok(singles) => put_in(alloc, singles),
        Err((pieces, _)) => Err((pieces, OutOfMemory)),
    }
}

/// Puts each piece into a slot of its own.
fn put_in<P: LocalPiece + Drop>(
    alloc: Global,
    pieces: Vec<P>,
) -> Result<Slotted<P>, (Vec<P>, OutOfMemory)>
    ensures same { IfOk result (λ cut. slots_seen P.seen cut.slots.items ≡ map Some (map P.seen pieces.items)) }
    ensures empty { IfOk result (λ cut. cut.spare.items ≡ []) }
    ensures room { IfOk result (λ cut. vec_len cut.slots ≤ vec_capacity cut.spare) }
    ensures kept { IfErr result (λ x. x.0.items ≡ pieces.items) }
{
    let mut left = pieces;
    let Ok(mut slots) = Vec::with_capacity(alloc, left.len()) else {
        return Err((left, OutOfMemory));
    };
    left.reverse();
    'putting: while let Some(piece) = left.pop() {
        slots.push_reserved(Some(piece));
    }
    Ok(Slotted { slots, spare: left })
}

/// Takes each piece out of its slot. `spare` is the memory for them.
pub fn take_out<P: LocalPiece + Drop>(slots: Vec<Option<P>>, spare: Vec<P>) -> Vec<P>
    requires full { AreFull (slots_seen P.seen slots.items) }
    requires empty { spare.items ≡ [] }
    requires room { vec_len slots ≤ vec_capacity spare }
    ensures { map P.seen result.items ≡ pieces_in (slots_seen P.seen slots.items) }
{
    let mut pieces = spare;
    let mut left = slots;
    left.reverse();
    'taking: while let Some(slot) = left.pop() {
        pieces.push_reserved(slot.unwrap());
    }
    pieces
}
