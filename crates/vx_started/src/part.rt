//! One part of a call: its number, and its device call.
ghost use Rattle.std.specs.Prelude.{◌≡◌, ◌+◌, ◌-◌, ◌*◌, ◌/◌, ◌^◌, ◌<◌, ◌≤◌, ℕ, [], length, take, drop, Some, OnOk, IfSome, vec_len, slice_index, slice_set};
ghost use Rattle.vx_base.specs.Blocks.{Contents, AreBlocks, block_at};
ghost use Rattle.vx_block.specs.Regions.{region_count};
ghost use Rattle.vx_piece.specs.Seen.{Keeps, IsRead, IsInside, HasCause, Writes};
ghost use Rattle.vx_life.specs.declared.EntryKind.TheVariants as kinds;
ghost use Rattle.vx_started.specs.Stands.{CallsAtMost, IsDrawn, PartGoes};
ghost use Rattle.vx_started.specs.Buffers.{HoldsFirst, HasBetween};

use vx_block::Span;
use vx_life::Part;
use vx_piece::{Piece, PieceFault};

/// Draws the next number of a region.
fn draw(numbers: &mut Vec<u64>, region: u64) -> Part
    requires inside { region < vec_len numbers.old }
    requires room { slice_index numbers.old.items region < 2 ^ 63 }
    ensures drawn { IsDrawn region numbers.old.items result numbers.new.items }
    ensures len { vec_len numbers.new ≡ vec_len numbers.old }
{
    let number = numbers[region as usize] + 1;
    numbers[region as usize] = number;
    Part {
        region,
        epoch: 0,
        number,
    }
}

/// Writes the blocks of a part of a region, where `bytes` has those from `start` on.
pub fn write_part<P: Piece>(
    piece: &mut P,
    numbers: &mut Vec<u64>,
    region: u64,
    span: Span,
    start: u64,
    bytes: &[u8],
) -> (Part, Result<(), PieceFault>)
    requires some { 0 < span.count }
    requires from { start ≤ span.start }
    requires inside { span.start + span.count ≤ (P.seen piece.old).sectors }
    requires region { region < vec_len numbers.old }
    requires room { slice_index numbers.old.items region < 2 ^ 63 }
    requires holds { 512 * (span.start + span.count - start) ≤ length bytes.now }
    ensures drawn { IsDrawn region numbers.old.items result.0 numbers.new.items }
    ensures len { vec_len numbers.new ≡ vec_len numbers.old }
    ensures kept { Keeps (P.seen piece.old) (P.seen piece.new) }
    ensures cause { HasCause (P.seen piece.old) (P.seen piece.new) result.1 }
    ensures calls { CallsAtMost 0 span.count (P.seen piece.old) (P.seen piece.new) }

    // A write that is done is an entry of its own kind, and any write may be told as a torn one.
    ensures written { OnOk result.1 ((n : ℕ) → PartGoes n span kinds.Write (λ k. block_at bytes.now (k - start)) (P.seen piece.old) numbers.old.items (P.seen piece.new) numbers.new.items result.0) }
    ensures torn { (n : ℕ) → PartGoes n span kinds.Torn (λ k. block_at bytes.now (k - start)) (P.seen piece.old) numbers.old.items (P.seen piece.new) numbers.new.items result.0 }
{
    let part = draw(numbers, region);
    let outcome = write_own(piece, bytes, start, span);
    (part, outcome)
}

fn write_own<P: Piece>(
    piece: &mut P,
    bytes: &[u8],
    start: u64,
    span: Span,
) -> Result<(), PieceFault>
    requires some { 0 < span.count }
    requires from { start ≤ span.start }
    requires inside { span.start + span.count ≤ (P.seen piece.old).sectors }
    requires holds { 512 * (span.start + span.count - start) ≤ length bytes.now }
    ensures kept { Keeps (P.seen piece.old) (P.seen piece.new) }
    ensures told { Writes span.start (take (512 * span.count) (drop (512 * (span.start - start)) bytes.now)) (P.seen piece.old).told (P.seen piece.new).told result }
    ensures cause { HasCause (P.seen piece.old) (P.seen piece.new) result }
    ensures calls { CallsAtMost 0 span.count (P.seen piece.old) (P.seen piece.new) }
{
    let from = 512 * (span.start - start) as usize;
    let to = from + 512 * span.count as usize;
    piece.write(span.start, &bytes[from..to])
}

/// Reads a part of a region behind the blocks of the range that the buffer holds already.
pub fn read_part<P: Piece>(
    piece: &mut P,
    numbers: &mut Vec<u64>,
    region: u64,
    span: Span,
    start: u64,
    blocks: &mut Vec<u8>,
) -> (Part, Result<(), PieceFault>)
    requires some { 0 < span.count }
    requires from { start ≤ span.start }
    requires inside { span.start + span.count ≤ (P.seen piece.old).sectors }
    requires region { region < vec_len numbers.old }
    requires room { slice_index numbers.old.items region < 2 ^ 63 }
    requires holds { 512 * (span.start + span.count - start) ≤ vec_len blocks.old }
    ensures drawn { IsDrawn region numbers.old.items result.0 numbers.new.items }
    ensures len { vec_len numbers.new ≡ vec_len numbers.old }
    ensures kept { Keeps (P.seen piece.old) (P.seen piece.new) }
    ensures same { IsRead (P.seen piece.old) (P.seen piece.new) }
    ensures blocks { vec_len blocks.new ≡ vec_len blocks.old }
    ensures cause { HasCause (P.seen piece.old) (P.seen piece.new) result.1 }
    ensures calls { CallsAtMost span.count 0 (P.seen piece.old) (P.seen piece.new) }

    // The buffer holds the part too, and the read is an entry of what the piece tells; any read may be told as missed.
    ensures holds { OnOk result.1 (HoldsFirst blocks.old.items (P.seen piece.old).told start (span.start - start) → HoldsFirst blocks.new.items (P.seen piece.old).told start (span.start + span.count - start)) }
    ensures read { (n : ℕ) (contents : Contents) → span.start + span.count ≤ n → (P.seen piece.old).told ≡ Some contents → PartGoes n span kinds.Read contents (P.seen piece.old) numbers.old.items (P.seen piece.new) numbers.new.items result.0 }
    ensures missed { (n : ℕ) (values : Contents) → PartGoes n span kinds.Missed values (P.seen piece.old) numbers.old.items (P.seen piece.new) numbers.new.items result.0 }
{
    let part = draw(numbers, region);
    let outcome = read_behind(piece, blocks, start, span);
    (part, outcome)
}

fn read_behind<P: Piece>(
    piece: &mut P,
    blocks: &mut Vec<u8>,
    start: u64,
    span: Span,
) -> Result<(), PieceFault>
    requires some { 0 < span.count }
    requires from { start ≤ span.start }
    requires inside { span.start + span.count ≤ (P.seen piece.old).sectors }
    requires room { 512 * (span.start + span.count - start) ≤ vec_len blocks.old }
    ensures kept { Keeps (P.seen piece.old) (P.seen piece.new) }
    ensures same { IsRead (P.seen piece.old) (P.seen piece.new) }
    ensures len { vec_len blocks.new ≡ vec_len blocks.old }
    ensures ok { OnOk result (HoldsFirst blocks.old.items (P.seen piece.old).told start (span.start - start) → HoldsFirst blocks.new.items (P.seen piece.old).told start (span.start + span.count - start)) }
    ensures cause { HasCause (P.seen piece.old) (P.seen piece.new) result }
    ensures calls { CallsAtMost span.count 0 (P.seen piece.old) (P.seen piece.new) }
{
    let from = 512 * (span.start - start) as usize;
    let to = from + 512 * span.count as usize;
    read_between(piece, span.start, blocks, from, to)
}

/// Reads to a place of the buffer.
fn read_between<P: Piece>(
    piece: &mut P,
    at: u64,
    blocks: &mut Vec<u8>,
    from: usize,
    to: usize,
) -> Result<(), PieceFault>
    requires order { from ≤ to }
    requires room { to ≤ vec_len blocks.old }
    requires inside { IsInside (P.seen piece.old) at (to - from) }
    ensures kept { Keeps (P.seen piece.old) (P.seen piece.new) }
    ensures same { IsRead (P.seen piece.old) (P.seen piece.new) }
    ensures len { vec_len blocks.new ≡ vec_len blocks.old }
    ensures between { HasBetween from to blocks.old.items blocks.new.items (λ read. OnOk result (IfSome (P.seen piece.old).told (λ contents. AreBlocks read contents at))) }
    ensures cause { HasCause (P.seen piece.old) (P.seen piece.new) result }
    ensures calls { CallsAtMost ((to - from) / 512) 0 (P.seen piece.old) (P.seen piece.new) }
{
    piece.read(at, &mut blocks[from..to])
}
