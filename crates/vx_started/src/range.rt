//! A range of blocks, part by part.
ghost use Rattle.std.specs.Prelude.{◌≡◌, ◌+◌, ◌-◌, ◌*◌, ◌^◌, ◌<◌, ◌≤◌, ℕ, [], length, Some, None, IsSome, OnOk, OnErr, vec_len, vec_capacity};
ghost use Rattle.vx_base.specs.Blocks.{Contents, block_at};
ghost use Rattle.vx_block.specs.Regions.{region_count, part_at};
ghost use Rattle.vx_piece.specs.Seen.{Keeps, IsRead, HasCause};
ghost use Rattle.vx_life.specs.declared.EntryKind.TheVariants as kinds;
ghost use Rattle.vx_started.specs.Stands.{CallsAtMost, AreBelow, CallGoes, IsSized};
ghost use Rattle.vx_started.specs.Buffers.{HoldsFirst};

use crate::part::{read_part, write_part};
use vx_block::Geometry;
use vx_life::Part;
use vx_piece::{Piece, PieceFault};

/// Writes the `total` parts of a range, of which these are the bytes. Where a device call fails, the parts are those
/// that were begun.
pub fn write_range<P: Piece>(
    piece: &mut P,
    numbers: &mut Vec<u64>,
    most: u64,
    geometry: &Geometry,
    start: u64,
    count: u64,
    bytes: &[u8],
    total: u64,
    parts: &mut Vec<Part>,
) -> Result<(), PieceFault>
    requires some { 0 < count }
    requires inside { start + count ≤ geometry.now.length }
    requires sized { IsSized (P.seen piece.old) geometry.now.length }
    requires numbers { vec_len numbers.old ≡ region_count geometry.now.length geometry.now.region }
    requires below { AreBelow most numbers.old.items }
    requires room { most < 2 ^ 62 }
    requires holds { length bytes.now ≡ 512 * count }
    requires each { (index : ℕ) → index < total → IsSome (part_at geometry.now.region start count index) }
    requires few { total ≤ 262144 }
    requires fresh { parts.old.items ≡ [] }
    requires spare { total ≤ vec_capacity parts.old }
    ensures kept { Keeps (P.seen piece.old) (P.seen piece.new) }
    ensures cause { HasCause (P.seen piece.old) (P.seen piece.new) result }
    ensures calls { CallsAtMost 0 count (P.seen piece.old) (P.seen piece.new) }
    ensures len { vec_len numbers.new ≡ vec_len numbers.old }
    ensures below { AreBelow (most + 262144) numbers.new.items }

    // Done, all parts are written; else the parts that were begun are torn.
    ensures done { OnOk result (CallGoes geometry.now.length geometry.now.region start count kinds.Write (λ k. block_at bytes.now (k - start)) (P.seen piece.old) numbers.old.items (P.seen piece.new) numbers.new.items parts.new.items) }
    ensures all { OnOk result (vec_len parts.new ≡ total) }
    ensures failed { OnErr result (CallGoes geometry.now.length geometry.now.region start count kinds.Torn (λ k. block_at bytes.now (k - start)) (P.seen piece.old) numbers.old.items (P.seen piece.new) numbers.new.items parts.new.items) }
    ensures begun { OnErr result (0 < vec_len parts.new) }
{
    for index in 0..total {
        let span = geometry.part(start, count, index).unwrap();
        let region = geometry.region_of(span.start);
        let (part, outcome) = write_part(piece, numbers, region, span, start, bytes);
        parts.push_reserved(part);
        if let Err(fault) = outcome {
            return Err(fault);
        }
    }
    Ok(())
}

/// Reads the `total` parts of a range to a buffer that has their bytes. Where a device call fails, the parts are those
/// that were begun.
pub fn read_range<P: Piece>(
    piece: &mut P,
    numbers: &mut Vec<u64>,
    most: u64,
    geometry: &Geometry,
    start: u64,
    count: u64,
    blocks: &mut Vec<u8>,
    total: u64,
    parts: &mut Vec<Part>,
) -> Result<(), PieceFault>
    requires some { 0 < count }
    requires inside { start + count ≤ geometry.now.length }
    requires sized { IsSized (P.seen piece.old) geometry.now.length }
    requires numbers { vec_len numbers.old ≡ region_count geometry.now.length geometry.now.region }
    requires below { AreBelow most numbers.old.items }
    requires room { most < 2 ^ 62 }
    requires buffer { vec_len blocks.old ≡ 512 * count }
    requires each { (index : ℕ) → index < total → IsSome (part_at geometry.now.region start count index) }
    requires end { part_at geometry.now.region start count total ≡ None }
    requires few { total ≤ 262144 }
    requires fresh { parts.old.items ≡ [] }
    requires spare { total ≤ vec_capacity parts.old }
    ensures kept { Keeps (P.seen piece.old) (P.seen piece.new) }
    ensures same { IsRead (P.seen piece.old) (P.seen piece.new) }
    ensures cause { HasCause (P.seen piece.old) (P.seen piece.new) result }
    ensures calls { CallsAtMost count 0 (P.seen piece.old) (P.seen piece.new) }
    ensures len { vec_len numbers.new ≡ vec_len numbers.old }
    ensures below { AreBelow (most + 262144) numbers.new.items }
    ensures blocks { vec_len blocks.new ≡ 512 * count }

    // Done, all parts are read, and the buffer holds them; else the parts that were begun are missed.
    ensures done { OnOk result ((contents : Contents) → (P.seen piece.old).told ≡ Some contents → CallGoes geometry.now.length geometry.now.region start count kinds.Read contents (P.seen piece.old) numbers.old.items (P.seen piece.new) numbers.new.items parts.new.items) }
    ensures holds { OnOk result (HoldsFirst blocks.new.items (P.seen piece.old).told start count) }
    ensures all { OnOk result (vec_len parts.new ≡ total) }
    ensures failed { OnErr result (CallGoes geometry.now.length geometry.now.region start count kinds.Missed (λ k. block_at [] (k - start)) (P.seen piece.old) numbers.old.items (P.seen piece.new) numbers.new.items parts.new.items) }
    ensures begun { OnErr result (0 < vec_len parts.new) }
{
    for index in 0..total {
        let span = geometry.part(start, count, index).unwrap();
        let region = geometry.region_of(span.start);
        let (part, outcome) = read_part(piece, numbers, region, span, start, blocks);
        parts.push_reserved(part);
        if let Err(fault) = outcome {
            return Err(fault);
        }
    }
    Ok(())
}
