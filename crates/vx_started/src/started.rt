ghost use Rattle.std.specs.Prelude.{◌≡◌, ◌⊎◌, ◌+◌, ◌*◌, ◌/◌, ◌%◌, ◌^◌, ◌<◌, ◌≤◌, ℕ, List, None, length, replicate, IfOk, OnOk, OnErr, IfErr, vec_len, slice_index};
ghost use Rattle.vx_block.specs.Regions.{region_count};
ghost use Rattle.vx_piece.specs.Seen.{Seen, Keeps, HasCause};
ghost use Rattle.vx_moments.specs.World.{Volume};
ghost use Rattle.vx_script_forms.specs.declared.call.Call.{Call};
ghost use Rattle.vx_script_forms.specs.declared.call.Call.TheVariants as calls;
ghost use Rattle.vx_answers.specs.declared.answer.End.TheVariants as ends;
ghost use Rattle.vx_started.specs.Stands.{CallsAtMost, IsSized, HasShape, Serves, EndHasCause};
ghost use Rattle.vx_started.specs.Writes.{IsWriteOf};

use crate::bytes::{bytes_of, filled};
use crate::range::{read_range, write_range};
use std::alloc::Global;
use vx_answers::{Bytes, End, Parts};
use vx_base::{BLOCK, OutOfMemory};
use vx_block::Geometry;
use vx_life::Part;
use vx_names::Name;
use vx_piece::{Piece, PieceFault};
use vx_script_words::Blocks;

/// A whole device that is started as a volume.
#[derive(Drop)]
pub struct Started<P> {
    /// The name of the device.
    pub device: Name,
    pub piece: P,
    pub geometry: Geometry,
    /// The last number of each region.
    pub numbers: Vec<u64>,
    /// No number is above this one.
    pub most: u64,
    ghost sized: { vec_len numbers ≡ region_count geometry.length geometry.region },
    ghost few: { (region : ℕ) → slice_index numbers.items region ≤ most },
}

impl<P: Piece> Started<P> {
    /// Starts a device. After a refusal it is as before.
    pub fn new(
        alloc: Global,
        device: Name,
        piece: P,
        geometry: Geometry,
    ) -> Result<Started<P>, (P, OutOfMemory)>
        ensures shaped { IfOk result (λ started. (started.geometry ≡ geometry) × (started.device ≡ device)) }
        ensures piece { IfOk result (λ started. started.piece ≡ piece) }
        ensures fresh { IfOk result (λ started. (region : ℕ) → slice_index started.numbers.items region ≡ 0) }
        ensures few { IfOk result (λ started. started.most ≡ 0) }
        ensures kept { IfErr result (λ x. x.0 ≡ piece) }
    {
        match zeros(alloc, &geometry) {
            Ok(numbers) => Ok(Started {
                device,
                piece,
                geometry,
                numbers,
                most: 0,
            }),
            Err(refused) => Err((piece, refused)),
        }
    }

    /// Reads 1 to 2,048 blocks that lie in the volume. After a refusal of memory nothing has changed.
    pub fn read(&mut self, alloc: Global, start: u64, count: u64) -> Result<End, OutOfMemory>
        requires some { 0 < count }
        requires few { count ≤ 2048 }
        requires inside { start + count ≤ self.old.geometry.length }
        requires sized { IsSized (P.seen self.old.piece) self.old.geometry.length }
        requires room { self.old.most < 2 ^ 62 }

        // Each volume that it stood for has lived on as the answer tells.
        ensures served { IfOk result (λ end. (vol : List ℕ) (v : Volume) → HasShape self.old.device self.old.geometry v →
            Serves (calls.Read vol start count) end (P.seen self.old.piece) self.old.numbers.items (P.seen self.new.piece) self.new.numbers.items v) }
        ensures cause { IfOk result (λ end. EndHasCause self.old.device end (P.seen self.old.piece) (P.seen self.new.piece)) }
        ensures calls { CallsAtMost count 0 (P.seen self.old.piece) (P.seen self.new.piece) }
        ensures kept { Keeps (P.seen self.old.piece) (P.seen self.new.piece) }
        ensures same { (self.new.device ≡ self.old.device) × (self.new.geometry ≡ self.old.geometry) }
        ensures most { self.new.most ≤ self.old.most + 262144 }
        ensures refused { OnErr result (self.new ≡ self.old) }
    {
        let total = self.geometry.part_count(start, count);
        let mut parts = Vec::with_capacity(alloc, total as usize)?;
        let mut blocks = vec![in alloc; 0u8; BLOCK * count as usize]?;
        let outcome = read_range(
            &mut self.piece,
            &mut self.numbers,
            self.most,
            &self.geometry,
            start,
            count,
            &mut blocks,
            total,
            &mut parts,
        );
        self.most += 262_144;
        Ok(end_of(outcome, self.device, parts, blocks))
    }

    /// Fills 1 to 2,048 blocks that lie in the volume with a byte. After a refusal of memory nothing has changed.
    pub fn fill(
        &mut self,
        alloc: Global,
        start: u64,
        count: u64,
        byte: u8,
    ) -> Result<End, OutOfMemory>
        requires some { 0 < count }
        requires few { count ≤ 2048 }
        requires inside { start + count ≤ self.old.geometry.length }
        requires sized { IsSized (P.seen self.old.piece) self.old.geometry.length }
        requires room { self.old.most < 2 ^ 62 }
        ensures served { IfOk result (λ end. (vol : List ℕ) (v : Volume) → HasShape self.old.device self.old.geometry v →
            Serves (calls.Fill vol start count byte) end (P.seen self.old.piece) self.old.numbers.items (P.seen self.new.piece) self.new.numbers.items v) }
        ensures cause { IfOk result (λ end. EndHasCause self.old.device end (P.seen self.old.piece) (P.seen self.new.piece)) }
        ensures calls { CallsAtMost 0 count (P.seen self.old.piece) (P.seen self.new.piece) }
        ensures kept { Keeps (P.seen self.old.piece) (P.seen self.new.piece) }
        ensures same { (self.new.device ≡ self.old.device) × (self.new.geometry ≡ self.old.geometry) }
        ensures most { self.new.most ≤ self.old.most + 262144 }
        ensures refused { OnErr result (self.new ≡ self.old) }
    {
        let bytes = filled(alloc, BLOCK * count as usize, byte)?;
        self.write_bytes(alloc, start, count, &bytes)
    }

    /// Writes 1 to 64 blocks that lie in the volume. After a refusal of memory nothing has changed.
    pub fn write(&mut self, alloc: Global, start: u64, blocks: &Blocks) -> Result<End, OutOfMemory>
        requires whole { length blocks.now % 512 ≡ 0 }
        requires some { 0 < length blocks.now / 512 }
        requires few { length blocks.now / 512 ≤ 64 }
        requires inside { start + length blocks.now / 512 ≤ self.old.geometry.length }
        requires sized { IsSized (P.seen self.old.piece) self.old.geometry.length }
        requires room { self.old.most < 2 ^ 62 }
        ensures served { IfOk result (λ end. (vol : List ℕ) (v : Volume) → HasShape self.old.device self.old.geometry v →
            Serves (calls.Data vol start blocks.now) end (P.seen self.old.piece) self.old.numbers.items (P.seen self.new.piece) self.new.numbers.items v) }
        ensures cause { IfOk result (λ end. EndHasCause self.old.device end (P.seen self.old.piece) (P.seen self.new.piece)) }
        ensures calls { CallsAtMost 0 (length blocks.now / 512) (P.seen self.old.piece) (P.seen self.new.piece) }
        ensures kept { Keeps (P.seen self.old.piece) (P.seen self.new.piece) }
        ensures same { (self.new.device ≡ self.old.device) × (self.new.geometry ≡ self.old.geometry) }
        ensures most { self.new.most ≤ self.old.most + 262144 }
        ensures refused { OnErr result (self.new ≡ self.old) }
    {
        let bytes = bytes_of(alloc, blocks)?;
        self.write_bytes(alloc, start, blocks.count() as u64, &bytes)
    }

    /// Writes these bytes of 1 to 2,048 blocks that lie in the volume. After a refusal of memory nothing has changed.
    fn write_bytes(
        &mut self,
        alloc: Global,
        start: u64,
        count: u64,
        bytes: &[u8],
    ) -> Result<End, OutOfMemory>
        requires some { 0 < count }
        requires few { count ≤ 2048 }
        requires inside { start + count ≤ self.old.geometry.length }
        requires sized { IsSized (P.seen self.old.piece) self.old.geometry.length }
        requires room { self.old.most < 2 ^ 62 }
        requires holds { length bytes.now ≡ 512 * count }

        // Each call that writes these bytes there is served.
        ensures served { IfOk result (λ end. (call : Call) (v : Volume) → IsWriteOf start count bytes.now call → HasShape self.old.device self.old.geometry v →
            Serves call end (P.seen self.old.piece) self.old.numbers.items (P.seen self.new.piece) self.new.numbers.items v) }
        ensures cause { IfOk result (λ end. EndHasCause self.old.device end (P.seen self.old.piece) (P.seen self.new.piece)) }
        ensures calls { CallsAtMost 0 count (P.seen self.old.piece) (P.seen self.new.piece) }
        ensures kept { Keeps (P.seen self.old.piece) (P.seen self.new.piece) }
        ensures same { (self.new.device ≡ self.old.device) × (self.new.geometry ≡ self.old.geometry) }
        ensures most { self.new.most ≤ self.old.most + 262144 }
        ensures refused { OnErr result (self.new ≡ self.old) }
    {
        let total = self.geometry.part_count(start, count);
        let mut parts = Vec::with_capacity(alloc, total as usize)?;
        let outcome = write_range(
            &mut self.piece,
            &mut self.numbers,
            self.most,
            &self.geometry,
            start,
            count,
            bytes,
            total,
            &mut parts,
        );
        self.most += 262_144;
        Ok(end_of(outcome, self.device, parts, Vec::new(alloc)))
    }
}

fn zeros(alloc: Global, geometry: &Geometry) -> Result<Vec<u64>, OutOfMemory>
    ensures { IfOk result (λ numbers. numbers.items ≡ replicate (region_count geometry.now.length geometry.now.region) 0) }
{
    let numbers = vec![in alloc; 0u64; geometry.regions() as usize]?;
    Ok(numbers)
}

/// How a call ends that has gone through its parts.
fn end_of(outcome: Result<(), PieceFault>, device: Name, parts: Vec<Part>, blocks: Vec<u8>) -> End
    ensures done { OnOk outcome (result ≡ ends.Done None parts.items blocks.items) }
    ensures failed { OnErr outcome ((result ≡ ends.Fault device device parts.items) ⊎ (result ≡ ends.Lost parts.items)) }
    ensures cause { (old new : Seen) → HasCause old new outcome → EndHasCause device result old new }
{
    let parts = Parts::from_vec(parts);
    match outcome {
        Ok(()) => End::Done {
            copied: None,
            parts,
            blocks: Bytes::from_vec(blocks),
        },
        Err(PieceFault::Failed) => End::Fault {
            told: device,
            device,
            parts,
        },
        Err(PieceFault::PowerLost) => End::Lost { parts },
    }
}
