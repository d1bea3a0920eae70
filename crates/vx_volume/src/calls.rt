//! Reads and writes of a volume.

ghost use Rattle.std.specs.Prelude.{◌≡◌, ◌+◌, ◌-◌, ◌*◌, ◌/◌, ◌^◌, ◌<◌, ◌≤◌, [], length, take, nat_le, vec_len, vec_capacity};
ghost use Rattle.vx_picker.specs.Picks.{PicksMember};
ghost use Rattle.vx_cell.specs.Calls.{IsInSpan, region_of};
ghost use Rattle.vx_cell.specs.Changes.{cell_seen};
ghost use Rattle.vx_volume.specs.Calls.{AreFresh, CallsPart, ChangesRegion, IsInRegion, IsRead, IsReady, IsWritten, ReadEnds, StaysOutside, TellsPart, WriteEndsAll, bytes_of, io_fault_of, io_result_of, parts_in};
ghost use Rattle.vx_volume.specs.Log.{LogGoes, log_seen};
ghost use Rattle.vx_volume.specs.Loop.{AreMade, IsPlainEnd, stop_of};
ghost use Rattle.vx_volume.specs.Receipts.{IsReserved, kind_of, with_part};
ghost use Rattle.vx_volume.specs.Volume.{IsVolume, log_of, shape_of, volume_seen};

use crate::fault::IoFault;
use crate::log::VolumeLog;
use crate::receipt::Receipt;
use crate::volume::Volume;
use vx_base::BLOCK;
use vx_block::Span;
use vx_cell::{Cell, CellFault};
use vx_core::Phase;
use vx_life::{EntryKind, Part};
use vx_picker::{Picker, Policy};
use vx_piece::Piece;

impl<P: Piece> Volume<P> {
    /// Reads the blocks of a receipt, from a block on. Where a region's part is not done, none behind it is begun; the receipt
    /// has a part for each region that was begun, and the bytes of those that are done. At `Range` nothing is done.
    pub fn read<F: Fn(u64, u64) -> u32>(
        &mut self,
        start: u64,
        pick: &Picker<F>,
        receipt: &mut Receipt,
    ) -> Result<(), IoFault>
        requires picks { PicksMember (F.pre pick.now.select) (F.post pick.now.select) }
        requires whole { IsVolume (volume_seen P.seen self.old) }
        requires some { 0 < receipt.old.count }
        requires reserved { IsReserved receipt.old.count receipt.old }
        requires room { (volume_seen P.seen self.old).most + 1 < 2 ^ 64 }
        ensures ends { ReadEnds start (volume_seen P.seen self.old) (volume_seen P.seen self.new) result receipt.old receipt.new }
        ensures whole { IsVolume (volume_seen P.seen self.new) }
        ensures shape { shape_of self.new ≡ shape_of self.old }
        ensures outside { StaysOutside result self.old self.new }
        ensures follows { LogGoes P.seen (log_of self.old) (log_of self.new) }
    {
        if !self.covers(start, receipt.count) {
            return Err(IoFault::Range);
        }
        self.most += 1;
        receipt.start = start;
        let outcome = self.read_parts(
            start,
            receipt.count,
            pick,
            &mut receipt.blocks,
            &mut receipt.parts,
        );
        receipt.kind = kind_of(EntryKind::Read, EntryKind::Missed, &outcome);
        io_result(outcome)
    }

    /// Writes the blocks of a receipt, from a block on: `from` has their bytes, which the receipt keeps. Where a region's part is
    /// not done, none behind it is begun, and the receipt has a part for each that was begun. At `Range` nothing is done.
    pub fn write(&mut self, start: u64, from: &[u8], receipt: &mut Receipt) -> Result<(), IoFault>
        requires whole { IsVolume (volume_seen P.seen self.old) }
        requires some { 0 < receipt.old.count }
        requires reserved { IsReserved receipt.old.count receipt.old }
        requires bytes { length from.now ≡ 512 * receipt.old.count }
        requires room { (volume_seen P.seen self.old).most + 1 < 2 ^ 64 }
        ensures ends { WriteEndsAll start from.now (volume_seen P.seen self.old) (volume_seen P.seen self.new) result receipt.old receipt.new }
        ensures whole { IsVolume (volume_seen P.seen self.new) }
        ensures shape { shape_of self.new ≡ shape_of self.old }
        ensures outside { StaysOutside result self.old self.new }
        ensures follows { LogGoes P.seen (log_of self.old) (log_of self.new) }
    {
        if !self.covers(start, receipt.count) {
            return Err(IoFault::Range);
        }
        self.most += 1;
        receipt.start = start;
        receipt.blocks.copy_from_slice(from);
        let outcome = self.write_parts(start, receipt.count, from, &mut receipt.parts);
        receipt.kind = kind_of(EntryKind::Write, EntryKind::Torn, &outcome);
        io_result(outcome)
    }

    /// Whether the volume has these blocks. The end of the range may be no number of 64 bits.
    fn covers(&self, start: u64, count: u64) -> bool
        ensures { result ≡ nat_le (start + count) self.now.shape.geometry.length }
    {
        let length = self.shape.geometry.length;
        count <= length && start <= length - count
    }

    /// Reads the parts of a range, in order, up to the first that is not done.
    fn read_parts<F: Fn(u64, u64) -> u32>(
        &mut self,
        start: u64,
        count: u64,
        pick: &Picker<F>,
        blocks: &mut Vec<u8>,
        parts: &mut Vec<Part>,
    ) -> Result<(), CellFault>
        requires picks { PicksMember (F.pre pick.now.select) (F.post pick.now.select) }
        requires whole { IsVolume (volume_seen P.seen self.old) }
        requires fresh { AreFresh 0 (volume_seen P.seen self.old) }
        requires some { 0 < count }
        requires inside { start + count ≤ self.old.shape.geometry.length }
        requires bytes { vec_len blocks.old ≡ 512 * count }
        requires none { parts.old.items ≡ [] }
        requires spare { count / 32 + 2 ≤ vec_capacity parts.old }
        ensures made { AreMade (CallsPart IsRead start count blocks.new.items) (parts_in self.old.shape.geometry.region start count) (stop_of result) (record { volume = volume_seen P.seen self.old; parts = [] }) (record { volume = volume_seen P.seen self.new; parts = parts.new.items }) }
        ensures whole { IsVolume (volume_seen P.seen self.new) }
        ensures shape { shape_of self.new ≡ shape_of self.old }
        ensures bytes { vec_len blocks.new ≡ vec_len blocks.old }
        ensures end { IsPlainEnd result }
        ensures follows { LogGoes P.seen (log_of self.old) (log_of self.new) }
    {
        let geometry = self.shape.geometry;
        let total = geometry.part_count(start, count);
        for index in 0..total {
            let span = geometry.part(start, count, index).unwrap();
            self.read_part(start, span, pick, blocks, parts)?;
        }
        Ok(())
    }

    /// Reads a part of a range that begins at `start` to its place in the buffer.
    fn read_part<F: Fn(u64, u64) -> u32>(
        &mut self,
        start: u64,
        span: Span,
        pick: &Picker<F>,
        blocks: &mut Vec<u8>,
        parts: &mut Vec<Part>,
    ) -> Result<(), CellFault>
        requires picks { PicksMember (F.pre pick.now.select) (F.post pick.now.select) }
        requires whole { IsVolume (volume_seen P.seen self.old) }
        requires one { IsInRegion span (volume_seen P.seen self.old) }
        requires fresh { AreFresh (span.start / self.old.shape.geometry.region) (volume_seen P.seen self.old) }
        requires from { start ≤ span.start }
        requires to { 512 * (span.start + span.count - start) ≤ vec_len blocks.old }
        requires spare { vec_len parts.old < vec_capacity parts.old }
        ensures reads { ChangesRegion (span.start / self.old.shape.geometry.region) (IsRead span (bytes_of blocks.new.items start span) (stop_of result)) (volume_seen P.seen self.old) (volume_seen P.seen self.new) }
        ensures told { TellsPart (span.start / self.old.shape.geometry.region) (volume_seen P.seen self.old) (volume_seen P.seen self.new) parts.old.items parts.new.items }
        ensures whole { IsVolume (volume_seen P.seen self.new) }
        ensures before { take (512 * (span.start - start)) blocks.new.items ≡ take (512 * (span.start - start)) blocks.old.items }
        ensures bytes { vec_len blocks.new ≡ vec_len blocks.old }
        ensures room { vec_capacity parts.new ≡ vec_capacity parts.old }
        ensures shape { shape_of self.new ≡ shape_of self.old }
        ensures end { IsPlainEnd result }
        ensures follows { LogGoes P.seen (log_of self.old) (log_of self.new) }
    {
        let (from, to) = stretch(start, span);
        self.read_span(span, &mut blocks[from..to], pick, parts)
    }

    /// Reads blocks of one region, and tells its part.
    fn read_span<F: Fn(u64, u64) -> u32>(
        &mut self,
        span: Span,
        into: &mut [u8],
        pick: &Picker<F>,
        parts: &mut Vec<Part>,
    ) -> Result<(), CellFault>
        requires picks { PicksMember (F.pre pick.now.select) (F.post pick.now.select) }
        requires whole { IsVolume (volume_seen P.seen self.old) }
        requires one { IsInRegion span (volume_seen P.seen self.old) }
        requires fresh { AreFresh (span.start / self.old.shape.geometry.region) (volume_seen P.seen self.old) }
        requires bytes { length into.old ≡ 512 * span.count }
        requires spare { vec_len parts.old < vec_capacity parts.old }
        ensures reads { ChangesRegion (span.start / self.old.shape.geometry.region) (IsRead span into.new (stop_of result)) (volume_seen P.seen self.old) (volume_seen P.seen self.new) }
        ensures told { TellsPart (span.start / self.old.shape.geometry.region) (volume_seen P.seen self.old) (volume_seen P.seen self.new) parts.old.items parts.new.items }
        ensures whole { IsVolume (volume_seen P.seen self.new) }
        ensures bytes { length into.new ≡ length into.old }
        ensures room { vec_capacity parts.new ≡ vec_capacity parts.old }
        ensures shape { shape_of self.new ≡ shape_of self.old }
        ensures end { IsPlainEnd result }
        ensures follows { LogGoes P.seen (log_of self.old) (log_of self.new) }
    {
        let region = self.shape.geometry.region_of(span.start);
        let bytes = self.region_bytes(region as usize);
        let policy = self.policy;
        let cell = &mut self.cells[region as usize];
        let phase = cell.stage().phase;
        let outcome = read_cell(
            cell,
            span,
            into,
            &mut self.scratch,
            bytes,
            &mut self.log,
            pick,
            policy,
        );
        tell(phase, part_of(cell, region), parts);
        outcome
    }

    /// Writes the parts of a range, in order, up to the first that is not done.
    fn write_parts(
        &mut self,
        start: u64,
        count: u64,
        bytes: &[u8],
        parts: &mut Vec<Part>,
    ) -> Result<(), CellFault>
        requires whole { IsVolume (volume_seen P.seen self.old) }
        requires fresh { AreFresh 0 (volume_seen P.seen self.old) }
        requires some { 0 < count }
        requires inside { start + count ≤ self.old.shape.geometry.length }
        requires bytes { length bytes.now ≡ 512 * count }
        requires none { parts.old.items ≡ [] }
        requires spare { count / 32 + 2 ≤ vec_capacity parts.old }
        ensures made { AreMade (CallsPart IsWritten start count bytes.now) (parts_in self.old.shape.geometry.region start count) (stop_of result) (record { volume = volume_seen P.seen self.old; parts = [] }) (record { volume = volume_seen P.seen self.new; parts = parts.new.items }) }
        ensures whole { IsVolume (volume_seen P.seen self.new) }
        ensures shape { shape_of self.new ≡ shape_of self.old }
        ensures end { IsPlainEnd result }
        ensures follows { LogGoes P.seen (log_of self.old) (log_of self.new) }
    {
        let geometry = self.shape.geometry;
        let total = geometry.part_count(start, count);
        for index in 0..total {
            let span = geometry.part(start, count, index).unwrap();
            let (from, to) = stretch(start, span);
            self.write_span(span, &bytes[from..to], parts)?;
        }
        Ok(())
    }

    /// Writes blocks of one region, and tells its part.
    fn write_span(
        &mut self,
        span: Span,
        from: &[u8],
        parts: &mut Vec<Part>,
    ) -> Result<(), CellFault>
        requires whole { IsVolume (volume_seen P.seen self.old) }
        requires one { IsInRegion span (volume_seen P.seen self.old) }
        requires fresh { AreFresh (span.start / self.old.shape.geometry.region) (volume_seen P.seen self.old) }
        requires bytes { length from.now ≡ 512 * span.count }
        requires spare { vec_len parts.old < vec_capacity parts.old }
        ensures writes { ChangesRegion (span.start / self.old.shape.geometry.region) (IsWritten span from.now (stop_of result)) (volume_seen P.seen self.old) (volume_seen P.seen self.new) }
        ensures told { TellsPart (span.start / self.old.shape.geometry.region) (volume_seen P.seen self.old) (volume_seen P.seen self.new) parts.old.items parts.new.items }
        ensures whole { IsVolume (volume_seen P.seen self.new) }
        ensures room { vec_capacity parts.new ≡ vec_capacity parts.old }
        ensures shape { shape_of self.new ≡ shape_of self.old }
        ensures end { IsPlainEnd result }
        ensures follows { LogGoes P.seen (log_of self.old) (log_of self.new) }
    {
        let region = self.shape.geometry.region_of(span.start);
        let bytes = self.region_bytes(region as usize);
        let cell = &mut self.cells[region as usize];
        let phase = cell.stage().phase;
        let outcome = write_cell(cell, span, from, &mut self.scratch, bytes, &mut self.log);
        tell(phase, part_of(cell, region), parts);
        outcome
    }
}

/// From where to where the bytes of a span lie among those of a range that begins at `start`.
fn stretch(start: u64, span: Span) -> (usize, usize)
    requires from { start ≤ span.start }
    requires fits { 512 * (span.start + span.count - start) < 2 ^ 64 }
    ensures from { result.0 ≡ 512 * (span.start - start) }
    ensures to { result.1 ≡ 512 * (span.start - start) + 512 * span.count }
{
    let from = BLOCK * (span.start - start) as usize;
    (from, from + BLOCK * span.count as usize)
}

/// Reads blocks of a region. The buffer has room for the region's bytes.
fn read_cell<P: Piece, F: Fn(u64, u64) -> u32>(
    cell: &mut Cell<P>,
    span: Span,
    into: &mut [u8],
    scratch: &mut Vec<u8>,
    bytes: usize,
    log: &mut VolumeLog<P>,
    pick: &Picker<F>,
    policy: Policy,
) -> Result<(), CellFault>
    requires picks { PicksMember (F.pre pick.now.select) (F.post pick.now.select) }
    requires ready { IsReady (region_of P.seen cell.old (log_seen P.seen log.old)) }
    requires bytes { bytes ≡ 512 * (cell_seen P.seen cell.old).size }
    requires buffer { bytes ≤ vec_len scratch.old }
    requires range { IsInSpan (cell_seen P.seen cell.old).start (cell_seen P.seen cell.old).size span.start (length into.old) }
    requires count { length into.old ≡ 512 * span.count }
    requires number { (cell_seen P.seen cell.old).number + 1 < 2 ^ 64 }
    ensures read { IsRead span into.new (stop_of result) (region_of P.seen cell.old (log_seen P.seen log.old)) (region_of P.seen cell.new (log_seen P.seen log.new)) }
    ensures length { length into.new ≡ length into.old }
    ensures end { IsPlainEnd result }
    ensures buffer { vec_len scratch.new ≡ vec_len scratch.old }
    ensures follows { LogGoes P.seen log.old log.new }
{
    without_number(cell.read(span.start, into, &mut scratch[..bytes], log, pick, policy))
}

/// Writes blocks of a region. The buffer has room for the region's bytes.
fn write_cell<P: Piece>(
    cell: &mut Cell<P>,
    span: Span,
    from: &[u8],
    scratch: &mut Vec<u8>,
    bytes: usize,
    log: &mut VolumeLog<P>,
) -> Result<(), CellFault>
    requires ready { IsReady (region_of P.seen cell.old (log_seen P.seen log.old)) }
    requires bytes { bytes ≡ 512 * (cell_seen P.seen cell.old).size }
    requires buffer { bytes ≤ vec_len scratch.old }
    requires range { IsInSpan (cell_seen P.seen cell.old).start (cell_seen P.seen cell.old).size span.start (length from.now) }
    requires count { length from.now ≡ 512 * span.count }
    requires number { (cell_seen P.seen cell.old).number + 1 < 2 ^ 64 }
    ensures written { IsWritten span from.now (stop_of result) (region_of P.seen cell.old (log_seen P.seen log.old)) (region_of P.seen cell.new (log_seen P.seen log.new)) }
    ensures end { IsPlainEnd result }
    ensures buffer { vec_len scratch.new ≡ vec_len scratch.old }
    ensures follows { LogGoes P.seen log.old log.new }
{
    without_number(cell.write(span.start, from, &mut scratch[..bytes], log))
}

/// Adds the part of a region's call, which has begun unless the region was dead.
fn tell(phase: Phase, part: Part, parts: &mut Vec<Part>)
    requires spare { vec_len parts.old < vec_capacity parts.old }
    ensures parts { parts.new.items ≡ with_part phase part parts.old.items }
    ensures room { vec_capacity parts.new ≡ vec_capacity parts.old }
{
    match phase {
        Phase::Dead => {}
        Phase::Settled | Phase::Unsettled | Phase::Busy(_) => parts.push_reserved(part),
    }
}

fn part_of<P: Piece>(cell: &Cell<P>, region: u64) -> Part
    ensures { result ≡ record { region = region; epoch = (cell_seen P.seen cell.now).epoch; number = (cell_seen P.seen cell.now).number } }
{
    Part {
        region,
        epoch: cell.epoch(),
        number: cell.number(),
    }
}

fn without_number(outcome: Result<u64, CellFault>) -> Result<(), CellFault>
    ensures stop { stop_of result ≡ stop_of outcome }
    ensures end { IsPlainEnd outcome → IsPlainEnd result }
{
    match outcome {
        Ok(_) => Ok(()),
        Err(fault) => Err(fault),
    }
}

fn kind_of(done: EntryKind, stopped: EntryKind, outcome: &Result<(), CellFault>) -> EntryKind
    ensures { result ≡ kind_of done stopped outcome.now }
{
    match outcome {
        Ok(()) => done,
        Err(_) => stopped,
    }
}

/// How a call on a volume ends of which no page of the log is out.
pub(crate) fn io_result(outcome: Result<(), CellFault>) -> Result<(), IoFault>
    ensures { result ≡ io_result_of outcome }
{
    match outcome {
        Ok(()) => Ok(()),
        Err(fault) => Err(io_fault(fault)),
    }
}

/// A fault of a region's call that was not held, as the volume tells it.
pub(crate) fn io_fault(fault: CellFault) -> IoFault
    ensures { result ≡ io_fault_of fault }
{
    match fault {
        CellFault::Fault(place) => IoFault::Fault(place),
        CellFault::PowerLost | CellFault::Held | CellFault::Only(_) => IoFault::PowerLost,
    }
}
