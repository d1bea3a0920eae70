//! Calls on the region, over a page of its store.

ghost use Rattle.std.specs.Prelude.{◌≡◌, ◌≢◌, length, true, false};
ghost use Rattle.vx_marks.specs.Log.{KeepsLog, LogSeen};
ghost use Rattle.vx_cell.specs.Calls.{IsInSpan};
ghost use Rattle.vx_maps.specs.Stores.{store_seen};
ghost use Rattle.vx_store_rows.specs.Ready.{IsLogHere, IsReady};
ghost use Rattle.vx_mask.specs.Mask.{has};

use crate::region::{REGION, SECTORS, START, cell_of};
use std::alloc::Global;
use vx_cell::{Cell, CellFault, Place, Plex};
use vx_core::Stage;
use vx_maps::MapStore;
use vx_marks::{MarkFault, Marker};
use vx_pages::LocalPiece;
use vx_picker::{Picker, Policy};
use vx_piece::Piece;

/// So many blocks of the volume, from one on.
#[derive(Clone, Copy)]
pub struct Range {
    pub at: u64,
    pub count: u64,
}

/// The whole region.
pub const WHOLE: Range = Range {
    at: START,
    count: SECTORS,
};

/// A call on the region, or on its store. A written block is this byte, the next one the next byte.
#[derive(Clone, Copy)]
pub enum Call {
    Read(Range),
    Write(Range, u8),
    /// A write that leaves the region dirty.
    WriteDirty(Range, u8),
    Settle,
    Copy(u8),
    Clear,
    Kill,
    /// What failed calls have left loose in the store is written again.
    Firm,
}

/// A region between calls: its stage, the number that was drawn last, its plexes, and the store of its volume's marks.
#[derive(Drop)]
pub struct Life<P: LocalPiece> {
    pub stage: Stage,
    pub number: u64,
    pub plexes: Vec<Plex<P>>,
    pub store: MapStore<P>,
}

/// What a call answered, and what it read.
#[derive(Drop)]
pub struct Answer {
    pub result: Result<u64, CellFault>,
    pub bytes: Vec<u8>,
}

/// The blocks that a call writes, or has room for.
fn blocks_of(alloc: Global, call: Call) -> Option<Vec<u8>> {
    match call {
        Call::Read(range) => blocks(alloc, range.count, 0, 0),
        Call::Write(range, byte) | Call::WriteDirty(range, byte) => {
            blocks(alloc, range.count, byte, 1)
        }
        Call::Settle | Call::Copy(_) | Call::Clear | Call::Kill | Call::Firm => {
            Some(Vec::new(alloc))
        }
    }
}

/// So many blocks, each of one byte, which is so much higher in the next one.
fn blocks(alloc: Global, count: u64, byte: u8, step: u8) -> Option<Vec<u8>> {
    let mut bytes = Vec::new(alloc);
    let mut next = byte;
    for _ in 0..count {
        bytes.extend_from_slice(&[next; 512]).ok()?;
        next = next.wrapping_add(step);
    }
    Some(bytes)
}

/// Makes the call on a region. None where it can not be made.
pub fn perform<P: Piece + Drop>(
    alloc: Global,
    life: Life<P>,
    call: Call,
) -> Option<(Life<P>, Answer)> {
    if matches!(call, Call::Firm) {
        return Some(firm(alloc, life));
    }
    on_cell(alloc, life, call)
}

/// Makes the store firm. Its faults are told as those of the region's log.
fn firm<P: Piece + Drop>(alloc: Global, mut life: Life<P>) -> (Life<P>, Answer) {
    let result = match life.store.firm() {
        Ok(()) => Ok(0),
        Err(MarkFault::Failed { copy, device }) => {
            Err(CellFault::Fault(Place::Log { copy, device }))
        }
        Err(MarkFault::PowerLost) => Err(CellFault::PowerLost),
        Err(MarkFault::Busy) => Err(CellFault::Held),
    };
    let bytes = Vec::new(alloc);
    (life, Answer { result, bytes })
}

/// Makes a call of the cell, over the page of the store that has its marks.
fn on_cell<P: Piece + Drop>(alloc: Global, life: Life<P>, call: Call) -> Option<(Life<P>, Answer)> {
    let Life {
        stage,
        number,
        plexes,
        store,
    } = life;
    let mut bytes = blocks_of(alloc, call)?;
    let mut cell = cell_of(stage, number, plexes)?;
    let (store, result) = call_over(alloc, &mut cell, call, &mut bytes, store)?;
    let number = cell.number();
    let (stage, _, _, plexes) = cell.into_parts();
    let life = Life {
        stage,
        number,
        plexes,
        store,
    };
    Some((life, Answer { result, bytes }))
}

/// Makes the call over the page of a store.
fn call_over<P: Piece + Drop>(
    alloc: Global,
    cell: &mut Cell<P>,
    call: Call,
    bytes: &mut Vec<u8>,
    store: MapStore<P>,
) -> Option<(MapStore<P>, Result<u64, CellFault>)>
    requires { (log : LogSeen) → IsLogHere log → IsReady P.seen cell.old log }
{
    if !has_region(&store) {
        return None;
    }
    let mut scratch = vec![in alloc; 0u8; 512 * SECTORS as usize].ok()?;
    let (base, mut pages) = store.into_pages();
    let page = &mut pages[0];
    let result = call_on(cell, call, bytes, &mut scratch, page)?;
    Some((MapStore::from_pages(base, pages), result))
}

/// Whether so many bytes from a block on are blocks of the region, at least one.
fn is_inside(at: u64, bytes: &[u8]) -> bool
    ensures { result ≡ true → IsInSpan 32 32 at (length bytes.now) }
{
    let count = (bytes.len() / 512) as u64;
    bytes.len() % 512 == 0
        && count > 0
        && at >= START
        && at - START < SECTORS
        && count <= SECTORS - (at - START)
}

/// Makes the call on a cell. A read prefers plex 0. None where its range is not one of the region, or it is no call of a cell.
#[tactic(auto, using(crate::proofs::Ranges::in_span, crate::proofs::LogLaws::call_keeps, crate::proofs::LogLaws::write_keeps, crate::proofs::LogLaws::log_same))]
fn call_on<P: Piece, M: Marker>(
    cell: &mut Cell<P>,
    call: Call,
    bytes: &mut Vec<u8>,
    scratch: &mut Vec<u8>,
    log: &mut M,
) -> Option<Result<u64, CellFault>>
    requires ready { IsReady P.seen cell.old (M.log log.old) }
    requires own { (M.log log.old).lent ≡ false }
    requires scratch { length scratch.old.items ≡ 16384 }
    ensures { KeepsLog (M.log log.old) (M.log log.new) }
{
    match call {
        Call::Read(range) => {
            if !is_inside(range.at, bytes) {
                return None;
            }
            let pick = Picker::new(lowest_member);
            Some(cell.read(range.at, bytes, scratch, log, &pick, Policy::Prefer(0)))
        }
        Call::Write(range, _) => {
            if !is_inside(range.at, bytes) {
                return None;
            }
            Some(cell.write(range.at, bytes, scratch, log))
        }
        Call::WriteDirty(range, _) => {
            if !is_inside(range.at, bytes) {
                return None;
            }
            Some(cell.write_dirty(range.at, bytes, scratch, log))
        }
        Call::Settle => Some(match cell.settle(scratch, log) {
            Ok(()) => Ok(0),
            Err(fault) => Err(fault),
        }),
        Call::Copy(map) => Some(match cell.copy_to(map, scratch, log) {
            Ok(copied) => Ok(copied as u64),
            Err(fault) => Err(fault),
        }),
        Call::Clear => Some(match cell.clear_dirty(scratch, log) {
            Ok(()) => Ok(0),
            Err(fault) => Err(fault),
        }),
        Call::Kill => {
            cell.kill();
            Some(Ok(0))
        }
        Call::Firm => None,
    }
}

/// The lowest member of a mask that is not empty.
fn lowest_member(mask: u64, _turn: u64) -> u32
    ensures { mask ≢ 0 → has mask result ≡ true }
{
    vx_mask::first(mask)
}

/// The marks of the region that the store claims. None where it has no such region.
pub fn marks_of<P: LocalPiece>(store: &MapStore<P>) -> Option<u64> {
    if has_region(store) {
        Some(store.marked(REGION))
    } else {
        None
    }
}

/// Whether the store has marks of the region.
fn has_region<P: LocalPiece>(store: &MapStore<P>) -> bool
    ensures { result ≡ true → (store_seen P.seen store.now).has_region 1 ≡ true }
{
    store.shape().regions > REGION
}
