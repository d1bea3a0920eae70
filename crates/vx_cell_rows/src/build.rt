//! The region of a row: a mirror of two plexes, 0 on device 1 and 1 on device 2, of two sectors each, with a log.

ghost use Rattle.std.specs.Prelude.{◌≡◌, ◌⊎◌, IfSome, false, map as map_of, vec_len};
ghost use Rattle.vx_core.specs.Schedule.{IsIdle};
ghost use Rattle.vx_cell_rows.specs.Piece.{row_seen};
ghost use Rattle.vx_runs.specs.Run.{run_sectors};
ghost use Rattle.vx_cell_rows.specs.Ready.{IsReady};
ghost use Rattle.vx_cell_rows.specs.Notes.{notes_log};
ghost use Rattle.vx_mask.specs.Mask.{has};

use crate::notes::Notes;
use crate::piece::RowPiece;
use std::alloc::Global;
use vx_block::Span;
use vx_cell::{Cell, Plex};
use vx_core::{Phase, Stage};
use vx_piece::{Bad, MemPiece, Piece};

/// Which calls on a plex fail, behind so many that do not, and how often; and how many calls come before the one at which
/// its power goes.
#[derive(Clone, Copy)]
pub struct Trouble {
    pub reads: bool,
    pub writes: bool,
    pub skip: u64,
    pub times: u64,
    pub cut: Option<u64>,
}

/// How a region stands before the call.
#[derive(Clone, Copy, Debug, PartialEq, Eq)]
pub enum Start {
    Settled,
    Unsettled,
    Dead,
}

/// The sectors of the region.
pub const SECTORS: u64 = 2;

/// So many bytes.
pub fn bytes(alloc: Global, byte: u8, count: usize) -> Option<Vec<u8>>
    ensures { IfSome result (λ bytes. vec_len bytes ≡ count) }
{
    match vec![in alloc; byte; count] {
        Ok(bytes) => Some(bytes),
        Err(_) => None,
    }
}

/// A plex of one piece. Each of its bytes is the number of its device.
pub fn plex(alloc: Global, map: u8, device: u8, trouble: Trouble) -> Option<Plex<RowPiece>>
    ensures { IfSome result (λ p. (p.map ≡ map) × (run_sectors (map_of row_seen p.pieces.items) ≡ 2)) }
{
    plex_of(alloc, map, device, bytes(alloc, device, 1024)?, trouble)
}

/// A plex of one piece, which holds these bytes.
pub fn plex_of(
    alloc: Global,
    map: u8,
    device: u8,
    bytes: Vec<u8>,
    trouble: Trouble,
) -> Option<Plex<RowPiece>>
    ensures { IfSome result (λ p. (p.map ≡ map) × (run_sectors (map_of row_seen p.pieces.items) ≡ 2)) }
{
    let bads = vec![in alloc; bad(trouble)].ok()?;
    let memory = MemPiece::new(device as u32, bytes, bads)?;
    if memory.sectors() != SECTORS {
        return None;
    }
    let pieces = vec![in alloc; RowPiece::new(memory, trouble.cut)].ok()?;
    Some(Plex { map, pieces })
}

fn bad(trouble: Trouble) -> Bad {
    Bad {
        start: 0,
        count: SECTORS,
        on_read: trouble.reads,
        on_write: trouble.writes,
        skip: trouble.skip,
        times: trouble.times,
    }
}

/// The mirror, with these marks. None where both plexes are marked.
pub fn mirror(
    alloc: Global,
    bits: u64,
    start: Start,
    first: Plex<RowPiece>,
    second: Plex<RowPiece>,
) -> Option<Cell<RowPiece>>
    requires maps { (first.map ≡ 0) × (second.map ≡ 1) }
    requires first { run_sectors (map_of row_seen first.pieces.items) ≡ 2 }
    requires second { run_sectors (map_of row_seen second.pieces.items) ≡ 2 }
    ensures { IfSome result (λ cell. (log : Notes) → IsReady cell log) }
{
    if are_marked(bits) {
        return None;
    }
    let Ok(plexes) = vec![in alloc; first, second] else {
        return None;
    };
    let stage = Stage {
        on: vx_mask::with(vx_mask::of(0), vx_mask::of(1)),
        off: 0,
        snaps: 0,
        bits,
        logged: true,
        phase: phase(start),
    };
    let span = Span {
        start: 0,
        count: SECTORS,
    };
    Some(Cell::new(stage, 0, span, plexes))
}

/// Whether both plexes are.
fn are_marked(bits: u64) -> bool
    ensures { result ≡ false → (has bits 0 ≡ false) ⊎ (has bits 1 ≡ false) }
{
    vx_mask::contains(bits, 0) && vx_mask::contains(bits, 1)
}

fn phase(start: Start) -> Phase
    ensures { IsIdle result }
{
    match start {
        Start::Settled => Phase::Settled,
        Start::Unsettled => Phase::Unsettled,
        Start::Dead => Phase::Dead,
    }
}
