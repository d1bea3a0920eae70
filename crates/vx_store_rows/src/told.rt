//! Rows over devices that tell what they hold, and have bad sectors: pieces in memory as they are, without a clock.

use crate::call::{Call, Life, perform};
use crate::disk::{SECTORS as LOG_SECTORS, create};
use crate::rows::{CLEAN, TWO, WRITE, show_left};
use crate::setup::{before, bytes_of, held_by, log_device, plex_device, stage_of};
use crate::shown::Shown;
use crate::trace::Left;
use std::alloc::Global;
use std::io;
use vx_cell::{CellFault, Plex};
use vx_piece::{Bad, MemPiece};

/// Sectors of a device whose writes fail: one time, after so many that pass.
#[derive(Clone, Copy)]
struct BadWrite {
    device: u32,
    sector: u64,
    passes: u64,
}

fn device(alloc: Global, number: u32, bytes: Vec<u8>, bad: BadWrite) -> Option<MemPiece> {
    let mut bads = Vec::new(alloc);
    if bad.device == number {
        bads.push(Bad {
            start: bad.sector,
            count: 1,
            on_read: false,
            on_write: true,
            skip: bad.passes,
            times: 1,
        })
        .ok()?;
    }
    MemPiece::new(number, bytes, bads)
}

/// A region of two plexes with a log of two copies, of which one device has a bad sector.
fn begin(alloc: Global, bad: BadWrite) -> Option<Life<MemPiece>> {
    let mut plexes = Vec::new(alloc);
    for held in &before(alloc, &TWO, &CLEAN)? {
        let bytes = bytes_of(alloc, held)?;
        let piece = device(alloc, plex_device(held.map), bytes, bad)?;
        let pieces = vec![in alloc; piece].ok()?;
        plexes
            .push(Plex {
                map: held.map,
                pieces,
            })
            .ok()?;
    }
    let mut copies = Vec::new(alloc);
    for copy in 0..2_u8 {
        let bytes = vec![in alloc; 0u8; 512 * LOG_SECTORS].ok()?;
        let piece = device(alloc, log_device(TWO.disks, copy), bytes, bad)?;
        copies.push(vec![in alloc; piece].ok()?).ok()?;
    }
    Some(Life {
        stage: stage_of(&TWO, &CLEAN),
        number: 0,
        plexes,
        store: create(alloc, copies, 0)?,
    })
}

/// What is left of the region; the device calls are not noted.
fn end(alloc: Global, life: Life<MemPiece>) -> Option<Left> {
    let mut plexes = Vec::new(alloc);
    for plex in &life.plexes {
        let piece = plex.pieces.first()?;
        plexes.push(held_by(alloc, plex.map, piece.bytes())?).ok()?;
    }
    let Life {
        stage,
        number: _,
        plexes: _,
        store,
    } = life;
    let Ok(pieces) = store.into_copies(alloc) else {
        return None;
    };
    let mut copies = Vec::new(alloc);
    for copy in &pieces {
        let mut bytes = Vec::new(alloc);
        for piece in copy {
            bytes.extend_from_slice(piece.bytes()).ok()?;
        }
        copies.push(bytes).ok()?;
    }
    Some(Left {
        stage,
        calls: Vec::new(alloc),
        plexes,
        copies,
    })
}

fn play(alloc: Global, bad: BadWrite, call: Call) -> Option<(Result<u64, CellFault>, Left)> {
    let life = begin(alloc, bad)?;
    let (life, answer) = perform(alloc, life, call)?;
    Some((answer.result, end(alloc, life)?))
}

fn show(rt: &HostRuntime, title: &str, bad: BadWrite) -> io::Result<()> {
    println!(rt; "{title}")?;
    match play(rt.alloc(), bad, WRITE) {
        None => println!(rt; "  no region"),
        Some((result, left)) => {
            println!(rt; "  {}", Shown::Answer(result))?;
            show_left(rt, &left)
        }
    }
}

/// All of them.
pub fn rows(rt: &HostRuntime) -> io::Result<()> {
    show(
        rt,
        "devices that tell: a write that a bad sector of plex 1 fails in its midst",
        BadWrite {
            device: 2,
            sector: 10,
            passes: 0,
        },
    )?;
    show(
        rt,
        "devices that tell: a write whose mark a bad sector of copy 1 fails",
        BadWrite {
            device: 12,
            sector: 529,
            passes: 1,
        },
    )?;
    show(
        rt,
        "devices that tell: a write whose mark a bad sector of copy 0 does not take away",
        BadWrite {
            device: 11,
            sector: 529,
            passes: 2,
        },
    )
}
