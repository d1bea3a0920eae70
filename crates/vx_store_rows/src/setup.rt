//! The devices of a trial: plexes in memory, and the copies of a log.

use crate::call::Life;
use crate::clock::Clock;
use crate::disk::{SECTORS as LOG_SECTORS, create};
use crate::fault::Fault;
use crate::piece::RowPiece;
use crate::region::SECTORS;
use crate::watch::Watch;
use std::alloc::Global;
use std::sync::Arc;
use vx_cell::Plex;
use vx_core::{Phase, Stage};
use vx_piece::MemPiece;

/// How the plexes of a region stand before a call: the maps of those that are off and of relations, the marks, and whether it
/// is to be settled.
#[derive(Clone, Copy)]
pub struct Start {
    pub off: u64,
    pub snaps: u64,
    pub bits: u64,
    pub is_settled: bool,
}

/// The devices that the copies of the log lie on.
#[derive(Clone, Copy)]
pub enum Disks {
    /// Devices of their own.
    Apart,
    /// The devices of the first plexes.
    Shared,
}

/// How many plexes and copies there are, and where.
#[derive(Clone, Copy)]
pub struct Form {
    pub plexes: u8,
    pub copies: u8,
    pub disks: Disks,
}

/// What a plex holds, each block by its byte.
#[derive(Drop)]
pub struct Held {
    pub map: u8,
    pub blocks: Vec<u8>,
}

/// The device of a plex.
pub fn plex_device(map: u8) -> u32 {
    map as u32 + 1
}

/// The device of a copy of the log.
pub fn log_device(disks: Disks, copy: u8) -> u32 {
    match disks {
        Disks::Apart => copy as u32 + 11,
        Disks::Shared => plex_device(copy),
    }
}

/// The byte that a block of a plex holds before the call, by its place in the region. A marked plex has old blocks, and those
/// of an unsettled region differ in some blocks.
fn first_byte(start: &Start, map: u8, place: u8) -> u8 {
    if vx_mask::contains(start.bits, map as u32) {
        return place.wrapping_add(100);
    }
    if !start.is_settled && map > 0 && place >= 9 - map.min(9) && place < 12 {
        return place.wrapping_add(140).wrapping_add(map);
    }
    place.wrapping_add(10)
}

/// What the plexes hold before the call.
pub fn before(alloc: Global, form: &Form, start: &Start) -> Option<Vec<Held>> {
    let mut plexes = Vec::new(alloc);
    for map in 0..form.plexes {
        let mut blocks = Vec::new(alloc);
        for place in 0..32_u8 {
            blocks.push(first_byte(start, map, place)).ok()?;
        }
        plexes.push(Held { map, blocks }).ok()?;
    }
    Some(plexes)
}

/// A device with these bytes.
fn device(
    alloc: Global,
    number: u32,
    bytes: Vec<u8>,
    clock: &Arc<Clock, Global>,
    faults: [Option<Fault>; 2],
) -> Option<RowPiece> {
    let memory = MemPiece::new(number, bytes, Vec::new(alloc))?;
    let clock = Arc::try_clone(clock).ok()?;
    Some(RowPiece::new(memory, Watch::new(alloc, clock, faults)))
}

/// The bytes of a plex.
pub fn bytes_of(alloc: Global, held: &Held) -> Option<Vec<u8>> {
    let mut bytes = Vec::new(alloc);
    for byte in &held.blocks {
        bytes.extend_from_slice(&[*byte; 512]).ok()?;
    }
    Some(bytes)
}

/// The plexes with what they hold.
pub fn plexes_of(
    alloc: Global,
    held: &Vec<Held>,
    clock: &Arc<Clock, Global>,
    faults: [Option<Fault>; 2],
) -> Option<Vec<Plex<RowPiece>>> {
    let mut plexes = Vec::new(alloc);
    for plex in held {
        let bytes = bytes_of(alloc, plex)?;
        let piece = device(alloc, plex_device(plex.map), bytes, clock, faults)?;
        let pieces = vec![in alloc; piece].ok()?;
        plexes
            .push(Plex {
                map: plex.map,
                pieces,
            })
            .ok()?;
    }
    Some(plexes)
}

/// A copy of the log on its device.
pub fn copy_of(
    alloc: Global,
    number: u32,
    bytes: Vec<u8>,
    clock: &Arc<Clock, Global>,
    faults: [Option<Fault>; 2],
) -> Option<Vec<RowPiece>> {
    vec![in alloc; device(alloc, number, bytes, clock, faults)?].ok()
}

fn new_copies(
    alloc: Global,
    form: &Form,
    clock: &Arc<Clock, Global>,
    faults: [Option<Fault>; 2],
) -> Option<Vec<Vec<RowPiece>>> {
    let mut copies = Vec::new(alloc);
    for copy in 0..form.copies {
        let bytes = vec![in alloc; 0u8; 512 * LOG_SECTORS].ok()?;
        let number = log_device(form.disks, copy);
        copies
            .push(copy_of(alloc, number, bytes, clock, faults)?)
            .ok()?;
    }
    Some(copies)
}

/// The maps of so many plexes.
fn maps_below(plexes: u8) -> u64 {
    let mut maps = 0;
    for map in 0..plexes {
        maps = vx_mask::with(maps, vx_mask::of(map as u32));
    }
    maps
}

pub fn stage_of(form: &Form, start: &Start) -> Stage {
    Stage {
        on: vx_mask::less(maps_below(form.plexes), start.off),
        off: start.off,
        snaps: start.snaps,
        bits: start.bits,
        logged: true,
        phase: phase_of(start.is_settled),
    }
}

pub fn phase_of(is_settled: bool) -> Phase {
    if is_settled {
        Phase::Settled
    } else {
        Phase::Unsettled
    }
}

/// The region over devices whose calls go wrong so, once the clock was set. Nothing goes wrong as its store is made.
pub fn begin(
    alloc: Global,
    form: &Form,
    start: &Start,
    clock: &Arc<Clock, Global>,
    faults: [Option<Fault>; 2],
) -> Option<Life<RowPiece>> {
    let held = before(alloc, form, start)?;
    let plexes = plexes_of(alloc, &held, clock, faults)?;
    let copies = new_copies(alloc, form, clock, faults)?;
    let store = create(alloc, copies, start.bits)?;
    clock.set();
    Some(Life {
        stage: stage_of(form, start),
        number: 0,
        plexes,
        store,
    })
}

/// What a plex holds of the region. None where a sector has several bytes.
pub fn held_by(alloc: Global, map: u8, bytes: &[u8]) -> Option<Held> {
    let mut blocks = Vec::new(alloc);
    for sector in bytes.chunks(512) {
        let first = *sector.first()?;
        if sector != [first; 512].as_slice() {
            return None;
        }
        blocks.push(first).ok()?;
    }
    if blocks.len() as u64 == SECTORS {
        Some(Held { map, blocks })
    } else {
        None
    }
}
