//! Rows of a map that is set over two pages: the write of one page on one copy fails, and each row tells the answer, the regions
//! that the store lists then, what each copy holds of the pages, and how many sectors were written since the store was created. And how
//! many sectors are read as such a store is loaded.

use crate::clock::Clock;
use crate::copies::{Copies, Held, are_copies, build, page_of};
use crate::fault::{Fault, Kind};
use crate::marks::NO_MARKS;
use crate::piece::RowPiece;
use crate::rows::answer;
use std::alloc::{AllocError, Global};
use std::io;
use std::sync::Arc;
use vx_block::Geometry;
use vx_mapfmt::DcoShape;
use vx_maps::MapStore;
use vx_piece::Piece;
use vx_volume::WholeMaps;

/// The map that is set.
pub const MAP: u32 = 5;

/// A volume of 5,000 regions: each map has two pages, and its plex is as large as that of a small volume.
pub fn shape() -> Option<DcoShape> {
    let geometry = Geometry::new(320_000, 64)?;
    DcoShape::of(&geometry, 32)
}

/// A set has four writes: page 0 on each copy, and then page 1.
pub fn fault_at(step: u64) -> Option<Fault> {
    if step >= 4 {
        return None;
    }
    Some(Fault {
        at: step,
        kind: Kind::Fails,
        is_written: false,
    })
}

pub fn rows(rt: &HostRuntime) -> io::Result<()> {
    let Some(shape) = shape() else {
        return Ok(());
    };
    for step in 0..5 {
        println!(rt; "set over two pages, write {step} fails")?;
        row(rt, &shape, fault_at(step), false)?;
    }
    for step in 0..5 {
        println!(rt; "set over two pages, write {step} fails, then clear")?;
        row(rt, &shape, fault_at(step), true)?;
    }
    for second in [false, true] {
        println!(rt; "two pages loaded, copies: {}", 1 + u32::from(second))?;
        load_row(rt, &shape, second)?;
    }
    Ok(())
}

/// A store of which nothing is marked is loaded from one copy or two. Of the page of which all regions are the volume's the copy that is
/// read is not read again.
fn load_row(rt: &HostRuntime, shape: &DcoShape, second: bool) -> io::Result<()> {
    let alloc = rt.alloc();
    let clock = Arc::new(alloc, Clock::new(None, None))?;
    let held = Held {
        headed: true,
        maps: NO_MARKS,
    };
    let start = Copies {
        first: held,
        second: if second { Some(held) } else { None },
    };
    let copies = build(alloc, shape, &start, &clock)?;
    if shape.map_bytes != 8192 || !are_copies(&copies, 16) {
        return Ok(());
    }
    clock.set();
    let Ok(store) = MapStore::load(alloc, *shape, copies) else {
        return Ok(());
    };
    let reads = clock.calls().saturating_sub(clock.writes());
    println!(rt; "  {reads} reads, {} writes", clock.writes())?;
    let Ok(listed) = store.list(alloc, MAP) else {
        return Ok(());
    };
    show_list(rt, &listed)
}

fn row(rt: &HostRuntime, shape: &DcoShape, fault: Option<Fault>, cleared: bool) -> io::Result<()> {
    let alloc = rt.alloc();
    let clock = Arc::new(alloc, Clock::new(None, fault))?;
    let Some(mut store) = create(alloc, shape, &clock)? else {
        return Ok(());
    };
    clock.set();
    answer(rt, "set", store.set_from(MAP, &marks(alloc)?))?;
    if cleared {
        answer(rt, "clear", store.clear(MAP))?;
    }
    let Ok(listed) = store.list(alloc, MAP) else {
        return Ok(());
    };
    show_list(rt, &listed)?;
    let Ok(copies) = store.into_copies(alloc) else {
        return Ok(());
    };
    show(rt, &copies)?;
    println!(rt; "  {} writes", clock.writes())
}

/// A store of two copies of which nothing is marked.
pub fn create(
    alloc: Global,
    shape: &DcoShape,
    clock: &Arc<Clock, Global>,
) -> Result<Option<MapStore<RowPiece>>, AllocError> {
    let none = Held {
        headed: false,
        maps: NO_MARKS,
    };
    let start = Copies {
        first: none,
        second: Some(none),
    };
    let copies = build(alloc, shape, &start, clock)?;
    if shape.map_bytes != 8192 || !are_copies(&copies, 16) {
        return Ok(None);
    }
    match MapStore::create(alloc, *shape, copies) {
        Ok(store) => Ok(Some(store)),
        Err(_refused) => Ok(None),
    }
}

/// Regions 7 and 4,103: the highest bit of the first byte of each page.
pub fn marks(alloc: Global) -> Result<Vec<u8>, AllocError> {
    let mut bytes = vec![in alloc; 0u8; 625]?;
    bytes[0] = 0x80;
    bytes[512] = 0x80;
    Ok(bytes)
}

pub fn show_list(rt: &HostRuntime, listed: &Vec<u8>) -> io::Result<()> {
    let count = listed.len();
    print!(rt; "  {count} bytes list")?;
    for place in 0..listed.len() {
        let byte = listed[place];
        if byte != 0 {
            print!(rt; " {byte:#x} at {place}")?;
        }
    }
    println!(rt; "")
}

fn show(rt: &HostRuntime, copies: &Vec<Vec<RowPiece>>) -> io::Result<()> {
    let mut number: u64 = 0;
    for pieces in copies {
        show_copy(rt, number, pieces)?;
        number = number.saturating_add(1);
    }
    Ok(())
}

/// What a copy holds of the pages of the map.
pub fn show_copy(rt: &HostRuntime, number: u64, pieces: &Vec<RowPiece>) -> io::Result<()> {
    let mut at: u64 = 0;
    print!(rt; "  copy {number} holds")?;
    for piece in pieces {
        show_piece(rt, piece, at)?;
        at = at.saturating_add(piece.sectors());
    }
    println!(rt; "")
}

/// The first bytes of the pages of the map that lie in a piece, which begins at this sector of its copy.
fn show_piece(rt: &HostRuntime, piece: &RowPiece, at: u64) -> io::Result<()> {
    for page in 0..2u64 {
        let sector = page_of(5) + page;
        if sector < at {
            continue;
        }
        let place = (sector - at).saturating_mul(512);
        if let Some(byte) = piece.bytes().get(place as usize) {
            print!(rt; " {byte:#x}")?;
        }
    }
    Ok(())
}
