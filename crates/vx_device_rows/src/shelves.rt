//! Rows of calls of a shelf in memory.

use std::{io, str};
use vx_names::Name;
use vx_piece::{Bad, MemPiece, Piece};
use vx_shelf::{MemShelf, Shelf, ShelfFault};

/// A shelf has the device `i1`, whose first read fails; `i0` is made beside it.
pub fn rows(rt: &HostRuntime) -> io::Result<()> {
    let (Ok(i0), Ok(i1)) = (Name::read(b"i0"), Name::read(b"i1")) else {
        return println!(rt; "no names");
    };
    let bad = Bad {
        start: 0,
        count: 1,
        on_read: true,
        on_write: false,
        skip: 0,
        times: 1,
    };
    let bytes = vec![in rt.alloc(); 0u8; 512]?;
    let bads = vec![in rt.alloc(); bad]?;
    let Some(piece) = MemPiece::new(7, bytes, bads) else {
        return println!(rt; "no device");
    };
    let devices = vec![in rt.alloc(); (i1, piece)]?;
    if !MemShelf::accepts(&devices) {
        return println!(rt; "not accepted");
    }
    let mut shelf = MemShelf::new(devices);
    take(rt, &mut shelf, &i0)?;
    make(rt, &mut shelf, &i0)?;
    make(rt, &mut shelf, &i0)?;
    names(rt, &mut shelf)?;
    read(rt, &mut shelf, &i1)?;
    read(rt, &mut shelf, &i1)?;
    take(rt, &mut shelf, &i1)?;
    take(rt, &mut shelf, &i1)?;
    make(rt, &mut shelf, &i1)?;
    names(rt, &mut shelf)?;
    println!(rt; "i1 is held: {}", shelf.device(&i1).is_none())
}

/// Takes the device, reads its first sector, and gives it back.
fn read(rt: &HostRuntime, shelf: &mut MemShelf, name: &Name) -> io::Result<()> {
    let Ok(mut piece) = shelf.take(name) else {
        return println!(rt; "not taken");
    };
    let mut into = [0; 512];
    let read = piece.read(0, &mut into).is_ok();
    let faults = piece.counts().faults;
    shelf.give(name, piece);
    let back = shelf.device(name).is_some();
    println!(rt; "{}: read {read}, faults {faults}, back {back}", text(name))
}

fn names(rt: &HostRuntime, shelf: &mut MemShelf) -> io::Result<()> {
    print!(rt; "names")?;
    match shelf.names(rt.alloc()) {
        Ok(names) => {
            for name in &names {
                print!(rt; " {}", text(name))?;
            }
            println!(rt; "")
        }
        Err(fault) => println!(rt; " {}", word(fault)),
    }
}

/// Makes a device of two sectors.
fn make(rt: &HostRuntime, shelf: &mut MemShelf, name: &Name) -> io::Result<()> {
    match shelf.make(rt.alloc(), name, 2) {
        Ok(()) => println!(rt; "make {}: ok", text(name)),
        Err(fault) => println!(rt; "make {}: {}", text(name), word(fault)),
    }
}

/// Takes the device, which is not given back.
fn take(rt: &HostRuntime, shelf: &mut MemShelf, name: &Name) -> io::Result<()> {
    match shelf.take(name) {
        Ok(piece) => println!(rt; "take {}: {} sectors", text(name), piece.sectors()),
        Err(fault) => println!(rt; "take {}: {}", text(name), word(fault)),
    }
}

fn text(name: &Name) -> &str {
    str::from_utf8(name.as_bytes()).unwrap_or("no text")
}

fn word(fault: ShelfFault) -> &'static str {
    match fault {
        ShelfFault::OutOfMemory => "out of memory",
        ShelfFault::NoDisk => "no disk",
        ShelfFault::Held => "held",
        ShelfFault::Failed => "failed",
        ShelfFault::Exists => "exists",
    }
}
