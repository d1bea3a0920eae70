//! Rows of calls of a shelf over a folder of files, each with its answer. The folder `images` has the devices `i0`, of two
//! sectors, and `odd`, of one sector and a rest; `short` has no whole sector, `folder` is no file, and `-dash` has no
//! name of a device. In the folder `links` the names `a`, `b` and `c` lead to one file, and `lost`, `loop` and `below`
//! nowhere. The stored output was worked out by hand. The folders are made first, and removed at the end.
#![tactic(auto)]

ghost use Rattle.std.specs.Prelude.{◌<◌};
ghost use Rattle.vx_piece.specs.Seen.{Keeps};

use std::alloc::AllocError;
use std::os::unix::fs::symlink;
use std::{fs, io, str};
use vx_files::FileShelf;
use vx_names::Name;
use vx_piece::Piece;
use vx_shelf::{Shelf, ShelfFault};

fn main(rt: HostRuntime) -> io::Result<()> {
    // What a run that was cut off has left.
    let _ = fs::remove_dir_all(&rt, "images");
    let _ = fs::remove_dir_all(&rt, "links");
    fill(&rt)?;
    rows(&rt)?;
    counts(&rt)?;
    link(&rt)?;
    links(&rt)?;
    missing(&rt, "absent")?;
    missing(&rt, "")?;
    fs::remove_dir_all(&rt, "images")?;
    fs::remove_dir_all(&rt, "links")
}

/// The folder that the first rows speak of.
fn fill(rt: &HostRuntime) -> io::Result<()> {
    fs::create_dir(rt, "images")?;
    fs::create_dir(rt, "images/folder")?;
    fs::write(rt, "images/i0", [0u8; 1024])?;
    fs::write(rt, "images/odd", [0u8; 1000])?;
    fs::write(rt, "images/short", [0u8; 511])?;
    fs::write(rt, "images/-dash", [0u8; 512])
}

fn shelf_over(rt: &HostRuntime, folder: &str) -> io::Result<FileShelf<HostRuntime>> {
    match FileShelf::new(rt.clone()?, folder) {
        Ok(shelf) => Ok(shelf),
        Err(_) => Err(AllocError.into()),
    }
}

fn rows(rt: &HostRuntime) -> io::Result<()> {
    let mut shelf = shelf_over(rt, "images")?;
    names(rt, &mut shelf)?;
    make(rt, &mut shelf, "made")?;
    make(rt, &mut shelf, "made")?;
    make(rt, &mut shelf, "short")?;
    make(rt, &mut shelf, "folder")?;
    take(rt, &mut shelf, "made")?;
    take(rt, &mut shelf, "made")?;
    take(rt, &mut shelf, "odd")?;
    take(rt, &mut shelf, "short")?;
    take(rt, &mut shelf, "folder")?;
    take(rt, &mut shelf, "absent")?;
    names(rt, &mut shelf)
}

/// A device that is gone and comes again: its calls fail in between, and its count goes on.
fn counts(rt: &HostRuntime) -> io::Result<()> {
    let mut shelf = shelf_over(rt, "images")?;
    let Ok(name) = Name::read(b"i0") else {
        return println!(rt; "no name");
    };
    fs::rename(rt, "images/i0", "images/away")?;
    take(rt, &mut shelf, "i0")?;
    fs::rename(rt, "images/away", "images/i0")?;
    for _ in 0..2 {
        let Ok(mut piece) = shelf.take(&name) else {
            return println!(rt; "not taken");
        };
        call(rt, &mut piece)?;
        println!(rt; ", faults {}", piece.faults())?;
        fs::rename(rt, "images/i0", "images/away")?;
        fs::create_dir(rt, "images/i0")?;
        call(rt, &mut piece)?;
        println!(rt; ", faults {}", piece.faults())?;
        fs::remove_dir(rt, "images/i0")?;
        fs::rename(rt, "images/away", "images/i0")?;
        shelf.give(&name, piece);
    }
    Ok(())
}

/// A write and a read of the first sector.
fn call<P: Piece>(rt: &HostRuntime, piece: &mut P) -> io::Result<()>
    requires { 0 < (P.seen piece.old).sectors }
    ensures { Keeps (P.seen piece.old) (P.seen piece.new) }
{
    let mut sector = [0; 512];
    let wrote = piece.write(0, &sector).is_ok();
    let read = piece.read(0, &mut sector).is_ok();
    print!(rt; "wrote {wrote}, read {read}")
}

/// The folder of links.
fn link(rt: &HostRuntime) -> io::Result<()> {
    fs::create_dir(rt, "links")?;
    fs::write(rt, "links/b", [0u8; 1024])?;
    symlink(rt, "b", "links/a")?;
    fs::hard_link(rt, "links/b", "links/c")?;
    symlink(rt, "absent", "links/lost")?;
    symlink(rt, "loop", "links/loop")?;
    symlink(rt, "b/below", "links/below")
}

/// Of the names of one file the first is the device, whether the names were asked for or not.
fn links(rt: &HostRuntime) -> io::Result<()> {
    let mut shelf = shelf_over(rt, "links")?;
    take(rt, &mut shelf, "c")?;
    names(rt, &mut shelf)?;
    take(rt, &mut shelf, "b")?;
    take(rt, &mut shelf, "a")?;
    take(rt, &mut shelf, "lost")?;
    take(rt, &mut shelf, "loop")?;
    take(rt, &mut shelf, "below")?;
    make(rt, &mut shelf, "b")?;
    make(rt, &mut shelf, "lost")
}

/// A folder that is not there, as the one of the empty path.
fn missing(rt: &HostRuntime, folder: &str) -> io::Result<()> {
    let mut shelf = shelf_over(rt, folder)?;
    names(rt, &mut shelf)?;
    make(rt, &mut shelf, "made")?;
    take(rt, &mut shelf, "made")
}

fn names(rt: &HostRuntime, shelf: &mut FileShelf<HostRuntime>) -> io::Result<()> {
    print!(rt; "names")?;
    match shelf.names(rt.alloc()) {
        Ok(names) => {
            for name in &names {
                print!(rt; " {}", text(name))?;
            }
            println!(rt; "")
        }
        Err(fault) => println!(rt; " {}", word(fault)),
    }
}

fn make(rt: &HostRuntime, shelf: &mut FileShelf<HostRuntime>, device: &str) -> io::Result<()> {
    let Ok(name) = Name::read(device.as_bytes()) else {
        return println!(rt; "make {device}: no name");
    };
    match shelf.make(rt.alloc(), &name, 4) {
        Ok(()) => println!(rt; "make {device}: ok"),
        Err(fault) => println!(rt; "make {device}: {}", word(fault)),
    }
}

fn take(rt: &HostRuntime, shelf: &mut FileShelf<HostRuntime>, device: &str) -> io::Result<()> {
    let Ok(name) = Name::read(device.as_bytes()) else {
        return println!(rt; "take {device}: no name");
    };
    match shelf.take(&name) {
        Ok(piece) => println!(rt; "take {device}: {} sectors", piece.sectors()),
        Err(fault) => println!(rt; "take {device}: {}", word(fault)),
    }
}

fn text(name: &Name) -> &str {
    str::from_utf8(name.as_bytes()).unwrap_or("no text")
}

fn word(fault: ShelfFault) -> &'static str {
    match fault {
        ShelfFault::OutOfMemory => "out of memory",
        ShelfFault::NoDisk => "no disk",
        ShelfFault::Held => "held",
        ShelfFault::Failed => "failed",
        ShelfFault::Exists => "exists",
    }
}
