//! Rows of calls of a device in memory.
ghost use Rattle.vx_piece.specs.Seen.{Keeps};

use std::alloc::{AllocError, Global};
use std::io;
use vx_piece::{Bad, MemPiece, Piece, PieceFault};

pub fn rows(rt: &HostRuntime) -> io::Result<()> {
    fails_once(rt)?;
    cut_in_two_and_joined(rt)?;
    armed(rt)
}

/// A device of zeros whose calls of both kinds fail once at these sectors.
fn device(alloc: Global, sectors: u8, start: u64, count: u64) -> Result<MemPiece, AllocError> {
    let bad = Bad {
        start,
        count,
        on_read: true,
        on_write: true,
        skip: 0,
        times: 1,
    };
    let bytes = vec![in alloc; 0u8; 512 * usize::from(sectors)]?;
    let bads = vec![in alloc; bad]?;
    match MemPiece::new(7, bytes, bads) {
        Some(piece) => Ok(piece),
        None => Err(AllocError),
    }
}

/// A write fails at the sector that is bad, after the one before it, and then passes.
fn fails_once(rt: &HostRuntime) -> io::Result<()> {
    let mut piece = device(rt.alloc(), 4, 2, 1)?;
    println!(rt;
        "a device of {} sectors, of which sector 2 fails once",
        piece.sectors()
    )?;
    write(rt, &mut piece, 1, &[0x41; 1024])?;
    read(rt, &mut piece, 1)?;
    read(rt, &mut piece, 2)?;
    write(rt, &mut piece, 1, &[0x42; 1024])?;
    read(rt, &mut piece, 2)?;
    counts(rt, &piece)?;
    println!(rt;
        "no device: {}",
        MemPiece::new(7, Vec::new(rt.alloc()), Vec::new(rt.alloc())).is_none()
    )
}

/// Each part of a device has the part of a Bad that lies in it, and the joined device has both counts.
fn cut_in_two_and_joined(rt: &HostRuntime) -> io::Result<()> {
    let piece = device(rt.alloc(), 3, 0, 3)?;
    if piece.sectors() < 2 {
        return println!(rt; "no device of 3 sectors");
    }
    let Ok((mut front, mut back)) = piece.split(rt.alloc(), 1) else {
        return println!(rt; "no memory");
    };
    println!(rt;
        "cut into {} and {} sectors, the second from {}",
        front.sectors(),
        back.sectors(),
        back.start()
    )?;
    write(rt, &mut front, 0, &[0x41; 512])?;
    write(rt, &mut back, 1, &[0x42; 512])?;
    write(rt, &mut back, 1, &[0x43; 512])?;
    read(rt, &mut front, 0)?;
    let Ok(mut piece) = front.join(rt.alloc(), back) else {
        return println!(rt; "no memory");
    };
    println!(rt;
        "joined, {} sectors of device {}",
        piece.sectors(),
        piece.device()
    )?;
    read(rt, &mut piece, 0)?;
    read(rt, &mut piece, 2)?;
    counts(rt, &piece)
}

/// A stop acts on no device by itself.
fn armed(rt: &HostRuntime) -> io::Result<()> {
    let mut piece = device(rt.alloc(), 1, 5, 1)?;
    piece.arm(Some(0));
    write(rt, &mut piece, 0, &[0x41; 512])
}

fn write<P: Piece>(rt: &HostRuntime, piece: &mut P, at: u64, from: &[u8]) -> io::Result<()>
    ensures { Keeps (P.seen piece.old) (P.seen piece.new) }
{
    let sectors = from.len() / 512;
    let behind = piece.sectors().saturating_sub(at);
    if from.len() % 512 != 0 || sectors == 0 || behind < sectors as u64 {
        return println!(rt; "write {at}: not inside");
    }
    match piece.write(at, from) {
        Ok(()) => println!(rt; "write {at} {sectors}: ok"),
        Err(fault) => println!(rt; "write {at} {sectors}: {}", word(fault)),
    }
}

/// Reads one sector.
fn read<P: Piece>(rt: &HostRuntime, piece: &mut P, at: u64) -> io::Result<()>
    ensures { Keeps (P.seen piece.old) (P.seen piece.new) }
{
    let mut into = [0xff; 512];
    if piece.sectors() <= at {
        return println!(rt; "read {at}: not inside");
    }
    match piece.read(at, &mut into) {
        Ok(()) => println!(rt; "read {at}: {:02x} to {:02x}", into[0], into[511]),
        Err(fault) => println!(rt; "read {at}: {}", word(fault)),
    }
}

fn counts(rt: &HostRuntime, piece: &MemPiece) -> io::Result<()> {
    let counts = piece.counts();
    println!(rt;
        "faults {}, writes {}, reads {}",
        counts.faults, counts.writes, counts.reads
    )
}

fn word(fault: PieceFault) -> &'static str {
    match fault {
        PieceFault::Failed => "failed",
        PieceFault::PowerLost => "power lost",
    }
}
