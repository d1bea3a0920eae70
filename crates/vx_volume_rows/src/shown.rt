//! Answers and devices in words.

use std::io;
use vx_group_calls::Served;
use vx_group_start::StartFault;
use vx_life::Part;
use vx_piece::{MemPiece, Piece};

/// How a call ended: the parts as `REGION:NUMBER`, and the blocks of a read in runs.
pub fn show_served(rt: &HostRuntime, served: &Served) -> io::Result<()> {
    match served {
        Served::Done { parts, blocks } => {
            print!(rt; " done")?;
            show_parts(rt, parts.as_slice())?;
            show_runs(rt, blocks.as_slice())?;
        }
        Served::Fault { device, parts } => {
            print!(rt; " device {device} failed")?;
            show_parts(rt, parts.as_slice())?;
        }
        Served::Lost { parts } => {
            print!(rt; " no power")?;
            show_parts(rt, parts.as_slice())?;
        }
    }
    println!(rt)
}

fn show_parts(rt: &HostRuntime, parts: &[Part]) -> io::Result<()> {
    for part in parts {
        print!(rt; " {}:{}", part.region, part.number)?;
    }
    Ok(())
}

/// Why a volume was not opened.
pub fn show_fault(rt: &HostRuntime, fault: StartFault) -> io::Result<()> {
    match fault {
        StartFault::OutOfMemory => println!(rt; "  no memory"),
        StartFault::NoLog => println!(rt; "  no log"),
        StartFault::NoCurrent(region) => println!(rt; "  no current plex of region {region}"),
        StartFault::Failed(device) => println!(rt; "  device {device} failed"),
        StartFault::PowerLost => println!(rt; "  no power"),
    }
}

/// A whole device: its number, its first sector and how many it has, and what they hold in runs.
pub fn show_device(rt: &HostRuntime, piece: &MemPiece) -> io::Result<()> {
    let (device, start, sectors) = (piece.device(), piece.start(), piece.sectors());
    print!(rt; "  device {device}, {start}+{sectors}:")?;
    show_runs(rt, piece.bytes())?;
    println!(rt)
}

/// The runs of blocks that hold one byte throughout, and not zero, each as `FIRST+COUNT of BYTE`.
fn show_runs(rt: &HostRuntime, bytes: &[u8]) -> io::Result<()> {
    let mut first = 0;
    let mut last = None;
    for (index, block) in bytes.chunks(512).enumerate() {
        let byte = one_byte(block);
        if byte != last {
            show_run(rt, first, index, last)?;
            first = index;
            last = byte;
        }
    }
    show_run(rt, first, bytes.len() / 512, last)
}

fn show_run(rt: &HostRuntime, first: usize, end: usize, byte: Option<u8>) -> io::Result<()> {
    match byte {
        Some(byte) => print!(rt; " {first}+{} of {byte}", end.saturating_sub(first)),
        None => Ok(()),
    }
}

fn one_byte(block: &[u8]) -> Option<u8> {
    let first = *block.first()?;
    if first != 0 && block.iter().all(|byte| *byte == first) {
        Some(first)
    } else {
        None
    }
}
