//! Each device call of each call on a region fails in turn, and is cut in turn. Afterwards the region is settled, as it is
//! after a start, from what the disks and the log hold.

use crate::build::{Start, Trouble, bytes, mirror, plex_of};
use crate::call::{Call, perform};
use crate::notes::{Fate, Notes};
use crate::piece::RowPiece;
use std::alloc::Global;
use std::io;
use vx_cell::Plex;

/// Which device call goes wrong: that of this number on plex 0, on plex 1, or on the log.
#[derive(Clone, Copy)]
enum Device {
    First,
    Second,
    Log,
}

/// What came of it.
#[derive(Clone, Copy, PartialEq, Eq)]
enum Found {
    /// The region has no such call.
    NoCall,
    /// Once it was settled, its unmarked plexes agree, and hold the write if it was acknowledged.
    Agrees,
    Differs,
}

const GOOD: Trouble = Trouble {
    reads: false,
    writes: false,
    skip: 0,
    times: 0,
    cut: None,
};

pub fn show(rt: &HostRuntime) -> io::Result<()> {
    for cut in [false, true] {
        sweep(rt, "a read", Call::Read, cut, 0, Start::Settled)?;
        sweep(rt, "a write", Call::Write, cut, 0, Start::Settled)?;
        sweep(
            rt,
            "a settling",
            Call::Settle,
            cut,
            dirty(),
            Start::Unsettled,
        )?;
        sweep(
            rt,
            "a write that settles",
            Call::Write,
            cut,
            dirty(),
            Start::Unsettled,
        )?;
        sweep(
            rt,
            "a copy",
            Call::Copy(1),
            cut,
            vx_mask::of(1),
            Start::Settled,
        )?;
        sweep(rt, "a clear", Call::Clear, cut, dirty(), Start::Settled)?;
    }
    Ok(())
}

fn dirty() -> u64 {
    vx_mask::of(vx_mask::DIRTY)
}

/// How many calls there are on each device, and whether all came out well.
fn sweep(
    rt: &HostRuntime,
    title: &str,
    call: Call,
    cut: bool,
    bits: u64,
    start: Start,
) -> io::Result<()> {
    print!(rt;
        "each device call of {title} {}:",
        if cut { "cut" } else { "failing" }
    )?;
    let mut good = true;
    for device in [Device::First, Device::Second, Device::Log] {
        let mut calls = 0_u64;
        for number in 0..8_u64 {
            match tried(rt.alloc(), call, cut, bits, start, device, number) {
                Some(Found::Agrees) => calls = number + 1,
                Some(Found::NoCall) => {}
                _ => good = false,
            }
        }
        print!(rt; " {calls}")?;
    }
    println!(rt;
        ", {}",
        if good {
            "settled they agree"
        } else {
            "they differ"
        }
    )
}

fn trouble(cut: bool, number: u64) -> Trouble {
    if cut {
        Trouble {
            cut: Some(number),
            ..GOOD
        }
    } else {
        Trouble {
            reads: true,
            writes: true,
            skip: number,
            times: 1,
            cut: None,
        }
    }
}

fn fates(cut: bool, number: u64) -> [Fate; 2] {
    let fate = if cut { Fate::Cuts } else { Fate::Fails };
    match number {
        0 => [fate, Fate::Good],
        1 => [Fate::Good, fate],
        _ => [Fate::Good, Fate::Good],
    }
}

/// The call with that device call going wrong, and what the region is once it was settled.
fn tried(
    alloc: Global,
    call: Call,
    cut: bool,
    bits: u64,
    start: Start,
    device: Device,
    number: u64,
) -> Option<Found> {
    let wrong = trouble(cut, number);
    let (first, second, log_fates) = match device {
        Device::First => (wrong, GOOD, fates(cut, 9)),
        Device::Second => (GOOD, wrong, fates(cut, 9)),
        Device::Log => (GOOD, GOOD, fates(cut, number)),
    };
    let mut log = Notes {
        bits,
        fates: log_fates,
        marks: 0,
        unmarks: 0,
        faults: 0,
        cut: false,
    };
    let first = plex_of(alloc, 0, 1, bytes(alloc, 1, 1024)?, first)?;
    let second = plex_of(
        alloc,
        1,
        2,
        bytes(alloc, byte_of(bits, start), 1024)?,
        second,
    )?;
    let mut cell = mirror(alloc, bits, start, first, second)?;
    let mut buffer = bytes(alloc, 7, 512)?;
    let mut scratch = bytes(alloc, 0, 1024)?;
    let written = perform(&mut cell, call, &mut buffer, &mut scratch, &mut log).is_ok()
        && call == Call::Write;
    let (_, _, _, plexes) = cell.into_parts();
    if !went_wrong(&plexes, &log) {
        return Some(Found::NoCall);
    }
    settled(alloc, log.bits, plexes, written)
}

/// What plex 1 holds before the call: what plex 0 does, where the region is settled and it is unmarked.
fn byte_of(bits: u64, start: Start) -> u8 {
    if start == Start::Unsettled || vx_mask::contains(bits, 1) {
        2
    } else {
        1
    }
}

fn went_wrong(plexes: &Vec<Plex<RowPiece>>, log: &Notes) -> bool {
    let mut wrong = log.cut || log.faults > 0;
    for plex in plexes {
        for piece in &plex.pieces {
            wrong = wrong || piece.is_cut() || piece.counts().faults > 0;
        }
    }
    wrong
}

/// The region as it is started again from these marks and plexes, once it was settled.
fn settled(alloc: Global, bits: u64, plexes: Vec<Plex<RowPiece>>, written: bool) -> Option<Found> {
    let start = if vx_mask::contains(bits, vx_mask::DIRTY) {
        Start::Unsettled
    } else {
        Start::Settled
    };
    let first = plex_of(alloc, 0, 1, held(alloc, plexes.first()?)?, GOOD)?;
    let second = plex_of(alloc, 1, 2, held(alloc, plexes.get(1)?)?, GOOD)?;
    let mut cell = mirror(alloc, bits, start, first, second)?;
    let mut log = Notes {
        bits,
        fates: [Fate::Good, Fate::Good],
        marks: 0,
        unmarks: 0,
        faults: 0,
        cut: false,
    };
    let mut buffer = bytes(alloc, 0, 512)?;
    let mut scratch = bytes(alloc, 0, 1024)?;
    if perform(&mut cell, Call::Settle, &mut buffer, &mut scratch, &mut log).is_err() {
        return Some(Found::Differs);
    }
    let (stage, _, _, plexes) = cell.into_parts();
    agrees(alloc, stage.bits, &plexes, written)
}

/// What the plex holds.
fn held(alloc: Global, plex: &Plex<RowPiece>) -> Option<Vec<u8>> {
    Vec::from_slice(alloc, plex.pieces.first()?.bytes()).ok()
}

fn agrees(alloc: Global, bits: u64, plexes: &Vec<Plex<RowPiece>>, written: bool) -> Option<Found> {
    let first = held(alloc, plexes.first()?)?;
    let second = held(alloc, plexes.get(1)?)?;
    let both = !vx_mask::contains(bits, 0) && !vx_mask::contains(bits, 1);
    let current = if vx_mask::contains(bits, 0) {
        second.first()?
    } else {
        first.first()?
    };
    if both && first.as_slice() != second.as_slice() || written && *current != 7 {
        return Some(Found::Differs);
    }
    Some(Found::Agrees)
}
