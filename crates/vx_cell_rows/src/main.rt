//! Rows of calls on a region: a mirror of two plexes in memory, some of whose calls fail, with a log of one copy. Each line
//! has what it shows, the answer, the phase and the marks that are left, the calls on the log, and of each plex the first
//! byte of each of its sectors and the sectors that were read and written and the calls that failed. Plex 0 holds ones and
//! plex 1 twos; the bytes that are written are sevens, and those of a read are shown. The stored output was worked out by
//! hand from the rules.
#![tactic(auto)]

use build::{Start, Trouble, bytes, mirror, plex};
use call::{Call, perform};
use notes::{Fate, Notes};
use piece::RowPiece;
use shown::{Shown, phase_name};
use std::alloc::Global;
use std::io;
use vx_cell::{CellFault, Plex};
use vx_core::Stage;

mod build;
mod call;
mod notes;
mod piece;
mod shown;
mod sweep;

/// A region, what fails of it, and the call.
#[derive(Clone, Copy)]
struct Case {
    bits: u64,
    start: Start,
    first: Trouble,
    second: Trouble,
    fates: [Fate; 2],
    call: Call,
}

const GOOD: Trouble = Trouble {
    reads: false,
    writes: false,
    skip: 0,
    times: 9,
    cut: None,
};

const NO_READS: Trouble = Trouble {
    reads: true,
    ..GOOD
};

const NO_WRITES: Trouble = Trouble {
    writes: true,
    ..GOOD
};

/// The power goes at the first call on the plex.
const CUT: Trouble = Trouble {
    cut: Some(0),
    ..GOOD
};

/// The call on a settled mirror without marks, of which nothing fails.
fn settled(call: Call) -> Case {
    Case {
        bits: 0,
        start: Start::Settled,
        first: GOOD,
        second: GOOD,
        fates: [Fate::Good, Fate::Good],
        call,
    }
}

/// The call on a mirror after a crash in a write: it is dirty, and its plexes may differ.
fn crashed(call: Call) -> Case {
    Case {
        bits: vx_mask::of(vx_mask::DIRTY),
        start: Start::Unsettled,
        ..settled(call)
    }
}

/// The call on a mirror whose plex 1 is marked.
fn marked(call: Call) -> Case {
    Case {
        bits: vx_mask::of(1),
        ..settled(call)
    }
}

/// What is seen after a call.
#[derive(Drop)]
struct Outcome {
    answer: Result<u64, CellFault>,
    /// The first byte of the buffer.
    byte: u8,
    stage: Stage,
    log: Notes,
    plexes: Vec<Plex<RowPiece>>,
}

fn make(alloc: Global, case: Case) -> Option<Outcome> {
    let mut buffer = bytes(alloc, 7, 512)?;
    let mut scratch = bytes(alloc, 0, 1024)?;
    let mut log = Notes {
        bits: case.bits,
        fates: case.fates,
        marks: 0,
        unmarks: 0,
        faults: 0,
        cut: false,
    };
    let first = plex(alloc, 0, 1, case.first)?;
    let second = plex(alloc, 1, 2, case.second)?;
    let mut cell = mirror(alloc, case.bits, case.start, first, second)?;
    let answer = perform(&mut cell, case.call, &mut buffer, &mut scratch, &mut log);
    let (stage, _, _, plexes) = cell.into_parts();
    Some(Outcome {
        answer,
        byte: *buffer.first()?,
        stage,
        log,
        plexes,
    })
}

fn row(rt: &HostRuntime, title: &str, case: Case) -> io::Result<()> {
    print!(rt; "{title}: ")?;
    let Some(outcome) = make(rt.alloc(), case) else {
        return println!(rt; "no region");
    };
    print!(rt; "{}", Shown::Answer(outcome.answer))?;
    if case.call == Call::Read && outcome.answer.is_ok() {
        print!(rt; " of {}", outcome.byte)?;
    }
    println!(rt;
        " | {} {}",
        phase_name(outcome.stage.phase),
        Shown::Maps(outcome.stage.bits)
    )?;
    show_log(rt, &outcome.log)?;
    for plex in &outcome.plexes {
        show_plex(rt, plex)?;
    }
    Ok(())
}

fn show_log(rt: &HostRuntime, log: &Notes) -> io::Result<()> {
    println!(rt;
        "  log {}, marks {} unmarks {} faults {}",
        Shown::Maps(log.bits),
        log.marks,
        log.unmarks,
        log.faults
    )
}

fn show_plex(rt: &HostRuntime, plex: &Plex<RowPiece>) -> io::Result<()> {
    for piece in &plex.pieces {
        let counts = piece.counts();
        print!(rt; "  plex {}", plex.map)?;
        for byte in piece.bytes().iter().step_by(512) {
            print!(rt; " {byte}")?;
        }
        println!(rt;
            ", reads {} writes {} faults {}{}",
            counts.reads,
            counts.writes,
            counts.faults,
            if piece.is_cut() { ", cut" } else { "" }
        )?;
    }
    Ok(())
}

fn reads(rt: &HostRuntime) -> io::Result<()> {
    let first = Case {
        first: NO_READS,
        ..settled(Call::Read)
    };
    let none = Case {
        second: NO_READS,
        ..first
    };
    row(rt, "a read", settled(Call::Read))?;
    row(rt, "a read that plex 0 fails", first)?;
    row(rt, "a read that each plex fails", none)?;
    row(rt, "a read beside a marked plex", marked(Call::Read))
}

fn settlings(rt: &HostRuntime) -> io::Result<()> {
    let unread = Case {
        first: NO_READS,
        second: NO_READS,
        ..crashed(Call::Settle)
    };
    let second = Case {
        first: NO_READS,
        ..crashed(Call::Settle)
    };
    let unwritten = Case {
        second: NO_WRITES,
        ..crashed(Call::Settle)
    };
    let unmarked = Case {
        fates: [Fate::Fails, Fate::Good],
        ..unwritten
    };
    row(rt, "a settling", crashed(Call::Settle))?;
    row(rt, "a settling from plex 1", second)?;
    row(rt, "a settling that can read no plex", unread)?;
    row(rt, "a settling that misses a plex", unwritten)?;
    row(rt, "a settling whose failure mark fails", unmarked)?;
    row(rt, "a settling of a settled region", settled(Call::Settle))?;
    row(rt, "a read that settles first", crashed(Call::Read))
}

fn writes(rt: &HostRuntime) -> io::Result<()> {
    let unmarked = Case {
        fates: [Fate::Fails, Fate::Good],
        ..settled(Call::Write)
    };
    let missed = Case {
        second: NO_WRITES,
        ..settled(Call::Write)
    };
    let missed_unmarked = Case {
        fates: [Fate::Good, Fate::Fails],
        ..missed
    };
    let none = Case {
        first: NO_WRITES,
        ..missed
    };
    let alone = Case {
        first: NO_WRITES,
        ..marked(Call::Write)
    };
    let kept = Case {
        fates: [Fate::Good, Fate::Fails],
        ..settled(Call::Write)
    };
    row(rt, "a write, and its clear", settled(Call::Write))?;
    row(rt, "a write whose first mark fails", unmarked)?;
    row(rt, "a write that misses a plex", missed)?;
    row(rt, "a write whose failure mark fails", missed_unmarked)?;
    row(rt, "a write that fails on both plexes", none)?;
    row(rt, "a write that fails on the one current plex", alone)?;
    row(rt, "a write whose clear fails", kept)?;
    row(rt, "a write that settles first", crashed(Call::Write))
}

fn copies(rt: &HostRuntime) -> io::Result<()> {
    let unread = Case {
        first: NO_READS,
        ..marked(Call::Copy(1))
    };
    let unwritten = Case {
        second: NO_WRITES,
        ..marked(Call::Copy(1))
    };
    let marked_still = Case {
        fates: [Fate::Fails, Fate::Good],
        ..marked(Call::Copy(1))
    };
    row(rt, "a copy", marked(Call::Copy(1)))?;
    row(
        rt,
        "a copy to a plex that is not marked",
        settled(Call::Copy(1)),
    )?;
    row(rt, "a copy to a plex that is not on", marked(Call::Copy(2)))?;
    row(rt, "a copy whose read fails", unread)?;
    row(rt, "a copy whose write fails", unwritten)?;
    row(rt, "a copy whose unmark fails", marked_still)
}

fn clears(rt: &HostRuntime) -> io::Result<()> {
    let dirty = Case {
        start: Start::Settled,
        ..crashed(Call::Clear)
    };
    let kept = Case {
        fates: [Fate::Fails, Fate::Good],
        ..dirty
    };
    row(rt, "a clear", dirty)?;
    row(
        rt,
        "a clear of a region that is not dirty",
        settled(Call::Clear),
    )?;
    row(rt, "a clear that fails", kept)?;
    row(rt, "a clear that settles first", crashed(Call::Clear))
}

fn cuts(rt: &HostRuntime) -> io::Result<()> {
    let first = Case {
        fates: [Fate::Cuts, Fate::Good],
        ..settled(Call::Write)
    };
    let second = Case {
        fates: [Fate::Good, Fate::Cuts],
        ..settled(Call::Write)
    };
    row(rt, "a write that is cut at its first mark", first)?;
    row(rt, "a write that is cut in its clear", second)
}

/// Where the power goes at a call on one device, the others hold what was written before it.
fn orders(rt: &HostRuntime) -> io::Result<()> {
    let write = settled(Call::Write);
    let settling = crashed(Call::Settle);
    let copy = marked(Call::Copy(1));
    let unmark = Case {
        fates: [Fate::Cuts, Fate::Good],
        ..copy
    };
    row(rt, "a write that is cut at plex 0", cut_first(write))?;
    row(rt, "a write that is cut at plex 1", cut_second(write))?;
    row(
        rt,
        "a settling that is cut at its read",
        cut_first(settling),
    )?;
    row(
        rt,
        "a settling that is cut at its write",
        cut_second(settling),
    )?;
    row(rt, "a copy that is cut at its read", cut_first(copy))?;
    row(rt, "a copy that is cut at its write", cut_second(copy))?;
    row(rt, "a copy that is cut at its unmark", unmark)?;
    row(rt, "a read that is cut", cut_first(settled(Call::Read)))
}

fn cut_first(case: Case) -> Case {
    Case { first: CUT, ..case }
}

fn cut_second(case: Case) -> Case {
    Case {
        second: CUT,
        ..case
    }
}

/// Without power each call is answered so, and makes no device call.
fn dead(rt: &HostRuntime) -> io::Result<()> {
    row(rt, "a cell that is killed", settled(Call::Kill))?;
    for call in [
        Call::Read,
        Call::Write,
        Call::Settle,
        Call::Copy(1),
        Call::Clear,
    ] {
        let case = Case {
            start: Start::Dead,
            ..marked(call)
        };
        row(rt, "a call on a dead cell", case)?;
    }
    Ok(())
}

/// A write of a region that is dirty needs no mark; and the last plex that is on and unmarked stays so.
fn marks(rt: &HostRuntime) -> io::Result<()> {
    let dirty = Case {
        start: Start::Settled,
        ..crashed(Call::WriteDirty)
    };
    row(rt, "a write of a dirty region", dirty)?;
    row(
        rt,
        "a write that leaves the region dirty",
        settled(Call::WriteDirty),
    )?;
    row(rt, "plex 0 is set off", settled(Call::Off(0)))?;
    row(
        rt,
        "plex 0 is set off beside a marked plex",
        marked(Call::Off(0)),
    )?;
    row(rt, "the marked plex is set off", marked(Call::Off(1)))?;
    row(rt, "plex 1 is taken out", settled(Call::Take))?;
    row(rt, "plex 1 leaves", settled(Call::Lose(1)))?;
    row(
        rt,
        "plex 2 leaves, of which the region has no pieces",
        settled(Call::Lose(2)),
    )
}

fn main(rt: HostRuntime) -> io::Result<()> {
    reads(&rt)?;
    settlings(&rt)?;
    writes(&rt)?;
    copies(&rt)?;
    clears(&rt)?;
    cuts(&rt)?;
    orders(&rt)?;
    dead(&rt)?;
    marks(&rt)?;
    sweep::show(&rt)
}
