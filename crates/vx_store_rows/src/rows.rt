//! The worked rows: calls on a region with some device calls that go wrong, and of each call its answer and its device calls in
//! order.

use crate::call::{Answer, Call, Range, perform};
use crate::clock::Clock;
use crate::disk::shown;
use crate::fault::{Fault, Kind, Torn};
use crate::setup::{Disks, Form, Start, begin};
use crate::shown::Shown;
use crate::trace::{Called, Left, end};
use std::alloc::Global;
use std::io;
use std::sync::Arc;

/// Calls on a region, and what goes wrong.
#[derive(Clone, Copy)]
struct Row {
    form: Form,
    start: Start,
    faults: [Option<Fault>; 2],
    calls: [Option<Call>; 2],
}

/// Two plexes, and a log of two copies.
pub const TWO: Form = Form {
    plexes: 2,
    copies: 2,
    disks: Disks::Apart,
};

pub const THREE: Form = Form { plexes: 3, ..TWO };

const ONE_COPY: Form = Form { copies: 1, ..TWO };

/// Settled, and nothing is marked.
pub const CLEAN: Start = Start {
    off: 0,
    snaps: 0,
    bits: 0,
    is_settled: true,
};

/// Four blocks of the region.
const BLOCKS: Range = Range { at: 40, count: 4 };

pub const WRITE: Call = Call::Write(BLOCKS, 200);

pub const WRITE_DIRTY: Call = Call::WriteDirty(BLOCKS, 200);

pub const READ: Call = Call::Read(BLOCKS);

fn dirty() -> u64 {
    vx_mask::of(vx_mask::DIRTY)
}

/// Dirty, and the plexes may differ.
fn crashed() -> Start {
    Start {
        bits: dirty(),
        is_settled: false,
        ..CLEAN
    }
}

fn marked(bits: u64) -> Start {
    Start { bits, ..CLEAN }
}

fn of_one(form: Form, start: Start, call: Call) -> Row {
    Row {
        form,
        start,
        faults: [None, None],
        calls: [Some(call), None],
    }
}

/// The same, and then this call.
fn then(row: Row, call: Call) -> Row {
    Row {
        calls: [row.calls[0], Some(call)],
        ..row
    }
}

/// The device call of this number fails, and writes nothing.
fn fails(at: u64) -> Option<Fault> {
    Some(Fault {
        at,
        kind: Kind::Once,
        torn: Torn::Old,
    })
}

fn failing(row: Row, at: u64) -> Row {
    Row {
        faults: [fails(at), None],
        ..row
    }
}

fn failing_twice(row: Row, at: u64, then: u64) -> Row {
    Row {
        faults: [fails(at), fails(then)],
        ..row
    }
}

/// What a row comes to: each answer with the number of device calls before its call and after it, and what is left.
#[derive(Drop)]
struct Played {
    answers: Vec<(Answer, u64, u64)>,
    left: Left,
}

fn play(alloc: Global, row: &Row) -> Option<Played> {
    let clock = Arc::new(alloc, Clock::new()).ok()?;
    let mut life = begin(alloc, &row.form, &row.start, &clock, row.faults)?;
    let mut answers = Vec::new(alloc);
    for call in row.calls {
        if let Some(call) = call {
            let first = clock.calls();
            let (next, answer) = perform(alloc, life, call)?;
            life = next;
            answers.push((answer, first, clock.calls())).ok()?;
        }
    }
    let left = end(alloc, life)?;
    Some(Played { answers, left })
}

fn show(rt: &HostRuntime, title: &str, row: Row) -> io::Result<()> {
    println!(rt; "{title}")?;
    let Some(played) = play(rt.alloc(), &row) else {
        return println!(rt; "  no region");
    };
    for (answer, first, behind) in &played.answers {
        println!(rt; "  {}", Shown::Answer(answer.result))?;
        show_read(rt, answer)?;
        show_calls(rt, &played.left.calls, *first, *behind)?;
    }
    show_left(rt, &played.left)
}

/// The bytes of the blocks that were read, or that were written.
fn show_read(rt: &HostRuntime, answer: &Answer) -> io::Result<()> {
    if !answer.bytes.is_empty() {
        print!(rt; "    blocks")?;
        for byte in answer.bytes.iter().step_by(512) {
            print!(rt; " {byte}")?;
        }
        println!(rt)?;
    }
    Ok(())
}

fn show_calls(rt: &HostRuntime, calls: &Vec<Called>, first: u64, behind: u64) -> io::Result<()> {
    for call in calls {
        if call.step.number >= first && call.step.number < behind {
            println!(rt; "    {}", Shown::Called(*call))?;
        }
    }
    let writes = count(calls, first, behind, true);
    let reads = count(calls, first, behind, false);
    println!(rt; "    {writes} writes, {reads} reads")
}

/// How many device calls of these numbers are writes, or reads.
fn count(calls: &Vec<Called>, first: u64, behind: u64, is_write: bool) -> u64 {
    let mut found: u64 = 0;
    for call in calls {
        let number = call.step.number;
        if number >= first && number < behind && call.step.is_write == is_write {
            found = found.saturating_add(1);
        }
    }
    found
}

/// How many device writes two writes of a region take.
pub fn counts(rt: &HostRuntime) -> io::Result<()> {
    for form in [TWO, THREE] {
        let row = then(of_one(form, CLEAN, WRITE_DIRTY), WRITE_DIRTY);
        print!(rt;
            "{} plexes, {} copies of the log, device writes of a first and of a second write of a region:",
            form.plexes, form.copies
        )?;
        if let Some(played) = play(rt.alloc(), &row) {
            for (_answer, first, behind) in &played.answers {
                let writes = count(&played.left.calls, *first, *behind, true);
                print!(rt; " {writes}")?;
            }
        }
        println!(rt; "")?;
    }
    Ok(())
}

/// The phase and the marks, those of each copy, and of each plex the blocks from the one before the first that is written to
/// the one behind the last.
pub fn show_left(rt: &HostRuntime, left: &Left) -> io::Result<()> {
    print!(rt;
        "  left {} {}, copies",
        Shown::Phase(left.stage.phase),
        Shown::Maps(left.stage.bits)
    )?;
    for copy in &left.copies {
        match shown(copy) {
            Some(marks) => print!(rt; " {}", Shown::Maps(marks))?,
            None => print!(rt; " unknown")?,
        }
    }
    println!(rt)?;
    for plex in &left.plexes {
        print!(rt; "  plex {}", plex.map)?;
        for byte in plex.blocks.iter().skip(7).take(6) {
            print!(rt; " {byte}")?;
        }
        println!(rt)?;
    }
    Ok(())
}

fn writes(rt: &HostRuntime) -> io::Result<()> {
    let first = of_one(TWO, CLEAN, WRITE_DIRTY);
    show(
        rt,
        "a first write of a region, and a second one",
        then(first, WRITE_DIRTY),
    )?;
    show(
        rt,
        "a write that takes its mark away",
        of_one(TWO, CLEAN, WRITE),
    )?;
    show(
        rt,
        "two writes, three plexes",
        then(of_one(THREE, CLEAN, WRITE_DIRTY), WRITE_DIRTY),
    )?;
    show(
        rt,
        "two writes, one copy of the log",
        then(of_one(ONE_COPY, CLEAN, WRITE_DIRTY), WRITE_DIRTY),
    )?;
    let tracked = Start {
        off: vx_mask::of(1),
        snaps: vx_mask::of(5),
        ..CLEAN
    };
    show(
        rt,
        "a write beside a plex that is off and a snapshot",
        of_one(TWO, tracked, WRITE),
    )?;
    show(
        rt,
        "a write beside a marked plex",
        of_one(TWO, marked(vx_mask::of(1)), WRITE),
    )?;
    show(
        rt,
        "a write that settles first",
        of_one(TWO, crashed(), WRITE),
    )
}

fn failures(rt: &HostRuntime) -> io::Result<()> {
    let write = of_one(TWO, CLEAN, WRITE);
    show(rt, "a write that plex 1 fails", failing(write, 3))?;
    show(
        rt,
        "a write that both plexes fail, and a read",
        then(failing_twice(write, 2, 3), READ),
    )?;
    show(
        rt,
        "a write that plex 2 of three fails",
        failing(of_one(THREE, CLEAN, WRITE), 4),
    )?;
    show(rt, "a write whose mark copy 0 fails", failing(write, 0))?;
    show(
        rt,
        "a write whose mark copy 1 fails, and another one",
        then(failing(write, 1), WRITE),
    )?;
    show(
        rt,
        "a write that plex 1 fails and whose failure mark fails",
        failing_twice(write, 3, 5),
    )?;
    show(
        rt,
        "a write whose mark can not be taken away, and another one",
        then(failing(write, 5), WRITE_DIRTY),
    )
}

fn reads(rt: &HostRuntime) -> io::Result<()> {
    let read = of_one(TWO, CLEAN, READ);
    show(rt, "a read", read)?;
    show(rt, "a read that falls back", failing(read, 0))?;
    show(
        rt,
        "a read that both plexes fail",
        failing_twice(read, 0, 1),
    )?;
    show(
        rt,
        "a read beside marked plex 0",
        of_one(TWO, marked(vx_mask::of(0)), READ),
    )
}

fn settlings(rt: &HostRuntime) -> io::Result<()> {
    let settling = of_one(TWO, crashed(), Call::Settle);
    show(rt, "a settling", settling)?;
    show(
        rt,
        "a settling of three plexes, and another one",
        then(of_one(THREE, crashed(), Call::Settle), Call::Settle),
    )?;
    show(rt, "a settling from plex 1", failing(settling, 0))?;
    show(rt, "a settling that misses plex 1", failing(settling, 1))?;
    show(
        rt,
        "a settling whose failure mark fails",
        failing_twice(settling, 1, 3),
    )
}

fn copies(rt: &HostRuntime) -> io::Result<()> {
    let copy = of_one(TWO, marked(vx_mask::of(1)), Call::Copy(1));
    show(rt, "a copy, and another one", then(copy, Call::Copy(1)))?;
    show(rt, "a copy whose write fails", failing(copy, 1))?;
    show(
        rt,
        "a copy whose mark can not be taken away, and a write",
        then(failing(copy, 2), WRITE_DIRTY),
    )?;
    let clear = of_one(TWO, marked(dirty()), Call::Clear);
    show(rt, "a clear, and another one", then(clear, Call::Clear))?;
    show(
        rt,
        "a clear that copy 1 fails, and a write",
        then(failing(clear, 1), WRITE_DIRTY),
    )
}

fn deaths(rt: &HostRuntime) -> io::Result<()> {
    let killed = of_one(TWO, CLEAN, Call::Kill);
    show(
        rt,
        "a cell that is killed, and a write",
        then(killed, WRITE),
    )?;
    show(rt, "a killed cell, and a read", then(killed, READ))?;
    show(
        rt,
        "a killed cell, and a settling",
        then(killed, Call::Settle),
    )?;
    let marked = of_one(TWO, marked(vx_mask::of(1)), Call::Kill);
    show(rt, "a killed cell, and a copy", then(marked, Call::Copy(1)))?;
    show(rt, "a killed cell, and a clear", then(killed, Call::Clear))?;
    let cut = Row {
        faults: [
            Some(Fault {
                at: 3,
                kind: Kind::Cut,
                torn: Torn::Front,
            }),
            None,
        ],
        ..of_one(TWO, CLEAN, WRITE)
    };
    show(
        rt,
        "a write that is cut at plex 1, and a read",
        then(cut, READ),
    )
}

/// All of them.
pub fn rows(rt: &HostRuntime) -> io::Result<()> {
    writes(rt)?;
    failures(rt)?;
    reads(rt)?;
    settlings(rt)?;
    copies(rt)?;
    deaths(rt)
}
