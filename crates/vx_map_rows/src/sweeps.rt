//! The sweeps: each device call of a call fails in turn, and at each the power goes, until the call makes no more of them. What is
//! left is judged by the rules, and then, with no fault any more, the copies are loaded together and each alone.

use crate::calls::{Answer, Call, shape};
use crate::copies::{Copies, Held};
use crate::fault::{Fault, Kind};
use crate::marks::{Marks, NO_MARKS, clipped, is_same};
use crate::rules::{State, left, may_end};
use crate::trials::{Case, Ended, run};
use std::alloc::{AllocError, Global};
use std::io;
use vx_mapfmt::DcoShape;

/// The trials of one kind: in how many a device call went wrong, and how the call was answered then.
#[derive(Clone, Copy)]
struct Tally {
    fired: u64,
    done: u64,
    failed: u64,
    no_copy: u64,
    lost: u64,
}

const NONE: Tally = Tally {
    fired: 0,
    done: 0,
    failed: 0,
    no_copy: 0,
    lost: 0,
};

/// What is known of the sweeps of a call: the device calls that it makes without a fault, the trials in which one failed, those
/// in which the power went, how many were not as they may be, and what was loaded again already.
#[derive(Drop)]
struct Sums {
    reads: u64,
    writes: u64,
    fails: Tally,
    cuts: Tally,
    wrong: u64,
    loaded: Vec<Copies>,
}

/// The most device calls that a call makes here.
const MOST: u64 = 200;

fn is_same_copy(one: &Held, other: &Held) -> bool {
    one.headed == other.headed && is_same(&one.maps, &other.maps)
}

fn are_same(one: &Copies, other: &Copies) -> bool {
    let second = match (&one.second, &other.second) {
        (Some(one), Some(other)) => is_same_copy(one, other),
        (None, None) => true,
        _ => false,
    };
    second && is_same_copy(&one.first, &other.first)
}

/// Loads copies without a fault: that gives the first copy with a header on each copy, or there is no store.
fn loads(alloc: Global, shape: &DcoShape, start: Copies) -> Result<bool, AllocError> {
    let case = Case {
        start,
        first: None,
        before: None,
        call: Call::Load,
    };
    let ended = run(alloc, shape, &case, None)?;
    let Some(copies) = ended.copies else {
        return Ok(false);
    };
    let mut wanted = None;
    for number in 0..2u8 {
        if let Some(held) = start.get(number) {
            if held.headed && wanted.is_none() {
                wanted = Some(clipped(&held.maps));
            }
        }
    }
    match wanted {
        None => Ok(ended.answer == Answer::NoCopy && are_same(&copies, &start)),
        Some(marks) => Ok(ended.answer == Answer::Done && gives(&ended, &copies, &marks)),
    }
}

/// Whether each copy has the header and these marks, and the store claims them.
fn gives(ended: &Ended, copies: &Copies, marks: &Marks) -> bool {
    for number in 0..2u8 {
        if let Some(held) = copies.get(number) {
            if !held.headed || !is_same(&held.maps, marks) {
                return false;
            }
        }
    }
    match ended.claims {
        Some(claims) => is_same(&claims, marks),
        None => false,
    }
}

/// The copies are loaded together and each alone, once for all trials that leave the same.
fn reloads(
    alloc: Global,
    shape: &DcoShape,
    copies: &Copies,
    loaded: &mut Vec<Copies>,
) -> Result<bool, AllocError> {
    for seen in &*loaded {
        if are_same(seen, copies) {
            return Ok(true);
        }
    }
    loaded.push(*copies)?;
    let mut is_right = loads(alloc, shape, *copies)?;
    if let Some(second) = copies.second {
        for alone in [copies.first, second] {
            let start = Copies {
                first: alone,
                second: None,
            };
            is_right = loads(alloc, shape, start)? && is_right;
        }
    }
    Ok(is_right)
}

/// Counts a trial in which a device call went wrong.
fn count(tally: &mut Tally, answer: Answer) {
    tally.fired = tally.fired.saturating_add(1);
    let counter = match answer {
        Answer::Done => &mut tally.done,
        Answer::Failed { copy: _, device: _ } => &mut tally.failed,
        Answer::NoCopy => &mut tally.no_copy,
        Answer::PowerLost => &mut tally.lost,
        Answer::Other => return,
    };
    *counter = counter.saturating_add(1);
}

/// Judges a trial.
fn judge(
    alloc: Global,
    shape: &DcoShape,
    case: &Case,
    state: &State,
    kind: Kind,
    ended: &Ended,
    sums: &mut Sums,
) -> Result<(), AllocError> {
    let mut is_right = may_end(case, kind, state, ended);
    if let Some(copies) = ended.copies {
        is_right = reloads(alloc, shape, &copies, &mut sums.loaded)? && is_right;
    }
    if !is_right {
        sums.wrong = sums.wrong.saturating_add(1);
    }
    if ended.wrong.is_some() {
        match kind {
            Kind::Fails => count(&mut sums.fails, ended.answer),
            Kind::Cut => count(&mut sums.cuts, ended.answer),
        }
    }
    Ok(())
}

/// One trial.
fn one(
    alloc: Global,
    shape: &DcoShape,
    case: &Case,
    state: &State,
    fault: Fault,
    sums: &mut Sums,
) -> Result<Ended, AllocError> {
    let ended = run(alloc, shape, case, Some(fault))?;
    judge(alloc, shape, case, state, fault.kind, &ended, sums)?;
    Ok(ended)
}

/// Each device call goes wrong in turn, a write in both ways. Ends with the trial in which none does.
fn sweep(
    alloc: Global,
    shape: &DcoShape,
    case: &Case,
    state: &State,
    kind: Kind,
    sums: &mut Sums,
) -> Result<Ended, AllocError> {
    for at in 0..MOST {
        let fault = Fault {
            at,
            kind,
            is_written: false,
        };
        let ended = one(alloc, shape, case, state, fault, sums)?;
        match ended.wrong {
            None => return Ok(ended),
            Some(wrong) if wrong.is_write => {
                let written = Fault {
                    is_written: true,
                    ..fault
                };
                one(alloc, shape, case, state, written, sums)?;
            }
            Some(_) => {}
        }
    }
    Err(AllocError)
}

/// Both sweeps of a case.
fn sweeps_of(
    alloc: Global,
    shape: &DcoShape,
    case: &Case,
    state: &State,
    sums: &mut Sums,
) -> Result<(), AllocError> {
    let ended = sweep(alloc, shape, case, state, Kind::Fails, sums)?;
    sums.writes = sums.writes.saturating_add(ended.writes);
    sums.reads = sums
        .reads
        .saturating_add(ended.calls.saturating_sub(ended.writes));
    sweep(alloc, shape, case, state, Kind::Cut, sums)?;
    Ok(())
}

fn no_sums(alloc: Global) -> Sums {
    Sums {
        reads: 0,
        writes: 0,
        fails: NONE,
        cuts: NONE,
        wrong: 0,
        loaded: Vec::new(alloc),
    }
}

/// A call on its own.
fn alone(
    alloc: Global,
    shape: &DcoShape,
    start: &Copies,
    call: Call,
    first: Option<Fault>,
) -> Result<Sums, AllocError> {
    let mut sums = no_sums(alloc);
    let case = Case {
        start: *start,
        first,
        before: None,
        call,
    };
    sweeps_of(alloc, shape, &case, &State::loaded(start), &mut sums)?;
    Ok(sums)
}

/// A call after one of which a write fails, each in turn and in both ways.
fn behind(
    alloc: Global,
    shape: &DcoShape,
    start: &Copies,
    before: Call,
    call: Call,
) -> Result<Sums, AllocError> {
    let mut sums = no_sums(alloc);
    let failing = Case {
        start: *start,
        first: None,
        before: None,
        call: before,
    };
    for at in 0..MOST {
        for is_written in [false, true] {
            let first = Fault {
                at,
                kind: Kind::Fails,
                is_written,
            };
            let ended = run(alloc, shape, &failing, Some(first))?;
            if ended.wrong.is_none() {
                return Ok(sums);
            }
            let Some(state) = left(before, &State::loaded(start), &ended) else {
                sums.wrong = sums.wrong.saturating_add(1);
                return Ok(sums);
            };
            let case = Case {
                start: *start,
                first: Some(first),
                before: Some(before),
                call,
            };
            sweeps_of(alloc, shape, &case, &state, &mut sums)?;
        }
    }
    Err(AllocError)
}

fn show_tally(rt: &HostRuntime, title: &str, tally: &Tally) -> io::Result<()> {
    print!(rt; "  {title}: {} trials", tally.fired)?;
    for (count, answer) in [
        (tally.done, "done"),
        (tally.failed, "failed"),
        (tally.no_copy, "without a copy"),
        (tally.lost, "lost"),
    ] {
        if count > 0 {
            print!(rt; ", {count} {answer}")?;
        }
    }
    println!(rt; "")
}

fn show(rt: &HostRuntime, title: &str, sums: Result<Sums, AllocError>) -> io::Result<()> {
    let Ok(sums) = sums else {
        return println!(rt; "{title}: no memory");
    };
    println!(rt; "{title}: {} reads, {} writes", sums.reads, sums.writes)?;
    show_tally(rt, "one fails", &sums.fails)?;
    show_tally(rt, "the power goes at one", &sums.cuts)?;
    if sums.wrong > 0 {
        println!(rt; "  {} are not as they may be", sums.wrong)?;
    }
    Ok(())
}

/// A call on its own, or after one of which a write fails.
fn tell(
    rt: &HostRuntime,
    title: &str,
    before: Option<Call>,
    call: Call,
    start: &Copies,
) -> io::Result<()> {
    let Some(shape) = shape() else {
        return Ok(());
    };
    let sums = match before {
        None => alone(rt.alloc(), &shape, start, call, None),
        Some(before) => behind(rt.alloc(), &shape, start, before, call),
    };
    show(rt, title, sums)
}

fn one_copy(first: Held) -> Copies {
    Copies {
        first,
        second: None,
    }
}

fn two_copies(first: Held, second: Held) -> Copies {
    Copies {
        first,
        second: Some(second),
    }
}

/// A copy with marks in maps 3, 5 and 31.
fn marked() -> Held {
    let mut maps = NO_MARKS;
    maps[3] = 5;
    maps[5] = 2;
    maps[31] = 9;
    Held { headed: true, maps }
}

/// One that differs from it in maps 5 and 30.
fn other() -> Held {
    let mut held = marked();
    held.maps[5] = 3;
    held.maps[30] = 4;
    held
}

fn without_header(held: Held) -> Held {
    Held {
        headed: false,
        ..held
    }
}

/// One with bits behind the last region in map 0.
fn long() -> Held {
    let mut held = marked();
    held.maps[0] = 0xf1;
    held
}

pub fn rows(rt: &HostRuntime) -> io::Result<()> {
    let pair = two_copies(marked(), marked());
    let single = one_copy(marked());
    println!(rt; "new stores")?;
    tell(rt, "create on two copies", None, Call::Create, &pair)?;
    tell(rt, "create on one copy", None, Call::Create, &single)?;
    println!(rt; "loaded stores")?;
    loading(rt)?;
    println!(rt; "marks on two copies")?;
    marking(rt, &pair)?;
    whole_maps(rt, &pair)?;
    println!(rt; "marks on one copy")?;
    marking(rt, &single)?;
    whole_maps(rt, &single)
}

fn loading(rt: &HostRuntime) -> io::Result<()> {
    for (title, start) in [
        ("load of two copies alike", two_copies(marked(), marked())),
        ("load of two that differ", two_copies(marked(), other())),
        (
            "load of one with a header and one without",
            two_copies(marked(), without_header(other())),
        ),
        (
            "load of one without a header and one with",
            two_copies(without_header(other()), marked()),
        ),
        ("load of one copy", one_copy(marked())),
        (
            "load of one copy with bits behind the last region",
            one_copy(long()),
        ),
        (
            "load of two without a header",
            two_copies(without_header(marked()), without_header(other())),
        ),
    ] {
        tell(rt, title, None, Call::Load, &start)?;
    }
    unreadable(rt)
}

/// The last read of copy 0 fails, so that copy 1 is read in its place.
fn unreadable(rt: &HostRuntime) -> io::Result<()> {
    let Some(shape) = shape() else {
        return Ok(());
    };
    let start = two_copies(marked(), other());
    let first = Fault {
        at: 32,
        kind: Kind::Fails,
        is_written: false,
    };
    show(
        rt,
        "load of two that differ, behind a read of the first that fails",
        alone(rt.alloc(), &shape, &start, Call::Load, Some(first)),
    )
}

fn marking(rt: &HostRuntime, start: &Copies) -> io::Result<()> {
    for (title, before, call) in [
        ("mark", None, Call::Mark),
        ("unmark", None, Call::Unmark),
        (
            "firm after a mark that failed",
            Some(Call::Mark),
            Call::Firm,
        ),
        (
            "firm after an unmark that failed",
            Some(Call::Unmark),
            Call::Firm,
        ),
        (
            "mark of another region after a mark that failed",
            Some(Call::Mark),
            Call::MarkOther,
        ),
        (
            "unmark after a mark of another region that failed",
            Some(Call::MarkOther),
            Call::Unmark,
        ),
    ] {
        tell(rt, title, before, call, start)?;
    }
    Ok(())
}

/// Map 5 marks region 1 before.
fn whole_maps(rt: &HostRuntime, start: &Copies) -> io::Result<()> {
    for (title, before, call) in [
        ("clear", None, Call::Clear),
        (
            "clear after a mark that failed",
            Some(Call::Mark),
            Call::Clear,
        ),
        (
            "set of regions 1 and 3, and of bits behind the last",
            None,
            Call::Set(0xfa),
        ),
        (
            "the same after a mark that failed",
            Some(Call::Mark),
            Call::Set(0xfa),
        ),
        (
            "firm after a set that failed",
            Some(Call::Set(0xfa)),
            Call::Firm,
        ),
        (
            "set of what is there, and of a bit behind the last",
            None,
            Call::Set(0x12),
        ),
    ] {
        tell(rt, title, before, call, start)?;
    }
    Ok(())
}
