//! Each device call of each call on a region goes wrong in turn, in each way, until the call makes no more of them.

use crate::breach::Breach;
use crate::call::Call;
use crate::fault::{Fault, Kind, Torn};
use crate::rows::{CLEAN, READ, THREE, TWO, WRITE, WRITE_DIRTY};
use crate::setup::{Disks, Form, Start};
use crate::trial::{Before, Case, Follow, Last, Tried, attempt};
use std::alloc::Global;
use std::io;

/// What is known of the trials of a case: how many device calls the call makes, how many trials there were, in how many of
/// them a device call went wrong, the first trial that was not as it may be, and what the last one has left.
#[derive(Drop)]
struct Sums {
    calls: u64,
    trials: u64,
    fired: u64,
    wrong: Option<(Fault, Follow, Breach)>,
    last: Last,
}

/// The most device calls that a call makes here.
const MOST: u64 = 200;

/// What else than nothing a write may have written that goes wrong, by how many sectors it has.
fn tears(is_write: bool, count: u64) -> [Option<Torn>; 3] {
    if !is_write {
        [None, None, None]
    } else if count == 1 {
        [Some(Torn::New), None, None]
    } else {
        [Some(Torn::Front), Some(Torn::New), Some(Torn::Back)]
    }
}

/// One trial. The sectors of the device call that went wrong, and whether it was a write; none where the call made no such
/// device call.
fn one(
    alloc: Global,
    case: &Case,
    fault: Fault,
    follow: Follow,
    sums: &mut Sums,
) -> Option<(bool, u64)> {
    sums.trials = sums.trials.saturating_add(1);
    match attempt(alloc, case, fault, follow, &mut sums.last) {
        Ok(wrong) => {
            let step = wrong?;
            sums.fired = sums.fired.saturating_add(1);
            Some((step.is_write, step.count))
        }
        Err(breach) => {
            if sums.wrong.is_none() {
                sums.wrong = Some((fault, follow, breach));
            }
            None
        }
    }
}

/// The other trials of a device call: each other way to tear it, and once it was torn in the last way each call after it, unless
/// it is one of a start.
fn others(alloc: Global, case: &Case, fault: Fault, is_write: bool, count: u64, sums: &mut Sums) {
    let mut last = fault;
    for torn in tears(is_write, count) {
        if let Some(torn) = torn {
            last = Fault { torn, ..fault };
            let _ = one(alloc, case, last, Follow::Nothing, sums);
        }
    }
    if fault.kind != Kind::Cut && !matches!(case.tried, Tried::Start) {
        let _ = one(alloc, case, last, Follow::Read, sums);
        let _ = one(alloc, case, last, Follow::Write, sums);
    }
}

/// Each device call of a case goes wrong in turn. Ends with the trial in which none did, or with the first that is not as it
/// may be.
fn sweep(alloc: Global, case: &Case, kind: Kind, sums: &mut Sums) {
    sums.last = None;
    for at in 0..MOST {
        let fault = Fault {
            at,
            kind,
            torn: Torn::Old,
        };
        match one(alloc, case, fault, Follow::Nothing, sums) {
            Some((is_write, count)) => others(alloc, case, fault, is_write, count, sums),
            None => {
                sums.calls = at;
                return;
            }
        }
        if sums.wrong.is_some() {
            return;
        }
    }
}

/// All ways to go wrong: a device call fails once, it fails and all later ones on its device do, the same where the log lies on
/// the devices of the plexes, and the power goes.
fn sums_of(alloc: Global, case: Case) -> Sums {
    let mut sums = Sums {
        calls: 0,
        trials: 0,
        fired: 0,
        wrong: None,
        last: None,
    };
    let shared = Case {
        form: Form {
            disks: Disks::Shared,
            ..case.form
        },
        ..case
    };
    sweep(alloc, &case, Kind::Once, &mut sums);
    sweep(alloc, &case, Kind::Ever, &mut sums);
    sweep(alloc, &shared, Kind::Ever, &mut sums);
    sweep(alloc, &case, Kind::Cut, &mut sums);
    sums
}

/// Two and three plexes, and one and two copies of the log.
const FORMS: [Form; 4] = [
    Form { copies: 1, ..TWO },
    TWO,
    Form { copies: 1, ..THREE },
    THREE,
];

/// A call on each form.
fn tell(rt: &HostRuntime, title: &str, start: Start, call: Call) -> io::Result<()> {
    for form in FORMS {
        tell_one(rt, title, call_on(form, start, call))?;
    }
    Ok(())
}

/// A call on three plexes and two copies of the log.
fn tell_large(rt: &HostRuntime, title: &str, start: Start, call: Call) -> io::Result<()> {
    tell_one(rt, title, call_on(THREE, start, call))
}

fn call_on(form: Form, start: Start, call: Call) -> Case {
    Case {
        form,
        start,
        before: None,
        tried: Tried::Call(call),
    }
}

fn tell_one(rt: &HostRuntime, title: &str, case: Case) -> io::Result<()> {
    let sums = sums_of(rt.alloc(), case);
    print!(rt;
        "{title}, {} plexes, {} copies: {} device calls, {} trials, {} fired, ",
        case.form.plexes, case.form.copies, sums.calls, sums.trials, sums.fired
    )?;
    match sums.wrong {
        None => println!(rt; "ok"),
        Some((fault, follow, breach)) => println!(rt;
            "device call {} {:?} {:?}, then {follow:?}: {breach}",
            fault.at, fault.kind, fault.torn
        ),
    }
}

/// What is tried after a write of a settled region, one device call of which goes wrong.
fn after_write(form: Form, fault: Fault, tried: Tried) -> Case {
    Case {
        form,
        start: CLEAN,
        before: Some(Before { call: WRITE, fault }),
        tried,
    }
}

/// A device call that fails, or at which the power goes.
fn fault_at(at: u64, kind: Kind, torn: Torn) -> Fault {
    Fault { at, kind, torn }
}

/// The store is made firm after a write. Its mark is one device call a copy, each plex one, and so is the unmark.
fn firms(rt: &HostRuntime) -> io::Result<()> {
    for form in FORMS {
        let marked = form.copies as u64;
        let written = marked.saturating_add(form.plexes as u64);
        for (title, behind) in [
            ("a firm after a mark that failed", marked),
            (
                "a firm after an unmark that failed",
                written.saturating_add(marked),
            ),
        ] {
            let fault = fault_at(behind.saturating_sub(1), Kind::Once, Torn::Old);
            tell_one(rt, title, after_write(form, fault, Tried::Call(Call::Firm)))?;
        }
    }
    Ok(())
}

/// The region is started after a write that lost the power: at plex 1, and on three plexes at the mark and the unmark of copy 1.
fn starts(rt: &HostRuntime) -> io::Result<()> {
    for form in FORMS {
        let fault = fault_at(
            (form.copies as u64).saturating_add(1),
            Kind::Cut,
            Torn::Front,
        );
        let title = "a start after a write that lost the power";
        tell_one(rt, title, after_write(form, fault, Tried::Start))?;
    }
    for (title, at) in [
        ("a start after a mark that lost the power", 1),
        ("a start after an unmark that lost the power", 6),
    ] {
        let fault = fault_at(at, Kind::Cut, Torn::Old);
        tell_one(rt, title, after_write(THREE, fault, Tried::Start))?;
    }
    Ok(())
}

/// A settled region with these marks.
fn marked(bits: u64) -> Start {
    Start { bits, ..CLEAN }
}

/// A region that may differ, with these marks.
fn crashed(bits: u64) -> Start {
    Start {
        bits,
        is_settled: false,
        ..CLEAN
    }
}

/// A region of which plex 1 is off.
fn beside(start: Start) -> Start {
    Start {
        off: vx_mask::of(1),
        ..start
    }
}

/// A region of which a snapshot was made.
fn tracked(start: Start) -> Start {
    Start {
        snaps: vx_mask::of(5),
        ..start
    }
}

fn reads(rt: &HostRuntime, dirty: u64, one: u64) -> io::Result<()> {
    let both = vx_mask::with(dirty, one);
    tell(rt, "a read", CLEAN, READ)?;
    tell_large(rt, "a read beside a marked plex", marked(one), READ)?;
    tell(rt, "a read that settles", crashed(dirty), READ)?;
    tell_large(
        rt,
        "a read that settles beside a marked plex",
        crashed(both),
        READ,
    )
}

fn writes(rt: &HostRuntime, dirty: u64, one: u64) -> io::Result<()> {
    let both = vx_mask::with(dirty, one);
    tell(rt, "a write", CLEAN, WRITE)?;
    tell_large(rt, "a write of a dirty region", marked(dirty), WRITE)?;
    tell_large(rt, "a write beside a marked plex", marked(one), WRITE)?;
    tell_large(
        rt,
        "a write beside a plex that is off",
        beside(CLEAN),
        WRITE,
    )?;
    tell_large(rt, "a write beside a snapshot", tracked(CLEAN), WRITE)?;
    tell_large(rt, "a write beside both", tracked(beside(CLEAN)), WRITE)?;
    tell(rt, "a write that settles", crashed(dirty), WRITE)?;
    tell_large(
        rt,
        "a write that settles beside a marked plex that is off",
        beside(crashed(both)),
        WRITE,
    )?;
    tell(
        rt,
        "a write that leaves the region dirty",
        CLEAN,
        WRITE_DIRTY,
    )
}

fn others_of(rt: &HostRuntime, dirty: u64, one: u64) -> io::Result<()> {
    let both = vx_mask::with(dirty, one);
    tell(rt, "a settling", crashed(dirty), Call::Settle)?;
    tell_large(
        rt,
        "a settling beside a marked plex",
        crashed(both),
        Call::Settle,
    )?;
    tell(rt, "a copy", marked(one), Call::Copy(1))?;
    tell_large(rt, "a copy of a dirty region", marked(both), Call::Copy(1))?;
    tell_large(rt, "a copy that settles", crashed(both), Call::Copy(1))?;
    tell(rt, "a clear", marked(dirty), Call::Clear)?;
    tell_large(rt, "a clear that settles", crashed(dirty), Call::Clear)
}

/// All of them.
pub fn sweeps(rt: &HostRuntime) -> io::Result<()> {
    let dirty = vx_mask::of(vx_mask::DIRTY);
    let one = vx_mask::of(1);
    reads(rt, dirty, one)?;
    writes(rt, dirty, one)?;
    others_of(rt, dirty, one)?;
    firms(rt)?;
    starts(rt)
}
