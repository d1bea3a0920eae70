//! Rows of events and the acts that follow them: a table to be read beside the rules of a region. Each line has what it
//! shows, the acts that `next` names, and the phase and the marks that are left. The stored output was worked out by
//! hand from the rules.
#![tactic(auto)]

use shown::{Shown, phase_name};
use std::io;
use vx_core::{Event, Job, Phase, Stage, next};

mod shown;

/// Two plexes, 0 and 1, with a log; nothing is marked.
fn mirror() -> Stage {
    Stage {
        on: 3,
        off: 0,
        snaps: 0,
        bits: 0,
        logged: true,
        phase: Phase::Settled,
    }
}

/// The mirror after a crash: it is dirty, and its plexes may differ.
fn crashed() -> Stage {
    Stage {
        bits: vx_mask::of(vx_mask::DIRTY),
        phase: Phase::Unsettled,
        ..mirror()
    }
}

/// The mirror with plex 1 marked.
fn marked() -> Stage {
    Stage {
        bits: vx_mask::of(1),
        ..mirror()
    }
}

/// Three plexes, of which the last is marked.
fn three() -> Stage {
    Stage {
        on: 7,
        bits: vx_mask::of(2),
        ..mirror()
    }
}

/// One plex and no log.
fn bare() -> Stage {
    Stage {
        on: 1,
        logged: false,
        ..mirror()
    }
}

/// Plex 0 is on and plex 2 is off, and there is a snapshot with map 5.
fn tracked() -> Stage {
    Stage {
        on: vx_mask::of(0),
        off: vx_mask::of(2),
        snaps: vx_mask::of(5),
        ..mirror()
    }
}

fn row(rt: &impl Print, title: &str, mut stage: Stage, events: &[Event]) -> io::Result<()> {
    print!(rt; "{title}:")?;
    for event in events {
        let (after, act) = next(&stage, *event);
        print!(rt; " {}", Shown::Act(act))?;
        stage = after;
    }
    println!(rt;
        " | {} {}",
        phase_name(stage.phase),
        Shown::Maps(stage.bits)
    )
}

/// The row, cut in place of each of its answers, and then asked to read.
fn cut_at_each_step(
    rt: &impl Print,
    title: &str,
    stage: Stage,
    events: &[Event],
) -> io::Result<()> {
    for n in 0..events.len() {
        let mut stage = stage;
        print!(rt; "{title}, cut at {n}:")?;
        for event in events.iter().take(n) {
            let (after, act) = next(&stage, *event);
            print!(rt; " {}", Shown::Act(act))?;
            stage = after;
        }
        let (cut, lost) = next(&stage, Event::Cut);
        let (dead, act) = next(&cut, Event::Begin(Job::Read));
        println!(rt;
            " {} {} | {} {}",
            Shown::Act(lost),
            Shown::Act(act),
            phase_name(dead.phase),
            Shown::Maps(dead.bits)
        )?;
    }
    Ok(())
}

fn writes(rt: &impl Print) -> io::Result<()> {
    row(
        rt,
        "a write with all good",
        mirror(),
        &[
            Event::Begin(Job::Write),
            Event::Marked,
            Event::Wrote,
            Event::Wrote,
        ],
    )?;
    row(
        rt,
        "a write that misses a plex",
        mirror(),
        &[
            Event::Begin(Job::Write),
            Event::Marked,
            Event::Wrote,
            Event::WriteFailed,
            Event::Marked,
        ],
    )?;
    row(
        rt,
        "a write whose failure mark fails",
        mirror(),
        &[
            Event::Begin(Job::Write),
            Event::Marked,
            Event::WriteFailed,
            Event::Wrote,
            Event::MarkFailed,
        ],
    )?;
    row(
        rt,
        "a write that fails on both plexes",
        mirror(),
        &[
            Event::Begin(Job::Write),
            Event::Marked,
            Event::WriteFailed,
            Event::WriteFailed,
        ],
    )?;
    row(
        rt,
        "a write that fails on its one plex",
        bare(),
        &[Event::Begin(Job::Write), Event::WriteFailed],
    )?;
    row(
        rt,
        "a write whose first mark fails",
        mirror(),
        &[Event::Begin(Job::Write), Event::MarkFailed],
    )?;
    row(
        rt,
        "a write beside a marked plex",
        marked(),
        &[Event::Begin(Job::Write), Event::Marked, Event::Wrote],
    )?;
    row(
        rt,
        "two writes with tracked maps",
        tracked(),
        &[
            Event::Begin(Job::Write),
            Event::Marked,
            Event::Wrote,
            Event::Begin(Job::Write),
            Event::Wrote,
        ],
    )
}

fn reads(rt: &impl Print) -> io::Result<()> {
    row(
        rt,
        "a read that falls back",
        mirror(),
        &[Event::Begin(Job::Read), Event::ReadFailed(0), Event::Got],
    )?;
    row(
        rt,
        "a read that fails on both plexes",
        mirror(),
        &[
            Event::Begin(Job::Read),
            Event::ReadFailed(1),
            Event::ReadFailed(0),
        ],
    )?;
    row(
        rt,
        "a read beside a marked plex",
        marked(),
        &[Event::Begin(Job::Read), Event::Got],
    )
}

fn settlings(rt: &impl Print) -> io::Result<()> {
    row(
        rt,
        "a settling",
        crashed(),
        &[Event::Begin(Job::Settle), Event::Got, Event::Wrote],
    )?;
    row(
        rt,
        "a settling that finds the second plex",
        crashed(),
        &[
            Event::Begin(Job::Settle),
            Event::ReadFailed(0),
            Event::Got,
            Event::Wrote,
        ],
    )?;
    row(
        rt,
        "a settling that finds no plex",
        crashed(),
        &[
            Event::Begin(Job::Settle),
            Event::ReadFailed(0),
            Event::ReadFailed(1),
        ],
    )?;
    row(
        rt,
        "a settling whose write fails",
        crashed(),
        &[
            Event::Begin(Job::Settle),
            Event::Got,
            Event::WriteFailed,
            Event::Marked,
        ],
    )?;
    row(
        rt,
        "a settling whose write and mark fail",
        crashed(),
        &[
            Event::Begin(Job::Settle),
            Event::Got,
            Event::WriteFailed,
            Event::MarkFailed,
        ],
    )?;
    row(
        rt,
        "a write that settles first",
        crashed(),
        &[
            Event::Begin(Job::Write),
            Event::Got,
            Event::Wrote,
            Event::Wrote,
            Event::Wrote,
        ],
    )?;
    row(
        rt,
        "a settling of a settled region",
        mirror(),
        &[Event::Begin(Job::Settle)],
    )
}

fn copies(rt: &impl Print) -> io::Result<()> {
    row(
        rt,
        "a copy",
        marked(),
        &[
            Event::Begin(Job::Copy(1)),
            Event::Got,
            Event::Wrote,
            Event::Unmarked,
        ],
    )?;
    row(
        rt,
        "a copy with a failed read",
        three(),
        &[
            Event::Begin(Job::Copy(2)),
            Event::ReadFailed(0),
            Event::Got,
            Event::Wrote,
            Event::Unmarked,
        ],
    )?;
    row(
        rt,
        "a copy that can read no plex",
        three(),
        &[
            Event::Begin(Job::Copy(2)),
            Event::ReadFailed(0),
            Event::ReadFailed(1),
        ],
    )?;
    row(
        rt,
        "a copy with a failed write",
        marked(),
        &[Event::Begin(Job::Copy(1)), Event::Got, Event::WriteFailed],
    )?;
    row(
        rt,
        "a copy with a failed unmark",
        marked(),
        &[
            Event::Begin(Job::Copy(1)),
            Event::Got,
            Event::Wrote,
            Event::UnmarkFailed,
        ],
    )?;
    row(
        rt,
        "a copy of an unmarked plex",
        mirror(),
        &[Event::Begin(Job::Copy(1))],
    )?;
    row(
        rt,
        "a copy of a plex that is off",
        tracked(),
        &[Event::Begin(Job::Copy(2))],
    )
}

fn clears(rt: &impl Print) -> io::Result<()> {
    let dirty = Stage {
        phase: Phase::Settled,
        ..crashed()
    };
    row(
        rt,
        "a clear",
        dirty,
        &[Event::Begin(Job::Clear), Event::Unmarked],
    )?;
    row(
        rt,
        "a clear that fails",
        dirty,
        &[Event::Begin(Job::Clear), Event::UnmarkFailed],
    )?;
    row(
        rt,
        "a clear of a clean region",
        mirror(),
        &[Event::Begin(Job::Clear)],
    )
}

fn cuts(rt: &impl Print) -> io::Result<()> {
    cut_at_each_step(
        rt,
        "a write",
        mirror(),
        &[
            Event::Begin(Job::Write),
            Event::Marked,
            Event::WriteFailed,
            Event::Wrote,
            Event::Marked,
        ],
    )?;
    cut_at_each_step(
        rt,
        "a settling",
        crashed(),
        &[
            Event::Begin(Job::Settle),
            Event::ReadFailed(0),
            Event::Got,
            Event::WriteFailed,
            Event::Marked,
        ],
    )?;
    cut_at_each_step(
        rt,
        "a copy",
        marked(),
        &[
            Event::Begin(Job::Copy(1)),
            Event::Got,
            Event::Wrote,
            Event::Unmarked,
        ],
    )
}

fn main(rt: HostRuntime) -> io::Result<()> {
    writes(&rt)?;
    reads(&rt)?;
    settlings(&rt)?;
    copies(&rt)?;
    clears(&rt)?;
    cuts(&rt)
}
