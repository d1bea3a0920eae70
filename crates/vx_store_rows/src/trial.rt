//! A trial: a call on a region of which one device call goes wrong, perhaps another call, and then the power is off. What is
//! left has to be what the rules allow, and so does the region once it is started again.

use crate::breach::Breach;
use crate::call::{Call, Range, WHOLE};
use crate::causes::{Part, causes, marks_first};
use crate::clock::Clock;
use crate::course::{Ended, Going, go, stop};
use crate::disk::shown;
use crate::fault::{End, Fault, Kind, Step};
use crate::history::History;
use crate::restart::{Gone, restart};
use crate::rules::allows_all;
use crate::setup::{Form, Held, Start, before, begin};
use crate::starts::start;
use crate::trace::{Left, On};
use std::alloc::Global;
use std::sync::Arc;
use vx_core::Phase;

/// What is called after the call of which a device call went wrong.
#[derive(Clone, Copy, Debug, PartialEq, Eq)]
pub enum Follow {
    Nothing,
    Read,
    Write,
}

/// A call of which a device call goes wrong.
#[derive(Clone, Copy)]
pub struct Before {
    pub call: Call,
    pub fault: Fault,
}

/// What is tried.
#[derive(Clone, Copy)]
pub enum Tried {
    Call(Call),
    /// The power is off, and the region is started.
    Start,
}

/// A region, what went wrong with it before, and what is tried.
#[derive(Clone, Copy)]
pub struct Case {
    pub form: Form,
    pub start: Start,
    pub before: Option<Before>,
    pub tried: Tried,
}

/// Blocks of which some are written by the call before.
const OTHERS: Range = Range { at: 42, count: 4 };

fn next_call(follow: Follow) -> Option<Call> {
    match follow {
        Follow::Nothing => None,
        Follow::Read => Some(Call::Read(WHOLE)),
        Follow::Write => Some(Call::Write(OTHERS, 220)),
    }
}

/// A region before its calls, on devices whose calls go wrong so.
fn set_up(
    alloc: Global,
    case: &Case,
    clock: &Arc<Clock, Global>,
    faults: [Option<Fault>; 2],
) -> Result<Going, Breach> {
    let life = begin(alloc, &case.form, &case.start, clock, faults).ok_or(Breach::NoRegion)?;
    let made = before(alloc, &case.form, &case.start).ok_or(Breach::NoRegion)?;
    let history = History::new(alloc, &made, case.start.bits)?;
    Ok(Going {
        life,
        parts: Vec::new(alloc),
        history,
    })
}

/// The number of a device call that goes wrong, if those of the call before it end with the one that goes wrong there.
fn shifted(fault: Fault, before: Option<Before>) -> Fault {
    match before {
        Some(before) => Fault {
            at: fault.at.saturating_add(before.fault.at).saturating_add(1),
            ..fault
        },
        None => fault,
    }
}

/// Makes the call, after the one before and before the one that follows.
fn run_call(
    alloc: Global,
    case: &Case,
    call: Call,
    fault: Fault,
    follow: Follow,
) -> Result<Ended, Breach> {
    let clock = Arc::new(alloc, Clock::new()).ok().ok_or(Breach::NoRegion)?;
    let mut faults = [Some(fault), None];
    if let Some(before) = case.before {
        faults = [Some(before.fault), Some(fault)];
    }
    let mut going = set_up(alloc, case, &clock, faults)?;
    if let Some(before) = case.before {
        going = go(alloc, &clock, going, before.call)?;
    }
    going = go(alloc, &clock, going, call)?;
    if clock.calls() > fault.at && going.life.stage.phase != Phase::Dead {
        if let Some(call) = next_call(follow) {
            going = go(alloc, &clock, going, call)?;
        }
    }
    stop(alloc, going)
}

/// Makes the call before, of which a device call goes wrong, and then starts the region.
fn run_start(alloc: Global, case: &Case, fault: Fault) -> Result<Ended, Breach> {
    let before = case.before.ok_or(Breach::NoRegion)?;
    let alone = Case {
        before: None,
        ..*case
    };
    let ended = run_call(alloc, &alone, before.call, before.fault, Follow::Nothing)?;
    start(alloc, &case.form, ended, fault)
}

/// The marks that each copy shows.
fn marks_on(alloc: Global, copies: &Vec<Vec<u8>>) -> Result<Vec<u64>, Breach> {
    let mut marks = Vec::new(alloc);
    for copy in copies {
        let shown = shown(copy).ok_or(Breach::Marks)?;
        marks.push(shown).ok().ok_or(Breach::NoRegion)?;
    }
    Ok(marks)
}

/// How the calls on the log went.
#[derive(Clone, Copy)]
struct LogCalls {
    /// One was on something else than a map's page.
    strays: bool,
    /// One failed, or the power went in it.
    went_wrong: bool,
}

fn log_calls(left: &Left) -> LogCalls {
    let mut found = LogCalls {
        strays: false,
        went_wrong: false,
    };
    for call in &left.calls {
        if let On::Log { copy: _, map } = call.on {
            found.strays = found.strays || map.is_none();
            found.went_wrong = found.went_wrong || call.step.end != End::Done;
        }
    }
    found
}

/// Whether each copy shows these marks and no others.
fn all_show(marks: &Vec<u64>, bits: u64) -> bool {
    for shown in marks {
        if *shown != bits {
            return false;
        }
    }
    true
}

/// Whether the last call made the store firm.
fn is_firm(parts: &Vec<Part>) -> bool {
    match parts.last() {
        Some(part) => matches!(part.call, Call::Firm) && part.result.is_ok(),
        None => false,
    }
}

/// Whether what is left is allowed, and each answer has its cause.
fn judge(alloc: Global, case: &Case, ended: &Ended) -> Result<(), Breach> {
    for part in &ended.parts {
        causes(part, &ended.left.calls)?;
        marks_first(part, &ended.left.calls, case.form.copies as u64)?;
    }
    let left = &ended.left;
    let marks = marks_on(alloc, &left.copies)?;
    let log = log_calls(left);
    let may_stray = matches!(case.tried, Tried::Start);
    if log.strays && !may_stray {
        return Err(Breach::Marks);
    }
    if (!log.went_wrong || is_firm(&ended.parts)) && !all_show(&marks, left.stage.bits) {
        return Err(Breach::Marks);
    }
    let made = before(alloc, &case.form, &case.start).ok_or(Breach::NoRegion)?;
    allows_all(&left.stage, &marks, &left.plexes, &ended.history, &made)
}

/// The device call that went wrong by the fault, if there was one.
fn wrong_step(left: &Left, fault: Fault) -> Option<Step> {
    for call in &left.calls {
        if call.step.number == fault.at {
            return Some(call.step);
        }
    }
    None
}

/// The last state that the region was started again from, and the device that was gone.
pub type Last = Option<(Ended, Gone)>;

/// Makes the trial. The device call that went wrong, if the call made so many.
pub fn attempt(
    alloc: Global,
    case: &Case,
    fault: Fault,
    follow: Follow,
    last: &mut Last,
) -> Result<Option<Step>, Breach> {
    let mut fault = fault;
    let ended = match case.tried {
        Tried::Start => run_start(alloc, case, fault)?,
        Tried::Call(call) => {
            fault = shifted(fault, case.before);
            run_call(alloc, case, call, fault, follow)?
        }
    };
    judge(alloc, case, &ended)?;
    let wrong = wrong_step(&ended.left, fault);
    restarts(alloc, case, ended, gone_by(fault.kind, wrong), last)?;
    Ok(wrong)
}

/// The device that stays broken.
fn gone_by(kind: Kind, wrong: Option<Step>) -> Gone {
    match wrong {
        Some(step) if kind == Kind::Ever => Some(step.device),
        _ => None,
    }
}

/// Starts the region again, and once more without the device that is gone, unless the trial before has left the same.
fn restarts(
    alloc: Global,
    case: &Case,
    ended: Ended,
    gone: Gone,
    last: &mut Last,
) -> Result<(), Breach> {
    if let Some((earlier, without)) = &*last {
        if *without == gone && ended.leaves_same(earlier) {
            return Ok(());
        }
    }
    let made = before(alloc, &case.form, &case.start).ok_or(Breach::NoRegion)?;
    each_restart(alloc, case, &ended, &made, None)?;
    if gone.is_some() {
        each_restart(alloc, case, &ended, &made, gone)?;
    }
    *last = Some((ended, gone));
    Ok(())
}

/// Starts the region again from each copy alone and from all together, without the device that is gone.
fn each_restart(
    alloc: Global,
    case: &Case,
    ended: &Ended,
    made: &Vec<Held>,
    gone: Gone,
) -> Result<(), Breach> {
    for choice in 0..3_u8 {
        restart(
            alloc,
            &case.form,
            &ended.left,
            &ended.history,
            made,
            gone,
            choice,
        )?;
    }
    Ok(())
}
