ghost use Rattle.std.specs.Prelude.{◌≡◌, ℕ, ◌<◌, ◌≤◌, ◌^◌, ◌/◌, ◌==◌, if◌then◌else◌, MatchResult, IfOk, Ok, Err, Bool, true, false, length, ◌∷◌, ◌++◌, []};
ghost use Rattle.vx_script.specs.Lines.{bad_word};
ghost use Rattle.vx_script.specs.Place.{IsPlace};
ghost use Rattle.vx_script_forms.specs.Table.{commands, calls, acts};
ghost use Rattle.vx_script.specs.Steps.{opened, opened_by, command_step, or_bad, closed_step, making_step, administered, called, line_behind, line_of_session, session_line, call_sectors, line_calls, line_sectors, added, ended, inside_step, open_step, step};
ghost use Rattle.vx_script_words.specs.Gives.{Fails};

use crate::choice::choose;
use crate::lines::{bad_word, is_passed_over};
use crate::reader::{Open, Reader};
use crate::{Command, Commands};
use std::alloc::Global;
use vx_base::OutOfMemory;
use vx_names::Name;
use vx_script_forms::{
    ACTS, Admin, Block, Boxed, Bytes, CALLS, COMMANDS, Call, Form, Line, Lines, form_of, group_of,
    maybe_boxed,
};
use vx_script_words::{LineFault, Value, first_word, from_word, number_within, past_word};

/// What a line does. The vector of values is room that serves line by line.
#[tactic(auto, unfolding(crate::specs::Steps::step))]
pub fn step(
    alloc: Global,
    values: &mut Vec<Value>,
    reader: Reader,
    line: &[u8],
) -> Result<Reader, LineFault>
    ensures { MatchResult result (λ next. step reader line.now ≡ Ok next) (λ stop. Fails stop (step reader line.now)) }
{
    let Reader { done, begun } = reader;
    match begun {
        Open::Closed => closed_step(alloc, values, done, line),
        Open::Making { group, cut, text } => making_step(done, group, cut, text, line),
        Open::Inside {
            cut,
            sessions,
            lines,
            calls,
            sectors,
        } => inside_step(
            alloc, values, done, cut, sessions, lines, calls, sectors, line,
        ),
    }
}

fn or_bad(reader: Reader, line: &[u8]) -> Result<Reader, LineFault>
    ensures { MatchResult result (λ next. or_bad (bad_word line.now) reader ≡ Ok next) (λ stop. Fails stop (or_bad (bad_word line.now) reader)) }
{
    match bad_word(line) {
        None => Ok(reader),
        Some(left) => Err(LineFault::Left(left)),
    }
}

fn closed_step(
    alloc: Global,
    values: &mut Vec<Value>,
    done: Commands,
    line: &[u8],
) -> Result<Reader, LineFault>
    ensures { MatchResult result (λ reader. closed_step done line.now ≡ Ok reader) (λ stop. Fails stop (closed_step done line.now)) }
{
    if is_passed_over(line) {
        let begun = Open::Closed;
        return or_bad(Reader { done, begun }, line);
    }
    command_step(alloc, values, done, line)
}

/// A command line. What the parts of a kind give is always a form of that kind, so the line is refused only where no
/// kind fits it: then what is left begins with the first word that no command line with the same earlier words has.
#[tactic(auto, unfolding(crate::specs::Steps::command_step))]
fn command_step(
    alloc: Global,
    values: &mut Vec<Value>,
    done: Commands,
    line: &[u8],
) -> Result<Reader, LineFault>
    ensures value { MatchResult result (λ reader. command_step done line.now ≡ Ok reader) (λ stop. Fails stop (command_step done line.now)) }
    ensures place { (left : ℕ) → command_step done line.now ≡ Err left → IsPlace true commands line.now left }
{
    let chosen = choose(alloc, true, &COMMANDS, values, line)?;
    let Some(group) = group_of(values.as_slice()) else {
        return Err(LineFault::Left(0));
    };
    let Some(form) = form_of(alloc, chosen.kind, values.as_slice())? else {
        return Err(LineFault::Left(0));
    };
    Ok(opened(alloc, done, group, form, chosen.cut)?)
}

fn opened(
    alloc: Global,
    done: Commands,
    group: Option<Name>,
    form: Form,
    cut: Option<u64>,
) -> Result<Reader, OutOfMemory>
    ensures { IfOk result (λ reader. reader ≡ opened done group form cut) }
{
    let group = maybe_boxed(alloc, group)?;
    match form {
        Form::VxMake { .. } => {
            let text = Bytes::from_vec(Vec::new(alloc));
            let begun = Open::Making { group, cut, text };
            Ok(Reader { done, begun })
        }
        Form::Sessions(block) => {
            let begun = Open::Inside {
                cut,
                sessions: block.sessions,
                lines: Lines::from_vec(Vec::new(alloc)),
                calls: 0,
                sectors: 0,
            };
            Ok(Reader { done, begun })
        }
        form => with_command(done, Command { group, form, cut }),
    }
}

fn with_command(done: Commands, command: Command) -> Result<Reader, OutOfMemory>
    ensures { IfOk result (λ reader. reader ≡ record { done = done ++ command ∷ []; begun = Open.Closed }) }
{
    let mut done = done;
    done.push(command)?;
    let begun = Open::Closed;
    Ok(Reader { done, begun })
}

fn making_step(
    done: Commands,
    group: Option<Boxed<Name>>,
    cut: Option<u64>,
    text: Bytes,
    line: &[u8],
) -> Result<Reader, LineFault>
    ensures { MatchResult result (λ reader. making_step done group cut text line.now ≡ Ok reader) (λ stop. Fails stop (making_step done group cut text line.now)) }
{
    if line == b"end".as_slice() {
        let form = Form::VxMake { text };
        return Ok(with_command(done, Command { group, form, cut })?);
    }
    let text = with_line(text, line)?;
    let begun = Open::Making { group, cut, text };
    or_bad(Reader { done, begun }, line)
}

fn with_line(text: Bytes, line: &[u8]) -> Result<Bytes, OutOfMemory>
    ensures { IfOk result (λ more. more ≡ text ++ line.now ++ 10 ∷ []) }
{
    let mut text = text;
    text.extend(line)?;
    text.extend(b"\n")?;
    Ok(text)
}

fn inside_step(
    alloc: Global,
    values: &mut Vec<Value>,
    done: Commands,
    cut: Option<u64>,
    sessions: u32,
    lines: Lines,
    calls: u64,
    sectors: u64,
    line: &[u8],
) -> Result<Reader, LineFault>
    ensures { MatchResult result (λ reader. inside_step done cut sessions lines calls sectors line.now ≡ Ok reader) (λ stop. Fails stop (inside_step done cut sessions lines calls sectors line.now)) }
{
    if is_passed_over(line) {
        let begun = Open::Inside {
            cut,
            sessions,
            lines,
            calls,
            sectors,
        };
        return or_bad(Reader { done, begun }, line);
    }
    let text = from_word(line);
    if first_word(text) == b"end".as_slice() {
        return ended(done, cut, sessions, lines, past_word(text));
    }
    let read = session_line(alloc, values, sessions, text)?;
    added(done, cut, sessions, lines, calls, sectors, line.len(), read)
}

fn ended(
    done: Commands,
    cut: Option<u64>,
    sessions: u32,
    lines: Lines,
    rest: &[u8],
) -> Result<Reader, LineFault>
    ensures { MatchResult result (λ reader. ended done cut sessions lines rest.now ≡ Ok reader) (λ stop. Fails stop (ended done cut sessions lines rest.now)) }
{
    let rest = from_word(rest);
    match rest {
        [] => {
            let form = Form::Sessions(Block { sessions, lines });
            let group = None;
            Ok(with_command(done, Command { group, form, cut })?)
        }
        _ => Err(LineFault::Left(rest.len())),
    }
}

#[tactic(auto, unfolding(crate::specs::Steps::session_line))]
fn session_line(
    alloc: Global,
    values: &mut Vec<Value>,
    sessions: u32,
    text: &[u8],
) -> Result<Line, LineFault>
    ensures { MatchResult result (λ reader. session_line sessions text.now ≡ Ok reader) (λ stop. Fails stop (session_line sessions text.now)) }
{
    match number_within(0, sessions as u64, first_word(text)) {
        None => Err(LineFault::Left(text.len())),
        Some(session) => line_behind(alloc, values, session as u32, past_word(text)),
    }
}

/// What follows the session. What the parts of a kind give is an act or a call, so here, too, a refusal is at the first
/// word that no act, or no call, with the same earlier words has.
#[tactic(auto, unfolding(crate::specs::Steps::line_behind))]
fn line_behind(
    alloc: Global,
    values: &mut Vec<Value>,
    session: u32,
    text: &[u8],
) -> Result<Line, LineFault>
    ensures value { MatchResult result (λ reader. line_behind session text.now ≡ Ok reader) (λ stop. Fails stop (line_behind session text.now)) }
    ensures place { (left : ℕ) → line_behind session text.now ≡ Err left → IsPlace false (if session == 0 then acts else calls) text.now left }
{
    if session == 0 {
        act_line(alloc, values, text)
    } else {
        call_line(alloc, values, session, text)
    }
}

#[tactic(auto, unfolding(crate::specs::Steps::line_behind))]
fn act_line(alloc: Global, values: &mut Vec<Value>, text: &[u8]) -> Result<Line, LineFault>
    ensures { MatchResult result (λ reader. line_behind 0 text.now ≡ Ok reader) (λ stop. Fails stop (line_behind 0 text.now)) }
{
    let chosen = choose(alloc, false, &ACTS, values, text)?;
    let Some(group) = group_of(values.as_slice()) else {
        return Err(LineFault::Left(0));
    };
    let Some(form) = form_of(alloc, chosen.kind, values.as_slice())? else {
        return Err(LineFault::Left(0));
    };
    match form {
        Form::Acting(act) => {
            let group = maybe_boxed(alloc, group)?;
            Ok(Line::Administer(Admin { group, act }))
        }
        _ => Err(LineFault::Left(0)),
    }
}

#[tactic(auto, unfolding(crate::specs::Steps::line_behind))]
fn call_line(
    alloc: Global,
    values: &mut Vec<Value>,
    session: u32,
    text: &[u8],
) -> Result<Line, LineFault>
    requires { 0 < session }
    ensures { MatchResult result (λ reader. line_behind session text.now ≡ Ok reader) (λ stop. Fails stop (line_behind session text.now)) }
{
    let chosen = choose(alloc, false, &CALLS, values, text)?;
    match form_of(alloc, chosen.kind, values.as_slice())? {
        Some(Form::Calling(call)) => Ok(Line::Session { session, call }),
        _ => Err(LineFault::Left(0)),
    }
}

fn call_sectors(call: &Call) -> u64
    ensures { result ≡ call_sectors call.now }
{
    match call {
        Call::Read { count, .. } => *count,
        Call::Fill { count, .. } => *count,
        Call::Data { blocks, .. } => blocks.count() as u64,
    }
}

fn line_sectors(line: &Line) -> u64
    ensures { result ≡ line_sectors line.now }
{
    match line {
        Line::Session { call, .. } => call_sectors(call),
        Line::Administer(_) => 0,
    }
}

fn line_calls(line: &Line) -> u64
    ensures value { result ≡ line_calls line.now }
    ensures few { result ≤ 1 }
{
    match line {
        Line::Session { .. } => 1,
        Line::Administer(_) => 0,
    }
}

/// A line more of a block, unless it would pass the block's calls or sectors.
fn added(
    done: Commands,
    cut: Option<u64>,
    sessions: u32,
    lines: Lines,
    calls: u64,
    sectors: u64,
    whole: usize,
    line: Line,
) -> Result<Reader, LineFault>
    ensures { MatchResult result (λ reader. added done cut sessions lines calls sectors whole line ≡ Ok reader) (λ stop. Fails stop (added done cut sessions lines calls sectors whole line)) }
{
    let calls = calls.saturating_add(line_calls(&line));
    let sectors = sectors.saturating_add(line_sectors(&line));
    if calls > 65_536 || sectors > 262_144 {
        return Err(LineFault::Left(whole));
    }
    let mut lines = lines;
    lines.push(line)?;
    let begun = Open::Inside {
        cut,
        sessions,
        lines,
        calls,
        sectors,
    };
    Ok(Reader { done, begun })
}
