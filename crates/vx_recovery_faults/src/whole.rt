//! What a run has left is recovered with nothing that fails, read from each plex, stopped and let go, and judged.
use crate::counts::Bounds;
use crate::model::Model;
use crate::outlook::Outlook;
use crate::reply::{Reply, judge_status, replies_of};
use crate::scenario::Scenario;
use crate::seen::Seen;
use crate::sound::{look, look_at_whole};
use crate::trial::run_on;
use std::alloc::{AllocError, Global};
use vx_volume_judge::Finding;

/// What is wanted of an answer: that it is this one, or that it is ok.
#[derive(Drop)]
enum Want {
    Exactly(String),
    Ok,
}

impl Want {
    fn is_met(&self, reply: &Reply<'_>) -> bool {
        match self {
            Want::Exactly(wanted) => wanted.as_str() == reply.line,
            Want::Ok => reply.is_ok(),
        }
    }
}

/// A line of the script, and what is wanted of its answer.
#[derive(Drop)]
struct Ask {
    line: String,
    want: Want,
}

/// Recovers what these devices hold, on which nothing stands against that, and judges it.
pub fn recover_surely(
    alloc: Global,
    scenario: &Scenario,
    images: &[&[u8]],
    model: &mut Model,
) -> Result<(), Finding> {
    if recover_all(alloc, scenario, images, model)? {
        Ok(())
    } else {
        Err(Finding::Unrecoverable)
    }
}

/// Recovers what these devices hold, with nothing that fails, and judges that. It is read as often as it has plexes, so from each of them. It
/// tells whether that was not refused.
pub fn recover_all(
    alloc: Global,
    scenario: &Scenario,
    images: &[&[u8]],
    model: &mut Model,
) -> Result<bool, Finding> {
    let seen = Seen::on(alloc, &scenario.shape, images)?;
    let outlook = Outlook::of(alloc, &seen)?;
    let asks = asks_of(alloc, &outlook, &seen)?;
    let script = script_of(alloc, asks.as_slice())?;
    let ran = run_on(alloc, images, &[], script.as_str())?;
    let replies = replies_of(alloc, ran.answers())?;
    judge_status(replies.as_slice(), ran.status)?;
    judge_replies(asks.as_slice(), replies.as_slice(), model)?;
    judge_view(&outlook, &seen, replies.as_slice())?;
    let left = ran.images(alloc)?;
    let after = Seen::on(alloc, &scenario.shape, left.as_slice())?;
    look(&after, model)?;
    match outlook {
        Outlook::Recovers | Outlook::Empty => look_at_whole(&after)?,
        _ => {}
    }
    Ok(!outlook.is_refused())
}

/// The commands.
fn asks_of(alloc: Global, outlook: &Outlook, seen: &Seen<'_>) -> Result<Vec<Ask>, AllocError> {
    let mut asks = Vec::new(alloc);
    if let Outlook::NoImport(answer) = outlook {
        let want = Want::Exactly(String::from_str(alloc, answer.as_str())?);
        push(alloc, &mut asks, "vxdg import dg", want)?;
        return Ok(asks);
    }
    push_ok(alloc, &mut asks, "vxdg import dg")?;
    match outlook {
        Outlook::Refused(answer) => {
            let want = Want::Exactly(String::from_str(alloc, answer.as_str())?);
            push(alloc, &mut asks, "vxrecover -s", want)?;
        }
        _ => push_ok(alloc, &mut asks, "vxrecover -s")?,
    }
    match outlook {
        Outlook::Empty => push(alloc, &mut asks, "vxvol start v", Want::Ok)?,
        _ => {}
    }
    if outlook.is_read() {
        push_reads(alloc, &mut asks, seen)?;
        push_ok(alloc, &mut asks, "vxvol stop v")?;
    }
    push_ok(alloc, &mut asks, "vxdg deport dg")?;
    Ok(asks)
}

/// Reads of the whole volume, one for each plex, and the stop.
fn push_reads(alloc: Global, asks: &mut Vec<Ask>, seen: &Seen<'_>) -> Result<(), AllocError> {
    let line = format!(in alloc; "read v 0 {}", seen.shape.length)?;
    for _ in seen.plexes.iter() {
        push(alloc, asks, line.as_str(), Want::Ok)?;
    }
    Ok(())
}

fn push_ok(alloc: Global, asks: &mut Vec<Ask>, line: &str) -> Result<(), AllocError> {
    let want = Want::Exactly(String::from_str(alloc, "ok")?);
    push(alloc, asks, line, want)
}

fn push(alloc: Global, asks: &mut Vec<Ask>, line: &str, want: Want) -> Result<(), AllocError> {
    asks.push(Ask {
        line: String::from_str(alloc, line)?,
        want,
    })?;
    Ok(())
}

fn script_of(alloc: Global, asks: &[Ask]) -> Result<String, AllocError> {
    let mut script = String::new(alloc);
    for ask in asks {
        script.push_str(ask.line.as_str())?;
        script.push('\n')?;
    }
    Ok(script)
}

/// Each answer is as it is wanted, and what is read is among the candidates.
fn judge_replies(asks: &[Ask], replies: &[Reply<'_>], model: &mut Model) -> Result<(), Finding> {
    let mut number = 0u64;
    for (ask, reply) in asks.iter().zip(replies) {
        number = number.saturating_add(1);
        if !ask.want.is_met(reply) || !model.take_plain(ask.line.as_str(), *reply) {
            return Err(Finding::Answer(number));
        }
    }
    if asks.len() == replies.len() {
        Ok(())
    } else {
        Err(Finding::Answer(number.saturating_add(1)))
    }
}

/// A recovery tells its numbers, which are within their bounds; where there is none, none are told.
fn judge_view(outlook: &Outlook, seen: &Seen<'_>, replies: &[Reply<'_>]) -> Result<(), Finding> {
    let view = match replies.get(1) {
        Some(reply) => reply.view,
        None => "",
    };
    match outlook {
        Outlook::Recovers => Bounds::of(seen, u64::MAX, false).judge(view),
        _ if view.is_empty() => Ok(()),
        _ => Err(Finding::Counts),
    }
}
