//! Why a call was answered as it was, by its device calls, and which marks were there before its blocks were written.

use crate::breach::Breach;
use crate::call::{Call, Range};
use crate::fault::End;
use crate::region::START;
use crate::trace::{Called, On};
use vx_cell::{CellFault, Place};
use vx_core::Stage;

/// A call, the stage before it, the numbers of its device calls, and its answer.
#[derive(Clone, Copy)]
pub struct Part {
    pub call: Call,
    pub stage: Stage,
    pub first: u64,
    pub behind: u64,
    pub result: Result<u64, CellFault>,
}

impl Part {
    fn has(&self, call: &Called) -> bool {
        call.step.number >= self.first && call.step.number < self.behind
    }
}

/// Whether a fault has its cause: its place is that of the first device call that failed; and a read, a write and a settling
/// fail only where a call on the log did, or one on each plex that was current.
fn blames(part: &Part, place: Place, calls: &Vec<Called>) -> bool {
    let mut first = None;
    let mut failed = 0;
    let mut log_failed = false;
    for call in calls {
        if part.has(call) && call.step.end == End::Failed {
            if first.is_none() {
                first = Some(call);
            }
            match call.on {
                On::Plex(map) => failed = vx_mask::with(failed, vx_mask::of(map as u32)),
                On::Log { copy: _, map: _ } => log_failed = true,
            }
        }
    }
    let Some(call) = first else {
        return false;
    };
    let current = vx_mask::less(part.stage.on, part.stage.bits);
    let all = log_failed || vx_mask::less(current, failed) == 0;
    let is_plain = !matches!(part.call, Call::Copy(_) | Call::Clear);
    is_at(call, place) && (all || !is_plain)
}

fn is_at(call: &Called, place: Place) -> bool {
    match (call.on, place) {
        (
            On::Plex(map),
            Place::Data {
                map: blamed,
                piece,
                device,
            },
        ) => { map == blamed && piece == 0 && device == call.step.device }
        (
            On::Log { copy, map: _ },
            Place::Log {
                copy: blamed,
                device,
            },
        ) => { copy == blamed && device == call.step.device }
        _ => false,
    }
}

/// Whether the power went in the call, and no device call came after.
fn is_lost(part: &Part, calls: &Vec<Called>) -> bool {
    let mut lost = false;
    for call in calls {
        if part.has(call) {
            lost = call.step.end == End::Lost && call.step.number.saturating_add(1) == part.behind;
        }
    }
    lost
}

/// Whether the answer has its cause.
pub fn causes(part: &Part, calls: &Vec<Called>) -> Result<(), Breach> {
    match part.result {
        Ok(_) => Ok(()),
        Err(CellFault::Fault(place)) if blames(part, place, calls) => Ok(()),
        Err(CellFault::PowerLost) if is_lost(part, calls) => Ok(()),
        Err(CellFault::PowerLost) => Err(Breach::Power),
        Err(_) => Err(Breach::Blames),
    }
}

fn is_block_write(call: &Called, range: Range) -> bool {
    matches!(call.on, On::Plex(_))
        && call.step.is_write
        && call.step.sector == range.at.saturating_sub(START)
        && call.step.count == range.count
}

/// How many copies a mark was written on before this device call.
fn written(part: &Part, calls: &Vec<Called>, before: u64, map: u32) -> u64 {
    let mut copies: u64 = 0;
    for call in calls {
        if let On::Log {
            copy: _,
            map: Some(at),
        } = call.on
        {
            let is_early = call.step.number < before && call.step.end == End::Done;
            if part.has(call) && is_early && at == map as u64 {
                copies = copies.saturating_add(1);
            }
        }
    }
    copies
}

/// Whether each mark that the write lacked was on every copy before a block of it was written.
pub fn marks_first(part: &Part, calls: &Vec<Called>, copies: u64) -> Result<(), Breach> {
    let (Call::Write(range, _) | Call::WriteDirty(range, _)) = part.call else {
        return Ok(());
    };
    let all = vx_mask::with(part.stage.snaps, part.stage.off);
    let needed = vx_mask::with(all, vx_mask::of(vx_mask::DIRTY));
    let lacked = vx_mask::less(needed, part.stage.bits);
    for call in calls {
        if part.has(call) && is_block_write(call, range) {
            for map in 0..32 {
                if vx_mask::contains(lacked, map)
                    && written(part, calls, call.step.number, map) < copies
                {
                    return Err(Breach::Early);
                }
            }
        }
    }
    Ok(())
}
