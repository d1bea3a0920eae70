use crate::fault::End;
use crate::trace::{Called, On};
use std::fmt;
use vx_cell::{CellFault, Place};
use vx_core::Phase;

/// What a row prints of an answer, of a set of maps, or of a device call.
#[derive(Clone, Copy)]
pub enum Shown {
    Answer(Result<u64, CellFault>),
    Maps(u64),
    Called(Called),
    Phase(Phase),
}

fn put_maps<W: fmt::Write>(mask: u64, f: &mut fmt::Formatter<W>) -> fmt::Result {
    write!(f, "{{")?;
    let mut some = false;
    for map in 0..64 {
        if vx_mask::contains(mask, map) {
            if some {
                write!(f, " ")?;
            }
            some = true;
            write!(f, "{map}")?;
        }
    }
    write!(f, "}}")
}

fn put_answer<W: fmt::Write>(
    answer: Result<u64, CellFault>,
    f: &mut fmt::Formatter<W>,
) -> fmt::Result {
    match answer {
        Ok(number) => write!(f, "ok {number}"),
        Err(CellFault::Fault(Place::Data { map, piece, device })) => {
            write!(f, "fault at plex {map}, piece {piece}, device {device}")
        }
        Err(CellFault::Fault(Place::Log { copy, device })) => {
            write!(f, "fault at the log, copy {copy}, device {device}")
        }
        Err(CellFault::PowerLost) => write!(f, "power lost"),
        Err(CellFault::Held) => write!(f, "held"),
        Err(CellFault::Only(map)) => write!(f, "only plex {map}"),
    }
}

fn put_called<W: fmt::Write>(call: Called, f: &mut fmt::Formatter<W>) -> fmt::Result {
    let word = if call.step.is_write { "write" } else { "read" };
    match call.on {
        On::Plex(map) => write!(
            f,
            "{word} plex {map} at {} {}",
            call.step.sector, call.step.count
        )?,
        On::Log {
            copy,
            map: Some(map),
        } => write!(f, "{word} log {copy} map {map}")?,
        On::Log { copy, map: None } => write!(f, "{word} log {copy} sector {}", call.step.sector)?,
    }
    match call.step.end {
        End::Done => Ok(()),
        End::Failed => write!(f, " failed"),
        End::Lost => write!(f, " lost"),
    }
}

impl fmt::Display for Shown {
    fn fmt<W: fmt::Write>(&self, f: &mut fmt::Formatter<W>) -> fmt::Result {
        match self {
            Shown::Answer(result) => put_answer(*result, f),
            Shown::Maps(mask) => put_maps(*mask, f),
            Shown::Called(call) => put_called(*call, f),
            Shown::Phase(Phase::Settled) => write!(f, "settled"),
            Shown::Phase(Phase::Unsettled) => write!(f, "unsettled"),
            Shown::Phase(Phase::Dead) => write!(f, "dead"),
            Shown::Phase(Phase::Busy(_)) => write!(f, "busy"),
        }
    }
}
