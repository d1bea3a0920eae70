use std::fmt;
use vx_cell::{CellFault, Place};
use vx_core::Phase;

/// What a row prints of an answer or of a set of maps.
#[derive(Clone, Copy)]
pub enum Shown {
    Answer(Result<u64, CellFault>),
    Maps(u64),
}

fn maps<W: fmt::Write>(mask: u64, f: &mut fmt::Formatter<W>) -> fmt::Result {
    write!(f, "{{")?;
    let mut some = false;
    for map in 0..64 {
        if vx_mask::contains(mask, map) {
            if some {
                write!(f, " ")?;
            }
            some = true;
            write!(f, "{map}")?;
        }
    }
    write!(f, "}}")
}

impl fmt::Display for Shown {
    fn fmt<W: fmt::Write>(&self, f: &mut fmt::Formatter<W>) -> fmt::Result {
        match self {
            Shown::Maps(mask) => maps(*mask, f),
            Shown::Answer(Ok(number)) => write!(f, "ok {number}"),
            Shown::Answer(Err(CellFault::Fault(Place::Data { map, piece, device }))) => {
                write!(f, "fault at plex {map}, piece {piece}, device {device}")
            }
            Shown::Answer(Err(CellFault::Fault(Place::Log { copy, device }))) => {
                write!(f, "fault at the log, copy {copy}, device {device}")
            }
            Shown::Answer(Err(CellFault::PowerLost)) => write!(f, "power lost"),
            Shown::Answer(Err(CellFault::Held)) => write!(f, "held"),
            Shown::Answer(Err(CellFault::Only(map))) => write!(f, "only plex {map}"),
        }
    }
}

pub fn phase_name(phase: Phase) -> &'static str {
    match phase {
        Phase::Settled => "settled",
        Phase::Unsettled => "unsettled",
        Phase::Dead => "dead",
        Phase::Busy(_) => "busy",
    }
}
