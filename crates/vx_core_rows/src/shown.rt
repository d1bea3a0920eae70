use std::fmt;
use vx_core::{Act, Phase};

/// What a row prints of an act or of a set of maps.
#[derive(Clone, Copy)]
pub enum Shown {
    Act(Act),
    Maps(u64),
}

fn maps<W: fmt::Write>(mask: u64, f: &mut fmt::Formatter<W>) -> fmt::Result {
    write!(f, "{{")?;
    let mut some = false;
    for map in 0..64 {
        if vx_mask::contains(mask, map) {
            if some {
                write!(f, " ")?;
            }
            some = true;
            write!(f, "{map}")?;
        }
    }
    write!(f, "}}")
}

impl fmt::Display for Shown {
    fn fmt<W: fmt::Write>(&self, f: &mut fmt::Formatter<W>) -> fmt::Result {
        match self {
            Shown::Maps(mask) => maps(*mask, f),
            Shown::Act(Act::Mark(mask)) => {
                write!(f, "Mark")?;
                maps(*mask, f)
            }
            Shown::Act(Act::Unmark(mask)) => {
                write!(f, "Unmark")?;
                maps(*mask, f)
            }
            Shown::Act(Act::ReadCall(mask)) => {
                write!(f, "ReadCall")?;
                maps(*mask, f)
            }
            Shown::Act(act) => write!(f, "{act:?}"),
        }
    }
}

pub fn phase_name(phase: Phase) -> &'static str {
    match phase {
        Phase::Settled => "settled",
        Phase::Unsettled => "unsettled",
        Phase::Dead => "dead",
        Phase::Busy(_) => "busy",
    }
}
