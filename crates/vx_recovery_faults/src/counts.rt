//! The numbers that a recovery tells.
use crate::seen::Seen;
use crate::shape::{DIRTY, bit};
use vx_volume_judge::{Finding, cut, decimal};

/// In how many regions a volume is left dirty, and in how many a plex that is available is left marked.
#[derive(Clone, Copy, PartialEq, Eq)]
pub struct Left {
    pub dirty: u64,
    pub marked: u64,
}

impl Left {
    /// By what some copy of the log shows.
    pub fn of(seen: &Seen<'_>) -> Left {
        let bounds = Bounds::of(seen, u64::MAX, false);
        Left {
            dirty: bounds.dirty.1,
            marked: bounds.copied.1,
        }
    }
}

/// The bounds of the two numbers: how many regions have to be dirty and copied, and how many may be.
#[derive(Clone, Copy)]
pub struct Bounds {
    dirty: (u64, u64),
    copied: (u64, u64),
}

impl Bounds {
    /// By the marks of the disks before. What each copy of the log shows as dirty has to be made equal, and what some copy shows may be. What each
    /// copy marks of a plex that is available, also afterwards, has to be copied; what some copy marks may be, and where a device fails also
    /// what is dirty.
    pub fn of(seen: &Seen<'_>, after: u64, may_fail: bool) -> Bounds {
        let available = seen.available();
        let dirty = bit(DIRTY);
        let copied = if may_fail {
            available | dirty
        } else {
            available
        };
        let regions = 0..seen.shape.regions();
        let mut bounds = Bounds {
            dirty: (0, 0),
            copied: (0, 0),
        };
        for region in regions {
            let sure = seen.sure(region);
            let possible = seen.possible(region);
            count(&mut bounds.dirty.0, sure, dirty);
            count(&mut bounds.dirty.1, possible, dirty);
            count(&mut bounds.copied.0, sure, available & after);
            count(&mut bounds.copied.1, possible, copied);
        }
        bounds
    }

    /// Whether a line tells of a recovery within these bounds.
    pub fn judge(&self, line: &str) -> Result<(), Finding> {
        match told(line) {
            Some((dirty, copied)) if is_in(dirty, self.dirty) && is_in(copied, self.copied) => {
                Ok(())
            }
            _ => Err(Finding::Counts),
        }
    }
}

/// One more where a region has a mark among these.
fn count(number: &mut u64, marks: u64, wanted: u64) {
    if marks & wanted != 0 {
        *number = number.saturating_add(1);
    }
}

fn is_in(number: u64, bounds: (u64, u64)) -> bool {
    bounds.0 <= number && number <= bounds.1
}

/// The numbers of a line `volume v recovered D copied C`.
fn told(line: &str) -> Option<(u64, u64)> {
    let rest = line.strip_prefix("volume v recovered ")?;
    let (dirty, rest) = cut(rest, ' ')?;
    let copied = rest.strip_prefix("copied ")?;
    Some((decimal(dirty)?, decimal(copied)?))
}
