ghost use Rattle.std.specs.Prelude.{◌≡◌, ◌+◌, ◌-◌, ◌<◌, ◌≤◌, length, map, true};
ghost use Rattle.vx_copies.specs.Lists.{Each, AllOf};
ghost use Rattle.vx_import.specs.Looks.{looked, IsPrivate};
ghost use Rattle.vx_import.specs.Toggles.{IsUnread, Passes, PassedOne, PassedAll};

use crate::device::GroupDevice;
use crate::reading::read_toggle;
use vx_piece::{Piece, PieceFault};

/// How the reading of toggles ended.
#[derive(Clone, Copy, Debug, PartialEq, Eq)]
pub enum Passed {
    Done,
    /// The power is gone.
    Cut,
}

/// Reads the toggle of each device of a group, once. Where a read fails the device cannot be read any more.
pub fn read_toggles<P: Piece>(found: &mut [GroupDevice<P>], sector: &mut [u8]) -> Passed
    requires private { AllOf IsPrivate (map (looked P.seen) found.old) }
    requires unread { AllOf IsUnread (map (looked P.seen) found.old) }
    requires size { length sector.old ≡ 512 }
    ensures size { length sector.new ≡ 512 }
    ensures passes { Each Passes (map (looked P.seen) found.old) (map (looked P.seen) found.new) }
    ensures ends { PassedAll result (map (looked P.seen) found.new) }
{
    let mut i = 0;
    'devices: while i < found.len() {
        let one = &mut found[i];
        match add_toggle(one, sector) {
            Passed::Done => {}
            Passed::Cut => return Passed::Cut,
        }
        i += 1;
    }
    Passed::Done
}

fn add_toggle<P: Piece>(found: &mut GroupDevice<P>, sector: &mut [u8]) -> Passed
    requires private { 2048 ≤ (P.seen found.old.piece).sectors }
    requires readable { found.old.readable ≡ true }
    requires size { length sector.old ≡ 512 }
    ensures size { length sector.new ≡ 512 }
    ensures passes { Passes (looked P.seen found.old) (looked P.seen found.new) }
    ensures ends { PassedOne result (looked P.seen found.new) }
{
    match read_toggle(&mut found.piece, sector) {
        Ok(reading) => {
            found.reading = reading;
            Passed::Done
        }
        Err(PieceFault::Failed) => {
            found.readable = false;
            Passed::Done
        }
        Err(PieceFault::PowerLost) => Passed::Cut,
    }
}
