ghost use Rattle.std.specs.Prelude.{◌≡◌, ◌<◌, ◌^◌, length, map};
ghost use Rattle.vx_header.specs.Said.{said_of};
ghost use Rattle.vx_copies.specs.Lists.{Each, AllOf};
ghost use Rattle.vx_import.specs.Looks.{looked, IsPrivate, Reads};
ghost use Rattle.vx_import.specs.Choice.{IsTop, TakenIs};
ghost use Rattle.vx_import.specs.Tries.{TriesIs};

use crate::choosing::{Best, Taken, Tried, choose, take_one};
use crate::device::GroupDevice;
use vx_piece::Piece;

/// Takes the text of the highest sequence among the devices that can be read, into the front of a buffer that has room
/// for any text. None where its read failed: the device cannot be read any more, and one may try again.
pub fn try_best<P: Piece>(found: &mut [GroupDevice<P>], buffer: &mut [u8]) -> Option<Taken>
    requires few { length found.old < 2 ^ 64 }
    requires private { AllOf IsPrivate (map (looked P.seen) found.old) }
    requires room { length buffer.old ≡ 522240 }
    ensures room { length buffer.new ≡ 522240 }
    ensures reads { Each Reads (map (looked P.seen) found.old) (map (looked P.seen) found.new) }
    ensures ends { TriesIs result buffer.new (map (looked P.seen) found.old) (map (looked P.seen) found.new) }
{
    match choose(found) {
        Some(best) => try_at(found, best, buffer),
        None => Some(Taken::Nothing),
    }
}

fn try_at<P: Piece>(found: &mut [GroupDevice<P>], best: Best, buffer: &mut [u8]) -> Option<Taken>
    requires inside { best.index < length found.old }
    requires top { IsTop best.index (said_of best.toggle) (map (looked P.seen) found.old) }
    requires private { AllOf IsPrivate (map (looked P.seen) found.old) }
    requires room { length buffer.old ≡ 522240 }
    ensures room { length buffer.new ≡ 522240 }
    ensures reads { Each Reads (map (looked P.seen) found.old) (map (looked P.seen) found.new) }
    ensures ends { TriesIs result buffer.new (map (looked P.seen) found.old) (map (looked P.seen) found.new) }
{
    let index = best.index;
    let one = &mut found[index];
    match take_one(one, &best.toggle, buffer) {
        Tried::Done => Some(Taken::Text(best)),
        Tried::Cut => Some(Taken::Cut),
        Tried::Dropped => None,
    }
}

/// Takes the text of the highest sequence among the devices that can be read. Where a read fails the device cannot be
/// read any more, and the choice starts again. The text stands at the front of the buffer, which has room for any text.
pub fn take_text<P: Piece>(found: &mut [GroupDevice<P>], buffer: &mut [u8]) -> Taken
    requires few { length found.old < 2 ^ 64 }
    requires private { AllOf IsPrivate (map (looked P.seen) found.old) }
    requires room { length buffer.old ≡ 522240 }
    ensures room { length buffer.new ≡ 522240 }
    ensures reads { Each Reads (map (looked P.seen) found.old) (map (looked P.seen) found.new) }
    ensures taken { TakenIs result buffer.new (map (looked P.seen) found.new) }
{
    'tries: loop {
        match try_best(found, buffer) {
            Some(taken) => return taken,
            None => {}
        }
    }
}
