ghost use Rattle.std.specs.Prelude.{◌≡◌, ◌<◌, ◌≤◌, length, map, IfOk};
ghost use Rattle.vx_base.specs.Named.{Word};
ghost use Rattle.vx_copies.specs.Lists.{Each, AllOf};
ghost use Rattle.vx_import.specs.Looks.{looked, IsPrivate};
ghost use Rattle.vx_import.specs.Choice.{TakenIs};
ghost use Rattle.vx_import.specs.Toggles.{IsUnread, Inspects, ReadBy};
ghost use Rattle.vx_import.specs.Answers.{IsOf, IsRising, Answers, IsNewestOf};

use crate::choosing::Taken;
use crate::device::GroupDevice;
use crate::judging::{Given, ImportFault, judge};
use crate::taking::take_text;
use crate::toggles::{Passed, read_toggles};
use std::alloc::Global;
use vx_base::OutOfMemory;
use vx_header::MOST_TEXT;
use vx_piece::Piece;

/// What the devices of a group give: the text of the highest toggle among those that can be read. The devices are whole
/// ones, one for each slot in rising order, and no read of them has failed yet. Nothing is written, and no device is read
/// again once a read of it has failed. The text is not taken where its toggle names a device that is damaged, or a slot
/// without a device that can be read; where both are so the damage is told. Takes 522,240 bytes before the first read and
/// gives them back, and for a text that is taken or told as much as it needs.
pub fn inspect<P: Piece>(alloc: Global, found: &mut [GroupDevice<P>]) -> Result<Given, ImportFault>
    requires few { length found.old ≤ 32 }
    requires private { AllOf IsPrivate (map (looked P.seen) found.old) }
    requires unread { AllOf IsUnread (map (looked P.seen) found.old) }
    requires rising { IsRising (map (looked P.seen) found.old) }
    ensures inspects { Each Inspects (map (looked P.seen) found.old) (map (looked P.seen) found.new) }
    ensures answers { (group : Word) → AllOf (IsOf group) (map (looked P.seen) found.old) → Answers result group (map (looked P.seen) found.new) }
    ensures newest { (group : Word) → AllOf (IsOf group) (map (looked P.seen) found.old) → IfOk result (λ g. IsNewestOf group g.sequence (map (looked P.seen) found.new)) }
{
    let Ok(buffer) = text_room(alloc) else {
        return Err(ImportFault::OutOfMemory);
    };
    let mut buffer = buffer;
    let taken = take_newest(found, &mut buffer);
    judge(alloc, found, taken, &buffer)
}

fn text_room(alloc: Global) -> Result<Vec<u8>, OutOfMemory>
    ensures { IfOk result (λ buffer. length buffer.items ≡ 522240) }
{
    match vec![in alloc; 0u8; MOST_TEXT as usize] {
        Ok(buffer) => Ok(buffer),
        Err(_) => Err(OutOfMemory),
    }
}

/// Reads the toggles, and then the text of the highest of them into a buffer.
fn take_newest<P: Piece>(found: &mut [GroupDevice<P>], buffer: &mut [u8]) -> Taken
    requires few { length found.old ≤ 32 }
    requires private { AllOf IsPrivate (map (looked P.seen) found.old) }
    requires unread { AllOf IsUnread (map (looked P.seen) found.old) }
    requires room { length buffer.old ≡ 522240 }
    ensures room { length buffer.new ≡ 522240 }
    ensures inspects { Each Inspects (map (looked P.seen) found.old) (map (looked P.seen) found.new) }
    ensures taken { TakenIs result buffer.new (map (looked P.seen) found.new) }
    ensures read { ReadBy result (map (looked P.seen) found.new) }
{
    let mut sector = [0; 512];
    match read_toggles(found, &mut sector) {
        Passed::Done => take_text(found, buffer),
        Passed::Cut => Taken::Cut,
    }
}
