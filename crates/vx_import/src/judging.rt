ghost use Rattle.std.specs.Prelude.{◌≡◌, ◌<◌, ◌^◌, length, map, take};
ghost use Rattle.vx_base.specs.Named.{Word};
ghost use Rattle.vx_header.specs.Said.{said_of};
ghost use Rattle.vx_copies.specs.Lists.{AllOf};
ghost use Rattle.vx_import.specs.Looks.{looked, HasReading};
ghost use Rattle.vx_import.specs.Choice.{At, IsTop, HasNone, HoldsText, TakenIs};
ghost use Rattle.vx_import.specs.Toggles.{ReadBy};
ghost use Rattle.vx_import.specs.Answers.{IsOf, Answers, RefusedIs};

use crate::choosing::{Best, Taken};
use crate::device::GroupDevice;
use crate::naming::{Damage, first_damage, first_missing};
use std::alloc::Global;
use vx_confdb::Text;
use vx_names::Name;
use vx_piece::Piece;

/// The highest sequence that a group may have at its import, so that its commits never come to the end of the numbers.
const HIGHEST: u64 = 1 << 63;

/// Where the sequence of a toggle stands, from the device's start.
const SEQUENCE_BYTE: u64 = 520;

/// The configuration that the devices of a group give.
#[derive(Drop)]
pub struct Given {
    pub sequence: u64,
    /// The mask of the slots of the good disks.
    pub good: u32,
    pub text: Text,
}

/// Why the devices of a group give no configuration.
#[derive(Drop)]
pub enum ImportFault {
    OutOfMemory,
    /// The configuration names this slot, of which no device can be read.
    Missing {
        slot: u8,
        /// The configuration's text.
        text: Text,
    },
    /// No device has a configuration.
    NoGroup,
    /// The toggle of a disk is none, or its sequence is above 2^63. The byte counts from the device's start.
    Damaged {
        disk: Name,
        byte: u64,
    },
    /// The power is gone.
    PowerLost,
}

/// What the devices give, where their toggles were read and what is taken of them stands in the buffer.
pub fn judge<P: Piece>(
    alloc: Global,
    found: &[GroupDevice<P>],
    taken: Taken,
    buffer: &[u8],
) -> Result<Given, ImportFault>
    requires room { length buffer.now ≡ 522240 }
    requires taken { TakenIs taken buffer.now (map (looked P.seen) found.now) }
    requires read { ReadBy taken (map (looked P.seen) found.now) }
    ensures answers { (group : Word) → AllOf (IsOf group) (map (looked P.seen) found.now) → Answers result group (map (looked P.seen) found.now) }
{
    match taken {
        Taken::Text(best) => judge_text(alloc, found, best, buffer),
        Taken::Nothing => Err(judge_nothing(found)),
        Taken::Cut => Err(ImportFault::PowerLost),
    }
}

fn judge_nothing<P: Piece>(found: &[GroupDevice<P>]) -> ImportFault
    requires none { AllOf HasNone (map (looked P.seen) found.now) }
    requires read { AllOf HasReading (map (looked P.seen) found.now) }
    ensures answers { (group : Word) → AllOf (IsOf group) (map (looked P.seen) found.now) → Answers (Err result) group (map (looked P.seen) found.now) }
{
    match first_damage(found, None) {
        Some(damage) => damaged(damage),
        None => ImportFault::NoGroup,
    }
}

fn damaged(damage: Damage) -> ImportFault
    ensures { result ≡ ImportFault.Damaged damage.disk damage.byte }
{
    ImportFault::Damaged {
        disk: damage.disk,
        byte: damage.byte,
    }
}

fn judge_text<P: Piece>(
    alloc: Global,
    found: &[GroupDevice<P>],
    best: Best,
    buffer: &[u8],
) -> Result<Given, ImportFault>
    requires room { length buffer.now ≡ 522240 }
    requires top { IsTop best.index (said_of best.toggle) (map (looked P.seen) found.now) }
    requires holds { At best.index (HoldsText (said_of best.toggle) (take best.toggle.length buffer.now)) (map (looked P.seen) found.now) }
    requires read { AllOf HasReading (map (looked P.seen) found.now) }
    ensures answers { (group : Word) → AllOf (IsOf group) (map (looked P.seen) found.now) → Answers result group (map (looked P.seen) found.now) }
{
    let good = best.toggle.good;
    match refused(found, &best) {
        Some(damage) => return Err(damaged(damage)),
        None => {}
    }
    let Ok(text) = Text::of(alloc, &buffer[..best.toggle.length as usize]) else {
        return Err(ImportFault::OutOfMemory);
    };
    match first_missing(found, good) {
        Some(slot) => Err(ImportFault::Missing { slot, text }),
        None => Ok(Given {
            sequence: best.toggle.sequence,
            good,
            text,
        }),
    }
}

/// The damage for which a chosen configuration is not taken.
fn refused<P: Piece>(found: &[GroupDevice<P>], best: &Best) -> Option<Damage>
    requires top { IsTop best.now.index (said_of best.now.toggle) (map (looked P.seen) found.now) }
    ensures { RefusedIs result best.now.index (said_of best.now.toggle) (map (looked P.seen) found.now) }
{
    if best.toggle.sequence > HIGHEST {
        return Some(Damage {
            disk: found[best.index].header.disk,
            byte: SEQUENCE_BYTE,
        });
    }
    first_damage(found, Some(best.toggle.good))
}
