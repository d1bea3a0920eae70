ghost use Rattle.std.specs.Prelude.{◌≡◌, ◌+◌, ◌-◌, ◌<◌, ◌≤◌, ◌^◌, length, map, Some, IfSome, option_map};
ghost use Rattle.vx_import.specs.Looks.{looked, toggle_read, Reads};
ghost use Rattle.vx_import.specs.Choice.{BestIs, picked, TriedIs};
ghost use Rattle.vx_header.specs.Said.{said_of};

use crate::device::{GroupDevice, Reading};
use crate::reading::read_text;
use vx_confdb::sectors_for;
use vx_header::Toggle;
use vx_piece::{Piece, PieceFault};

/// Where the highest sequence stands, and the toggle that has it.
#[derive(Clone, Copy)]
pub struct Best {
    pub index: usize,
    pub toggle: Toggle,
}

/// What is taken of the devices of a group.
#[derive(Clone, Copy)]
pub enum Taken {
    /// The text that this toggle names.
    Text(Best),
    /// No device that can be read has a toggle.
    Nothing,
    /// The power is gone.
    Cut,
}

/// The device that can be read and whose toggle has the highest sequence, the first of those.
pub fn choose<P: Piece>(found: &[GroupDevice<P>]) -> Option<Best>
    requires few { length found.now < 2 ^ 64 }
    ensures inside { IfSome result (λ b. b.index < length found.now) }
    ensures best { BestIs result (map (looked P.seen) found.now) }
{
    match found {
        [] => None,
        [first, rest @ ..] => {
            let behind = choose(rest);
            let toggle = readable_toggle(first);
            pick(toggle, behind)
        }
    }
}

fn readable_toggle<P: Piece>(found: &GroupDevice<P>) -> Option<Toggle>
    ensures { option_map said_of result ≡ toggle_read (looked P.seen found.now) }
{
    if !found.readable {
        return None;
    }
    match found.reading {
        Reading::Says(toggle) => Some(toggle),
        Reading::Blank => None,
        Reading::Damaged(_) => None,
    }
}

fn pick(toggle: Option<Toggle>, behind: Option<Best>) -> Option<Best>
    requires room { IfSome behind (λ b. b.index < 2 ^ 64 - 1) }
    ensures { result ≡ picked toggle behind }
{
    match toggle {
        None => match behind {
            None => None,
            Some(b) => Some(Best {
                index: b.index + 1,
                toggle: b.toggle,
            }),
        },
        Some(t) => match behind {
            None => Some(Best {
                index: 0,
                toggle: t,
            }),
            Some(b) => {
                if t.sequence < b.toggle.sequence {
                    Some(Best {
                        index: b.index + 1,
                        toggle: b.toggle,
                    })
                } else {
                    Some(Best {
                        index: 0,
                        toggle: t,
                    })
                }
            }
        },
    }
}

/// How the reading of a text ended.
#[derive(Clone, Copy)]
pub enum Tried {
    Done,
    /// The device cannot be read any more.
    Dropped,
    /// The power is gone.
    Cut,
}

/// Reads once the text that a device's toggle names into a buffer, which has room for any text.
pub fn take_one<P: Piece>(found: &mut GroupDevice<P>, toggle: &Toggle, buffer: &mut [u8]) -> Tried
    requires private { 2048 ≤ (P.seen found.old.piece).sectors }
    requires names { toggle_read (looked P.seen found.old) ≡ Some (said_of toggle.now) }
    requires room { length buffer.old ≡ 522240 }
    ensures room { length buffer.new ≡ 522240 }
    ensures reads { Reads (looked P.seen found.old) (looked P.seen found.new) }
    ensures ends { TriedIs result (said_of toggle.now) buffer.new (looked P.seen found.new) }
{
    let bytes = 512 * sectors_for(toggle.length as usize);
    match read_text(&mut found.piece, toggle, &mut buffer[..bytes]) {
        Ok(_) => Tried::Done,
        Err(PieceFault::Failed) => {
            found.readable = false;
            Tried::Dropped
        }
        Err(PieceFault::PowerLost) => Tried::Cut,
    }
}
