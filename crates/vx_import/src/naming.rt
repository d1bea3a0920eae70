ghost use Rattle.std.specs.Prelude.{◌≡◌, ◌<◌, map, true, false};
ghost use Rattle.vx_mask.specs.Mask.{has};
ghost use Rattle.vx_import.specs.Looks.{looked};
ghost use Rattle.vx_import.specs.Naming.{is_readable_slot, is_meant, MissingIs, HurtIs, DamageIs};

use crate::device::{GroupDevice, Reading};
use vx_mask::contains;
use vx_names::Name;
use vx_piece::Piece;

/// A disk whose toggle is none, and the first byte of its device that does not fit.
#[derive(Clone, Copy)]
pub struct Damage {
    pub disk: Name,
    pub byte: u64,
}

/// The lowest slot that the mask names and of which no device can be read.
pub fn first_missing<P: Piece>(found: &[GroupDevice<P>], mask: u32) -> Option<u8>
    ensures { MissingIs result mask (map (looked P.seen) found.now) }
{
    let mut slot = 0;
    'slots: while slot < 32 {
        if is_missing(found, mask, slot) {
            return Some(slot);
        }
        slot += 1;
    }
    None
}

fn is_missing<P: Piece>(found: &[GroupDevice<P>], mask: u32, slot: u8) -> bool
    ensures named { result ≡ true → has mask slot ≡ true }
    ensures gone { result ≡ true → is_readable_slot slot (map (looked P.seen) found.now) ≡ false }
    ensures there { result ≡ false → has mask slot ≡ true → is_readable_slot slot (map (looked P.seen) found.now) ≡ true }
{
    contains(mask as u64, slot as u32) && !has_slot(found, slot)
}

fn has_slot<P: Piece>(found: &[GroupDevice<P>], slot: u8) -> bool
    ensures { result ≡ is_readable_slot slot (map (looked P.seen) found.now) }
{
    match found {
        [] => false,
        [first, rest @ ..] => first.readable && first.header.slot == slot || has_slot(rest, slot),
    }
}

/// The first device that can be read and whose toggle is none, of all devices or of those that a mask names.
pub fn first_damage<P: Piece>(found: &[GroupDevice<P>], meant: Option<u32>) -> Option<Damage>
    ensures { DamageIs result meant (map (looked P.seen) found.now) }
{
    match found {
        [] => None,
        [first, rest @ ..] => match damage_of(first, meant) {
            Some(damage) => Some(damage),
            None => first_damage(rest, meant),
        },
    }
}

fn damage_of<P: Piece>(found: &GroupDevice<P>, meant: Option<u32>) -> Option<Damage>
    ensures { HurtIs result meant (looked P.seen found.now) }
{
    if !found.readable || !means(meant, found.header.slot) {
        return None;
    }
    match found.reading {
        Reading::Damaged(byte) => Some(Damage {
            disk: found.header.disk,
            byte,
        }),
        Reading::Blank => None,
        Reading::Says(_) => None,
    }
}

fn means(meant: Option<u32>, slot: u8) -> bool
    ensures { result ≡ is_meant meant slot }
{
    match meant {
        None => true,
        Some(mask) => contains(mask as u64, slot as u32),
    }
}
