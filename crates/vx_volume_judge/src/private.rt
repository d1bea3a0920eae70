//! The private regions of the images: headers, toggles and texts.
use crate::bytes::{are_zero, field, part, sectors, spells};
use crate::finding::Finding;

/// The sectors of a private region.
pub const PRIVATE: u64 = 2_048;

/// The sectors of a half.
const HALF: u64 = 1_020;

/// The longest text.
const LONGEST: u64 = HALF * 512;

/// What a disk offers as the configuration: the newest of those of all disks counts.
#[derive(Clone, Copy)]
pub struct Offer<'a> {
    pub sequence: u64,
    /// The slots of the good disks.
    pub good: u64,
    pub text: &'a [u8],
}

// ---- headers

/// Whether an image has the header of a disk of the group, as long as it is.
pub fn is_disk(image: &[u8]) -> bool {
    let Some(header) = sectors(image, 0, 1) else {
        return false;
    };
    if part(header, 0, 10) != b"vxprv001dg".as_slice() {
        return false;
    }
    if field(header, 80, 8) != image.len() as u64 / 512 || field(header, 88, 8) != PRIVATE {
        return false;
    }
    are_zero(part(header, 10, 30))
        && are_zero(part(header, 73, 7))
        && are_zero(part(header, 96, 416))
}

/// The slot in the header of an image.
pub fn slot_of(image: &[u8]) -> u64 {
    field(image, 72, 1)
}

/// Whether the header of an image has this name and this slot.
pub fn is_named(image: &[u8], name: &str, slot: u64) -> bool {
    match sectors(image, 0, 1) {
        Some(header) => slot_of(header) == slot && spells(part(header, 40, 32), name),
        None => false,
    }
}

// ---- toggles

/// What a disk offers: nothing where its toggle is blank.
fn offer_of(image: &[u8]) -> Result<Option<Offer<'_>>, Finding> {
    let Some(toggle) = sectors(image, 1, 1) else {
        return Err(Finding::Copies);
    };
    if are_zero(toggle) {
        return Ok(None);
    }
    if !is_toggle(toggle) {
        return Err(Finding::Copies);
    }
    match text_of(image, toggle) {
        Some(text) => Ok(Some(Offer {
            sequence: field(toggle, 8, 8),
            good: field(toggle, 24, 4),
            text,
        })),
        None => Err(Finding::Copies),
    }
}

/// Whether a sector is a toggle that is not blank.
fn is_toggle(toggle: &[u8]) -> bool {
    if part(toggle, 0, 8) != b"vxtog001".as_slice() {
        return false;
    }
    if field(toggle, 8, 8) == 0 {
        return false;
    }
    if field(toggle, 16, 1) > 1 {
        return false;
    }
    if field(toggle, 20, 4) > LONGEST {
        return false;
    }
    are_zero(part(toggle, 17, 3)) && are_zero(part(toggle, 28, 484))
}

/// The text that a toggle names.
fn text_of<'a>(image: &'a [u8], toggle: &[u8]) -> Option<&'a [u8]> {
    let first = if field(toggle, 16, 1) == 0 {
        2
    } else {
        2 + HALF
    };
    let half = sectors(image, first, HALF)?;
    half.get(..field(toggle, 20, 4) as usize)
}

/// The offer of the highest sequence. Two of one sequence have to be the same.
pub fn newest<'a>(images: &[&'a [u8]]) -> Result<Offer<'a>, Finding> {
    let mut newest: Option<Offer<'a>> = None;
    for image in images {
        let other = offer_of(image)?;
        newest = newer(newest, other)?;
    }
    newest.ok_or(Finding::Configuration)
}

fn newer<'a>(
    one: Option<Offer<'a>>,
    other: Option<Offer<'a>>,
) -> Result<Option<Offer<'a>>, Finding> {
    let (Some(first), Some(second)) = (one, other) else {
        return Ok(one.or(other));
    };
    if first.sequence < second.sequence {
        return Ok(other);
    }
    if first.sequence == second.sequence
        && (first.text != second.text || first.good != second.good)
    {
        return Err(Finding::Copies);
    }
    Ok(one)
}
