//! Copies of the maps of a volume in memory. The first copy is two pieces on devices 1 and 3, the second one piece on
//! device 2 with four sectors behind the plex.

ghost use Rattle.std.specs.Prelude.{◌≡◌, ◌+◌, ◌<◌, ◌≤◌, ◌^◌, true, map};
ghost use Rattle.vx_maps.specs.Copies.{AreCopies, IsCopy};
ghost use Rattle.vx_maps.specs.Spares.{copies_seen};
ghost use Rattle.vx_map_rows.specs.Piece.{row_seen};

use crate::clock::Clock;
use crate::marks::Marks;
use crate::piece::RowPiece;
use crate::watch::Watch;
use std::alloc::{AllocError, Global};
use std::sync::Arc;
use vx_mapfmt::DcoShape;
use vx_piece::{MemPiece, Piece};

/// The sectors of the plex.
pub const PLEX: u64 = 560;

/// The first sectors of the plex that the first piece of the first copy has.
const FRONT: u64 = 200;

/// What a copy holds: the header or none, and of each map the first byte of its page.
#[derive(Clone, Copy)]
pub struct Held {
    pub headed: bool,
    pub maps: Marks,
}

/// What one copy holds, or two.
#[derive(Clone, Copy)]
pub struct Copies {
    pub first: Held,
    pub second: Option<Held>,
}

impl Copies {
    /// Copy 0, or copy 1 if there is one.
    pub fn get(&self, number: u8) -> Option<Held> {
        if number == 0 {
            Some(self.first)
        } else {
            self.second
        }
    }
}

/// The copy that has a device.
pub fn copy_on(device: u32) -> u8 {
    if device == 2 { 1 } else { 0 }
}

/// The sector of the plex with a map's page.
pub fn page_of(map: u64) -> u64
    requires { map < 32 }
    ensures { result < 560 }
{
    (3 + map) * 16 + 1
}

/// The sectors of a copy that holds this, and so many behind the plex.
fn bytes_of(
    alloc: Global,
    shape: &DcoShape,
    held: &Held,
    behind: usize,
) -> Result<Vec<u8>, AllocError>
    requires { behind < 2 ^ 32 }
{
    let mut bytes = vec![in alloc; 0u8; (560 + behind) * 512]?;
    if held.headed {
        let mut header = [0; 512];
        shape.put_header(&mut header);
        for place in 0..512usize {
            bytes[place] = header[place];
        }
    }
    for map in 0..32u64 {
        bytes[page_of(map) as usize * 512] = held.maps[map as usize];
    }
    Ok(bytes)
}

/// A piece of a device.
fn piece(
    alloc: Global,
    device: u32,
    bytes: Vec<u8>,
    clock: &Arc<Clock, Global>,
) -> Result<RowPiece, AllocError> {
    let Some(memory) = MemPiece::new(device, bytes, Vec::new(alloc)) else {
        return Err(AllocError);
    };
    let clock = Arc::try_clone(clock)?;
    Ok(RowPiece::new(memory, Watch::new(clock)))
}

/// The bytes before a place, and those behind it.
fn halves(alloc: Global, bytes: &Vec<u8>, at: usize) -> Result<(Vec<u8>, Vec<u8>), AllocError> {
    if bytes.len() < at {
        return Err(AllocError);
    }
    let first = Vec::from_slice(alloc, &bytes[..at])?;
    let second = Vec::from_slice(alloc, &bytes[at..])?;
    Ok((first, second))
}

/// The pieces of a copy.
fn copy(
    alloc: Global,
    shape: &DcoShape,
    number: u8,
    held: &Held,
    clock: &Arc<Clock, Global>,
) -> Result<Vec<RowPiece>, AllocError> {
    let mut pieces = Vec::new(alloc);
    if number == 0 {
        let bytes = bytes_of(alloc, shape, held, 0)?;
        let (first, second) = halves(alloc, &bytes, FRONT as usize * 512)?;
        pieces.push(piece(alloc, 1, first, clock)?)?;
        pieces.push(piece(alloc, 3, second, clock)?)?;
    } else {
        let bytes = bytes_of(alloc, shape, held, 4)?;
        pieces.push(piece(alloc, 2, bytes, clock)?)?;
    }
    Ok(pieces)
}

/// The pieces of each copy.
pub fn build(
    alloc: Global,
    shape: &DcoShape,
    start: &Copies,
    clock: &Arc<Clock, Global>,
) -> Result<Vec<Vec<RowPiece>>, AllocError> {
    let mut copies = Vec::new(alloc);
    copies.push(copy(alloc, shape, 0, &start.first, clock)?)?;
    if let Some(second) = start.second {
        copies.push(copy(alloc, shape, 1, &second, clock)?)?;
    }
    Ok(copies)
}

/// Whether one piece or two are a copy of slots of so many sectors.
fn is_copy(pieces: &Vec<RowPiece>, size: u64) -> bool
    requires { size < 2 ^ 32 }
    ensures { result ≡ true → IsCopy size (map row_seen pieces.now.items) }
{
    match pieces.as_slice() {
        [one] => one.sectors() > 0 && one.sectors() >= 35 * size,
        [one, other] => are_enough(one.sectors(), other.sectors(), 35 * size),
        _ => false,
    }
}

fn are_enough(one: u64, other: u64, wanted: u64) -> bool
    ensures { result ≡ true → (0 < one) × (0 < other) × (wanted ≤ one + other) }
{
    one > 0 && other > 0 && one.saturating_add(other) >= wanted
}

/// Whether these are one copy or two.
pub fn are_copies(copies: &Vec<Vec<RowPiece>>, size: u64) -> bool
    requires { size < 2 ^ 32 }
    ensures { result ≡ true → AreCopies size (copies_seen row_seen copies.now.items) }
{
    match copies.as_slice() {
        [first] => is_copy(first, size),
        [first, second] => is_copy(first, size) && is_copy(second, size),
        _ => false,
    }
}

/// What the pieces of a copy hold; none where another byte is not zero.
fn held_by(
    alloc: Global,
    shape: &DcoShape,
    pieces: &Vec<RowPiece>,
) -> Result<Option<Held>, AllocError> {
    let mut bytes = Vec::new(alloc);
    for piece in pieces {
        bytes.extend_from_slice(piece.bytes())?;
    }
    let mut held = Held {
        headed: false,
        maps: [0; 32],
    };
    if bytes.len() < 560 * 512 {
        return Ok(None);
    }
    let Some(first) = bytes.get(..512) else {
        return Ok(None);
    };
    if first.len() == 512 {
        held.headed = shape.is_header(first);
    }
    for map in 0..32u64 {
        let at = page_of(map) as usize * 512;
        held.maps[map as usize] = bytes[at];
    }
    let behind = bytes.len() / 512 - 560;
    if behind > 1000 {
        return Ok(None);
    }
    let expected = bytes_of(alloc, shape, &held, behind)?;
    if expected.as_slice() != bytes.as_slice() {
        return Ok(None);
    }
    Ok(Some(held))
}

/// What each copy holds; none where some byte of one is neither of the header nor of the maps.
pub fn held_in(
    alloc: Global,
    shape: &DcoShape,
    copies: &Vec<Vec<RowPiece>>,
) -> Result<Option<Copies>, AllocError> {
    match copies.as_slice() {
        [first] => Ok(match held_by(alloc, shape, first)? {
            Some(first) => Some(Copies {
                first,
                second: None,
            }),
            None => None,
        }),
        [first, second] => {
            match (
                held_by(alloc, shape, first)?,
                held_by(alloc, shape, second)?,
            ) {
                (Some(first), Some(second)) => Ok(Some(Copies {
                    first,
                    second: Some(second),
                })),
                _ => Ok(None),
            }
        }
        _ => Ok(None),
    }
}
