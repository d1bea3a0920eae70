//! The devices of a row.
use crate::row::{Image, Moving};
use std::alloc::{AllocError, Global};
use vx_names::Name;
use vx_piece::{Bad, MemPiece, Piece};

/// The most sectors of an image.
const MOST: u64 = 65_536;

/// The images as devices, in their order, each with a further run of bad sectors. An image of no sectors, or of too
/// many, is left out.
pub fn devices(
    alloc: Global,
    images: &[Image],
    further: &[Bad],
) -> Result<Vec<(Name, MemPiece)>, AllocError> {
    let mut devices = Vec::new(alloc);
    let mut number = 0u32;
    for (image, bad) in images.iter().zip(further) {
        if let Some(piece) = device(alloc, number, image, *bad)? {
            devices.push((image.name, piece))?;
        }
        number = number.saturating_add(1);
    }
    Ok(devices)
}

fn device(
    alloc: Global,
    number: u32,
    image: &Image,
    bad: Bad,
) -> Result<Option<MemPiece>, AllocError> {
    if MOST < image.sectors {
        return Ok(None);
    }
    let bytes = vec![in alloc; 0u8; 512 * image.sectors as usize]?;
    let mut bads: Vec<Bad> = Vec::from_slice(alloc, image.bads.as_slice())?;
    bads.push(bad)?;
    Ok(MemPiece::new(number, bytes, bads))
}

/// For each image a run of bad sectors that never fails.
pub fn no_bads(alloc: Global, images: &[Image]) -> Result<Vec<Bad>, AllocError> {
    let mut bads = Vec::new(alloc);
    for image in images {
        bads.push(whole(image.sectors, false, 0, 0))?;
    }
    Ok(bads)
}

/// The image that a fault moves on fails from a call on.
pub fn bads_from(
    alloc: Global,
    images: &[Image],
    moving: &Moving,
    call: u64,
) -> Result<Vec<Bad>, AllocError> {
    let mut bads = Vec::new(alloc);
    for image in images {
        let same = moving.image.as_bytes() == image.name.as_bytes();
        let times = if same { moving.times } else { 0 };
        bads.push(whole(image.sectors, moving.on_read, call, times))?;
    }
    Ok(bads)
}

/// Each image fails for good after the writes to it that are among the first of an order.
pub fn bads_after(
    alloc: Global,
    images: &[Image],
    order: &[Name],
    writes: u64,
) -> Result<Vec<Bad>, AllocError> {
    let mut bads = Vec::new(alloc);
    for image in images {
        let skip = writes_to(image, order, writes);
        bads.push(whole(image.sectors, false, skip, u64::MAX))?;
    }
    Ok(bads)
}

/// How many of the first writes of an order go to the image.
fn writes_to(image: &Image, order: &[Name], writes: u64) -> u64 {
    let first = usize::try_from(writes).unwrap_or(usize::MAX);
    let mut count = 0u64;
    for name in order.iter().take(first) {
        if name.as_bytes() == image.name.as_bytes() {
            count = count.saturating_add(1);
        }
    }
    count
}

/// All sectors fail from a call on.
fn whole(sectors: u64, on_read: bool, call: u64, times: u64) -> Bad {
    Bad {
        start: 0,
        count: sectors,
        on_read,
        on_write: !on_read,
        skip: call,
        times,
    }
}

/// The devices with the same bytes and no bad sectors.
pub fn healed(
    alloc: Global,
    devices: Vec<(Name, MemPiece)>,
) -> Result<Vec<(Name, MemPiece)>, AllocError> {
    let mut good = Vec::new(alloc);
    for device in devices.as_slice() {
        let bytes = Vec::from_slice(alloc, device.1.bytes())?;
        if let Some(piece) = MemPiece::new(device.1.device(), bytes, Vec::new(alloc)) {
            good.push((device.0, piece))?;
        }
    }
    Ok(good)
}
