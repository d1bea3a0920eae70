//! A run of a script over devices in memory.
use std::alloc::{AllocError, Global};
use std::str;
use vx_flow::{MemSink, MemSource};
use vx_members::highest_member;
use vx_names::Name;
use vx_picker::Picker;
use vx_piece::{Bad, MemPiece};
use vx_power::Powered;
use vx_run::run;
use vx_shelf::MemShelf;
use vx_volume_judge::Finding;

/// The room for the answers of a run.
const ROOM: u64 = 65_536;

/// The names of the devices, in order.
pub const DEVICES: [&str; 5] = ["i0", "i1", "i2", "i3", "i4"];

/// Bad sectors of a device, which is named by its place.
#[derive(Clone, Copy)]
pub struct BadOf {
    pub device: u64,
    pub bad: Bad,
}

/// A run that has ended, and its devices.
#[derive(Drop)]
pub struct Ran {
    shelf: MemShelf,
    devices: usize,
    answers: Vec<u8>,
    pub status: u8,
}

impl Ran {
    pub fn answers(&self) -> &str {
        str::from_utf8(self.answers.as_slice()).unwrap_or("")
    }

    /// What the devices hold now.
    pub fn images(&self, alloc: Global) -> Result<Vec<&[u8]>, Finding> {
        let mut images = Vec::new(alloc);
        for name in DEVICES.iter().take(self.devices) {
            images.push(device(&self.shelf, *name)?.bytes())?;
        }
        Ok(images)
    }

    /// Whether a call of some device has failed.
    pub fn has_failed(&self) -> Result<bool, Finding> {
        for name in DEVICES.iter().take(self.devices) {
            if 0 < device(&self.shelf, *name)?.counts().faults {
                return Ok(true);
            }
        }
        Ok(false)
    }
}

fn device<'s>(shelf: &'s MemShelf, name: &str) -> Result<&'s MemPiece, Finding> {
    let name = read_name(name)?;
    shelf.device(&name).ok_or(Finding::Images)
}

fn read_name(word: &str) -> Result<Name, Finding> {
    match Name::read(word.as_bytes()) {
        Ok(name) => Ok(name),
        Err(_) => Err(Finding::Images),
    }
}

/// Runs a script on devices of these bytes, some of which may have bad sectors.
pub fn run_on(
    alloc: Global,
    images: &[&[u8]],
    bads: &[BadOf],
    script: &str,
) -> Result<Ran, Finding> {
    let devices = devices_of(alloc, images, bads)?;
    if !MemShelf::accepts(devices.as_slice()) {
        return Err(Finding::Images);
    }
    let script = Vec::from_slice(alloc, script.as_bytes())?;
    let mut source = MemSource::new(script, None);
    let Ok(mut sink) = MemSink::new(alloc, ROOM) else {
        return Err(Finding::OutOfMemory);
    };
    let words = ["--images", "."];
    let Ok(mut powered) = Powered::new(alloc, MemShelf::new(devices)) else {
        return Err(Finding::OutOfMemory);
    };
    let status = run(
        alloc,
        words.as_slice(),
        &mut powered,
        &mut source,
        &mut sink,
        &Picker::new(|mask, turn| highest_member(mask, turn)),
    );
    let answers = Vec::from_slice(alloc, sink.bytes())?;
    Ok(Ran {
        shelf: powered.into_shelf(),
        devices: images.len(),
        answers,
        status,
    })
}

/// Devices of these bytes, with their names.
fn devices_of(
    alloc: Global,
    images: &[&[u8]],
    bads: &[BadOf],
) -> Result<Vec<(Name, MemPiece)>, Finding> {
    let mut devices = Vec::new(alloc);
    let mut number = 0u32;
    for (name, bytes) in DEVICES.iter().zip(images) {
        let bads = bads_of(alloc, u64::from(number), bads)?;
        let bytes = Vec::from_slice(alloc, *bytes)?;
        let piece = MemPiece::new(number, bytes, bads).ok_or(Finding::Images)?;
        devices.push((read_name(*name)?, piece))?;
        number = number.saturating_add(1);
    }
    Ok(devices)
}

/// The bad sectors of the device at a place.
fn bads_of(alloc: Global, device: u64, bads: &[BadOf]) -> Result<Vec<Bad>, AllocError> {
    let mut own = Vec::new(alloc);
    for one in bads {
        if one.device == device {
            own.push(one.bad)?;
        }
    }
    Ok(own)
}

/// The images, to be looked at.
pub fn slices(alloc: Global, images: &Vec<Vec<u8>>) -> Result<Vec<&[u8]>, AllocError> {
    let mut slices = Vec::new(alloc);
    for image in images {
        slices.push(image.as_slice())?;
    }
    Ok(slices)
}

/// The bytes of these images.
pub fn copy_of(alloc: Global, images: &[&[u8]]) -> Result<Vec<Vec<u8>>, AllocError> {
    let mut copies = Vec::new(alloc);
    for image in images {
        copies.push(Vec::from_slice(alloc, *image)?)?;
    }
    Ok(copies)
}
