//! A run of a script over two devices in memory.
ghost use Rattle.std.specs.Prelude.{◌≡◌, None};
ghost use Rattle.vx_base.specs.Named.{Word};

use crate::clock::Clock;
use crate::cut_shelf::CutShelf;
use std::alloc::{AllocError, Global};
use std::str;
use vx_flow::{MemSink, MemSource};
use vx_members::highest_member;
use vx_names::Name;
use vx_picker::Picker;
use vx_piece::{Bad, MemPiece};
use vx_power::Powered;
use vx_run::run;
use vx_shelf::{MemShelf, Shelf};
use vx_volume_judge::Finding;

/// The room for the answers of a run.
const ROOM: u64 = 65_536;

/// The devices.
pub const DEVICES: [&str; 2] = ["i0", "i1"];

/// A run that has ended, and its devices.
#[derive(Drop)]
pub struct Ran {
    shelf: MemShelf,
    answers: Vec<u8>,
    pub status: u8,
}

impl Ran {
    pub fn answers(&self) -> &str {
        str::from_utf8(self.answers.as_slice()).unwrap_or("")
    }

    /// What the devices hold now.
    pub fn images(&self, alloc: Global) -> Result<Vec<&[u8]>, Finding> {
        let mut images = Vec::new(alloc);
        for name in DEVICES {
            images.push(device(&self.shelf, name)?.bytes())?;
        }
        Ok(images)
    }

    /// Whether a call of some device has failed.
    pub fn has_failed(&self) -> Result<bool, Finding> {
        for name in DEVICES {
            if 0 < device(&self.shelf, name)?.counts().faults {
                return Ok(true);
            }
        }
        Ok(false)
    }
}

fn device<'s>(shelf: &'s MemShelf, name: &str) -> Result<&'s MemPiece, Finding> {
    let name = read_name(name)?;
    shelf.device(&name).ok_or(Finding::Images)
}

pub fn read_name(word: &str) -> Result<Name, Finding> {
    match Name::read(word.as_bytes()) {
        Ok(name) => Ok(name),
        Err(_) => Err(Finding::Images),
    }
}

/// Runs a script on devices of these bytes, of which one may have bad sectors.
pub fn run_on(
    alloc: Global,
    images: &[&[u8]],
    bad: Option<(&str, Bad)>,
    script: &str,
) -> Result<Ran, Finding> {
    let devices = devices_of(alloc, images, bad)?;
    if !MemShelf::accepts(devices.as_slice()) {
        return Err(Finding::Images);
    }
    let (shelf, answers, status) = run_script(alloc, MemShelf::new(devices), script)?;
    Ok(Ran {
        shelf,
        answers,
        status,
    })
}

/// Runs a script on devices of these bytes, whose power goes where the clock says so.
pub fn run_until(
    alloc: Global,
    images: &[&[u8]],
    clock: &Clock,
    script: &str,
) -> Result<Ran, Finding> {
    let devices = devices_of(alloc, images, None)?;
    if !MemShelf::accepts(devices.as_slice()) {
        return Err(Finding::Images);
    }
    let shelf = CutShelf::new(MemShelf::new(devices), clock);
    let (shelf, answers, status) = run_script(alloc, shelf, script)?;
    Ok(Ran {
        shelf: shelf.devices,
        answers,
        status,
    })
}

/// Devices of these bytes, with their names.
fn devices_of(
    alloc: Global,
    images: &[&[u8]],
    bad: Option<(&str, Bad)>,
) -> Result<Vec<(Name, MemPiece)>, Finding> {
    let mut devices = Vec::new(alloc);
    let mut number = 0u32;
    for (name, bytes) in DEVICES.iter().zip(images) {
        let bads = bads_of(alloc, *name, bad)?;
        let bytes = Vec::from_slice(alloc, *bytes)?;
        let piece = MemPiece::new(number, bytes, bads).ok_or(Finding::Images)?;
        devices.push((read_name(*name)?, piece))?;
        number = number.saturating_add(1);
    }
    Ok(devices)
}

/// The bad sectors of the device of a name.
fn bads_of(alloc: Global, name: &str, bad: Option<(&str, Bad)>) -> Result<Vec<Bad>, AllocError> {
    let mut bads = Vec::new(alloc);
    if let Some((device, bad)) = bad {
        if device == name {
            bads.push(bad)?;
        }
    }
    Ok(bads)
}

/// Runs a script on a shelf, with a power switch about it. It gives the shelf back, and tells the answers and the status.
fn run_script<S: Shelf + Drop>(
    alloc: Global,
    shelf: S,
    script: &str,
) -> Result<(S, Vec<u8>, u8), Finding>
    requires { (name : Word) → S.held shelf name ≡ None }
{
    let script = Vec::from_slice(alloc, script.as_bytes())?;
    let mut source = MemSource::new(script, None);
    let Ok(mut sink) = MemSink::new(alloc, ROOM) else {
        return Err(Finding::OutOfMemory);
    };
    let words = ["--images", "."];
    let Ok(mut powered) = Powered::new(alloc, shelf) else {
        return Err(Finding::OutOfMemory);
    };
    let status = run(
        alloc,
        words.as_slice(),
        &mut powered,
        &mut source,
        &mut sink,
        &Picker::new(|mask, turn| highest_member(mask, turn)),
    );
    let answers = Vec::from_slice(alloc, sink.bytes())?;
    Ok((powered.into_shelf(), answers, status))
}
