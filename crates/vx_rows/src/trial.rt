//! A run of a row.
ghost use Rattle.std.specs.Prelude.{◌≡◌, None};
ghost use Rattle.vx_base.specs.Named.{Word};
ghost use Rattle.vx_shelf.specs.OnShelf.{held_on};

use crate::build::{bads_after, bads_from, devices, healed, no_bads};
use crate::compare::compare;
use crate::difference::Difference;
use crate::row::{Byte, Content, Member, Moving, Row, Run};
use std::alloc::{AllocError, Global};
use vx_flow::{MemSink, MemSource};
use vx_members::{highest_member, lowest_member};
use vx_names::Name;
use vx_picker::Picker;
use vx_piece::{Bad, MemPiece, Piece};
use vx_power::Powered;
use vx_run::run;
use vx_shelf::{MemShelf, Shelf};

/// The status of a run in which memory was wanting.
const NO_MEMORY: u8 = 6;

/// The most calls that a fault is moved along.
const CALLS: u64 = 1000;

/// Runs the scripts of the row, and tells the first thing that differs from what is wanted. A fault that moves is tried
/// at each call, until it does not fire any more.
pub fn try_row(alloc: Global, row: &Row) -> Result<Option<Difference>, AllocError> {
    if let Some((first, last)) = row.cuts {
        return try_cuts(alloc, row, first, last);
    }
    if let Some(moving) = row.moving {
        return try_calls(alloc, row, &moving);
    }
    let bads = no_bads(alloc, row.images.as_slice())?;
    Ok(try_runs(alloc, row, bads.as_slice())?.err())
}

/// Tries the row with the fault at each call, until it does not fire any more.
fn try_calls(alloc: Global, row: &Row, moving: &Moving) -> Result<Option<Difference>, AllocError> {
    for call in 0..CALLS {
        let bads = bads_from(alloc, row.images.as_slice(), moving, call)?;
        match try_runs(alloc, row, bads.as_slice())? {
            Err(difference) => return Ok(Some(difference)),
            Ok(false) => return Ok(None),
            Ok(true) => {}
        }
    }
    Ok(Some(Difference::Endless))
}

/// Tries the row with all images failing after each number of writes. The fault fires where a write is left.
fn try_cuts(
    alloc: Global,
    row: &Row,
    first: u64,
    last: u64,
) -> Result<Option<Difference>, AllocError> {
    let order = row.order.as_slice();
    for writes in first..last.saturating_add(1) {
        let bads = bads_after(alloc, row.images.as_slice(), order, writes)?;
        match try_runs(alloc, row, bads.as_slice())? {
            Err(difference) => return Ok(Some(difference)),
            Ok(fired) => {
                if fired != (writes < order.len() as u64) {
                    return Ok(Some(Difference::Order));
                }
            }
        }
    }
    Ok(None)
}

/// The devices behind the last run of a row, and whether a fault fired.
#[derive(Drop)]
struct Ended {
    devices: Vec<(Name, MemPiece)>,
    fired: bool,
}

/// Runs the scripts of the row, where it says so with each function that may select among plexes, and tells whether a fault fired. By
/// another function the devices do not end otherwise.
fn try_runs(
    alloc: Global,
    row: &Row,
    further: &[Bad],
) -> Result<Result<bool, Difference>, AllocError> {
    let ended = match try_with(alloc, row, further, Member::Highest)? {
        Ok(ended) => ended,
        Err(difference) => return Ok(Err(difference)),
    };
    if row.either {
        match try_with(alloc, row, further, Member::Lowest)? {
            Err(difference) => return Ok(Err(difference)),
            Ok(other) => if let Some(difference) = compare_images(
                alloc,
                ended.devices.as_slice(),
                other.devices.as_slice(),
            )? {
                return Ok(Err(difference));
            },
        }
    }
    Ok(Ok(ended.fired))
}

/// Runs the scripts of the row one after the other, with a function that selects this member.
fn try_with(
    alloc: Global,
    row: &Row,
    further: &[Bad],
    member: Member,
) -> Result<Result<Ended, Difference>, AllocError> {
    let mut devices = devices(alloc, row.images.as_slice(), further)?;
    if devices.len() != row.images.len() {
        return Ok(Err(Difference::Images));
    }
    let mut fired = false;
    for run in row.runs.as_slice() {
        if run.heals {
            devices = healed(alloc, devices)?;
        }
        change_all(alloc, &mut devices, run.changes.as_slice())?;
        let mut away = Vec::new(alloc);
        let here = part(alloc, devices, &mut away, run.without.as_slice())?;
        if !MemShelf::accepts(here.as_slice()) {
            return Ok(Err(Difference::Images));
        }
        let (difference, shelf) = try_on(alloc, run, MemShelf::new(here), member)?;
        if let Some(difference) = difference {
            return Ok(Err(difference));
        }
        devices = collect(alloc, shelf, away)?;
        fired = fired || has_failed(devices.as_slice());
    }
    Ok(Ok(Ended { devices, fired }))
}

/// The first image of which the bytes are not those of the other one.
fn compare_images(
    alloc: Global,
    devices: &[(Name, MemPiece)],
    others: &[(Name, MemPiece)],
) -> Result<Option<Difference>, AllocError> {
    if devices.len() != others.len() {
        return Ok(Some(Difference::Images));
    }
    for (device, other) in devices.iter().zip(others) {
        if device.1.bytes() != other.1.bytes() {
            return Ok(Some(Difference::Selected {
                image: word_of(alloc, &device.0)?,
            }));
        }
    }
    Ok(None)
}

/// Whether a call of some device has failed.
fn has_failed(devices: &[(Name, MemPiece)]) -> bool {
    devices.iter().any(|device| 0 < device.1.counts().faults)
}

/// Changes bytes of devices.
fn change_all(
    alloc: Global,
    devices: &mut Vec<(Name, MemPiece)>,
    changes: &[Byte],
) -> Result<(), AllocError> {
    for change in changes {
        for device in devices.iter_mut() {
            if device.0.as_bytes() == change.image.as_bytes() {
                change_byte(alloc, &mut device.1, change)?;
            }
        }
    }
    Ok(())
}

/// Writes the byte's sector with that byte changed. A byte past the device's end changes nothing.
fn change_byte(alloc: Global, device: &mut MemPiece, change: &Byte) -> Result<(), AllocError> {
    let sector = change.place / 512;
    let Some(old) = sector_of(device.bytes(), sector) else {
        return Ok(());
    };
    let mut bytes = Vec::from_slice(alloc, old)?;
    let place = (change.place % 512) as usize;
    if place < bytes.len() && bytes.len() == 512 && sector < device.sectors() {
        bytes[place] = change.byte;
        let _ = device.write(sector, bytes.as_slice());
    }
    Ok(())
}

/// The devices that are on the shelf of a run; the others are put away.
fn part(
    alloc: Global,
    devices: Vec<(Name, MemPiece)>,
    away: &mut Vec<(Name, MemPiece)>,
    without: &[Name],
) -> Result<Vec<(Name, MemPiece)>, AllocError> {
    let mut here = Vec::new(alloc);
    for device in devices {
        if without
            .iter()
            .any(|name| name.as_bytes() == device.0.as_bytes())
        {
            away.push(device)?;
        } else {
            here.push(device)?;
        }
    }
    Ok(here)
}

/// All devices of the row again, and those that a run made.
fn collect(
    alloc: Global,
    shelf: MemShelf,
    away: Vec<(Name, MemPiece)>,
) -> Result<Vec<(Name, MemPiece)>, AllocError> {
    let mut shelf = shelf;
    let mut all = away;
    let Ok(names) = shelf.names(alloc) else {
        return Err(AllocError);
    };
    for name in names.as_slice() {
        if let Ok(piece) = shelf.take(name) {
            all.push((*name, piece))?;
        }
    }
    Ok(all)
}

/// Runs the script on the shelf, with a power switch about it, and gives the shelf back.
fn try_on(
    alloc: Global,
    row: &Run,
    shelf: MemShelf,
    member: Member,
) -> Result<(Option<Difference>, MemShelf), AllocError>
    requires { (name : Word) → held_on shelf name ≡ None }
{
    let words: Vec<&str> = row.words.as_str().split_whitespace().collect(alloc)?;
    let script = Vec::from_slice(alloc, row.script.as_slice())?;
    let mut source = MemSource::new(script, row.fails_at);
    let Ok(mut sink) = MemSink::new(alloc, row.room) else {
        return Err(AllocError);
    };
    let Ok(mut powered) = Powered::new(alloc, shelf) else {
        return Err(AllocError);
    };
    let status = match member {
        Member::Lowest => run(
            alloc,
            words.as_slice(),
            &mut powered,
            &mut source,
            &mut sink,
            &Picker::new(|mask, turn| lowest_member(mask, turn)),
        ),
        Member::Highest => run(
            alloc,
            words.as_slice(),
            &mut powered,
            &mut source,
            &mut sink,
            &Picker::new(|mask, turn| highest_member(mask, turn)),
        ),
    };
    let shelf = powered.into_shelf();
    let difference = judge(alloc, row, &shelf, status, sink.bytes())?;
    Ok((difference, shelf))
}

/// The first thing of a run that differs from what is wanted.
fn judge(
    alloc: Global,
    row: &Run,
    shelf: &MemShelf,
    status: u8,
    written: &[u8],
) -> Result<Option<Difference>, AllocError> {
    if row.any {
        return Ok(None);
    }
    let wanted = fitting(row);
    if status == NO_MEMORY && wanted.starts_with(written) {
        return Ok(Some(Difference::NoMemory));
    }
    if row.others.iter().any(|other| other.as_slice() == written) {
        return Ok(None);
    }
    if let Some(difference) = compare(alloc, written, wanted)? {
        return Ok(Some(difference));
    }
    if status != row.status {
        return Ok(Some(Difference::Status {
            answered: status,
            wanted: row.status,
        }));
    }
    if let Some(difference) = compare_contents(alloc, shelf, row.contents.as_slice())? {
        return Ok(Some(difference));
    }
    compare_bytes(alloc, shelf, row.bytes.as_slice())
}

/// The first byte that is not what is wanted.
fn compare_bytes(
    alloc: Global,
    shelf: &MemShelf,
    bytes: &[Byte],
) -> Result<Option<Difference>, AllocError> {
    for byte in bytes {
        if byte_at(shelf, byte) != Some(byte.byte) {
            return Ok(Some(Difference::Byte {
                image: word_of(alloc, &byte.image)?,
                place: byte.place,
            }));
        }
    }
    Ok(None)
}

/// The byte of a device that is on the shelf.
fn byte_at(shelf: &MemShelf, byte: &Byte) -> Option<u8> {
    let device = shelf.device(&byte.image)?;
    let place = usize::try_from(byte.place).ok()?;
    device.bytes().get(place).copied()
}

/// The answers, as far as the sink has room for them.
fn fitting(row: &Run) -> &[u8] {
    let answers = row.answers.as_slice();
    let room = usize::try_from(row.room).unwrap_or(usize::MAX);
    &answers[..answers.len().min(room)]
}

/// The first sector that does not hold what is wanted.
fn compare_contents(
    alloc: Global,
    shelf: &MemShelf,
    contents: &[Content],
) -> Result<Option<Difference>, AllocError> {
    for content in contents {
        if !is_held(shelf, content) {
            return Ok(Some(Difference::Content {
                image: word_of(alloc, &content.image)?,
                sector: content.sector,
            }));
        }
    }
    Ok(None)
}

fn word_of(alloc: Global, image: &Name) -> Result<String, AllocError> {
    let name = std::str::from_utf8(image.as_bytes()).unwrap_or("");
    String::from_str(alloc, name)
}

/// Whether the device is on the shelf, and all bytes of its sector are the one that is wanted.
fn is_held(shelf: &MemShelf, content: &Content) -> bool {
    let Some(device) = shelf.device(&content.image) else {
        return false;
    };
    let Some(sector) = sector_of(device.bytes(), content.sector) else {
        return false;
    };
    sector.iter().all(|byte| *byte == content.byte)
}

/// The bytes of a sector, where there is one.
fn sector_of(bytes: &[u8], sector: u64) -> Option<&[u8]> {
    let sector = usize::try_from(sector).ok()?;
    bytes.chunks_exact(512).nth(sector)
}
