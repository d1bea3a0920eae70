//! Where plexes and logs are to go, in words.
use crate::answer::{joined, named};
use std::alloc::Global;
use vx_base::OutOfMemory;
use vx_names::{Name, read_number};
use vx_new_volumes::{Plan, PlanFault, Request, plan};
use vx_objects::{Config, Listed};
use vx_space::Extent;

/// The plan for the request that the words say.
pub fn planned(alloc: Global, text: &[u8], config: &Config) -> Result<Vec<u8>, OutOfMemory> {
    let words: Vec<&[u8]> = text.split(|byte| *byte == b' ').collect(alloc)?;
    let [good, words @ ..] = words.as_slice() else {
        return joined(alloc, b"no request", b"");
    };
    let (Some(good), Some(request)) = (number(good), request(alloc, words)?) else {
        return joined(alloc, b"no request", b"");
    };
    if !request.is_valid() {
        return joined(alloc, b"no valid request", b"");
    }
    match plan(alloc, config, good, &request) {
        Ok(plan) => shown(alloc, &plan),
        Err(fault) => unplanned(alloc, &fault),
    }
}

fn request(alloc: Global, words: &[&[u8]]) -> Result<Option<Request>, OutOfMemory> {
    let [length, region, ncol, unit, mirrors, logs, names @ ..] = words else {
        return Ok(None);
    };
    let (Some(length), Some(region), Some(unit)) = (
        read_number(length),
        read_number(region),
        read_number(unit),
    ) else {
        return Ok(None);
    };
    let (Some(ncol), Some(mirrors), Some(logs)) = (number(ncol), number(mirrors), number(logs))
    else {
        return Ok(None);
    };
    let mut disks = Vec::new(alloc);
    let mut avoid = Vec::new(alloc);
    for name in names {
        if let Some(disk) = avoided(name) {
            avoid.push(disk)?;
        } else if let Ok(disk) = Name::read(name) {
            disks.push(disk)?;
        }
    }
    Ok(Some(Request {
        length,
        region,
        ncol,
        unit,
        mirrors,
        logs,
        disks: Listed::from_vec(disks),
        avoid: Listed::from_vec(avoid),
    }))
}

/// The disk whose name stands behind a `-`.
fn avoided(word: &[u8]) -> Option<Name> {
    let name = word.strip_prefix(b"-")?;
    Name::read(name).ok()
}

fn number(word: &[u8]) -> Option<u32> {
    u32::try_from(read_number(word)?).ok()
}

fn shown(alloc: Global, plan: &Plan) -> Result<Vec<u8>, OutOfMemory> {
    let mut out = Vec::new(alloc);
    for plex in plan.plexes.as_slice() {
        add_part(b"plex", &mut out)?;
        for (index, column) in plex.as_slice().iter().enumerate() {
            if index > 0 {
                out.push(b',')?;
            }
            add_extents(column.as_slice(), &mut out)?;
        }
    }
    for log in plan.logs.as_slice() {
        add_part(b"log", &mut out)?;
        add_extents(log.as_slice(), &mut out)?;
    }
    Ok(out)
}

fn add_part(word: &[u8], out: &mut Vec<u8>) -> Result<(), OutOfMemory> {
    if !out.is_empty() {
        out.extend_from_slice(b"; ")?;
    }
    out.extend_from_slice(word)?;
    Ok(())
}

fn add_extents(extents: &[Extent], out: &mut Vec<u8>) -> Result<(), OutOfMemory> {
    for extent in extents {
        out.push(b' ')?;
        out.extend_from_slice(extent.disk.as_bytes())?;
        out.push(b':')?;
        out.extend_from_slice(Name::number(extent.start).as_bytes())?;
        out.push(b'+')?;
        out.extend_from_slice(Name::number(extent.count).as_bytes())?;
    }
    Ok(())
}

/// Why there is no plan, in words.
fn unplanned(alloc: Global, fault: &PlanFault) -> Result<Vec<u8>, OutOfMemory> {
    match fault {
        PlanFault::NoSpace { have, need } => {
            let have = named(alloc, b"no space ", &Name::number(*have))?;
            let need = named(alloc, b" ", &Name::number(*need))?;
            joined(alloc, &have, &need)
        }
        PlanFault::TooFewDisks(count) => {
            named(alloc, b"too few disks ", &Name::number(*count as u64))
        }
        PlanFault::OutOfMemory => Err(OutOfMemory),
    }
}
