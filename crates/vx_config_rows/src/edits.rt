//! Edits in words.
use crate::text::{is, parted};
use std::alloc::Global;
use vx_base::OutOfMemory;
use vx_names::{Name, read_number};
use vx_objects::{Dco, Disk, Edit, Listed, Object, PlexState, PolicyName, Snap, Subdisk, VolState};

/// The edits that the words say, parted by ` ;; `.
pub fn edits_of(alloc: Global, text: &[u8]) -> Result<Option<Vec<Edit>>, OutOfMemory> {
    let mut edits = Vec::new(alloc);
    let mut rest = text;
    for _ in 0..text.len() {
        let (words, behind) = match parted(rest, b" ;; ") {
            Some(parts) => parts,
            None => (rest, b"".as_slice()),
        };
        match edit_of(alloc, words)? {
            Some(edit) => edits.push(edit)?,
            None => return Ok(None),
        }
        if behind.is_empty() {
            break;
        }
        rest = behind;
    }
    Ok(Some(edits))
}

fn edit_of(alloc: Global, text: &[u8]) -> Result<Option<Edit>, OutOfMemory> {
    let words: Vec<&[u8]> = text.split(|byte| *byte == b' ').collect(alloc)?;
    match words.as_slice() {
        [verb, name] => Ok(removal(verb, name)),
        [verb, first, second] => Ok(pair(verb, first, second)),
        [b"set_vol", vol, state, policy] => Ok(set_vol(vol, state, policy)),
        [b"add_disk", name, device, slot, publen] => Ok(add_disk(name, device, slot, publen)),
        [b"set_plex", plex, vol, state, map] => Ok(set_plex(plex, vol, state, map)),
        [b"make", name, disk, off, len] => made(alloc, name, disk, off, len),
        [b"add_snap", name, vol, of, map, ofmap] => Ok(add_snap(name, vol, of, map, ofmap)),
        _ => Ok(None),
    }
}

fn removal(verb: &[u8], name: &[u8]) -> Option<Edit> {
    let name = Name::read(name).ok()?;
    if is(verb, b"remove_plex") {
        Some(Edit::RemovePlex(name))
    } else if is(verb, b"remove_vol") {
        Some(Edit::RemoveVol(name))
    } else if is(verb, b"remove_dco") {
        Some(Edit::RemoveDco(name))
    } else if is(verb, b"remove_snap") {
        Some(Edit::RemoveSnap(name))
    } else {
        None
    }
}

fn pair(verb: &[u8], first: &[u8], second: &[u8]) -> Option<Edit> {
    let name = Name::read(first).ok()?;
    if is(verb, b"set_region") {
        Some(Edit::SetRegion {
            vol: name,
            region: read_number(second)?,
        })
    } else if is(verb, b"add_dco") {
        Some(Edit::AddDco(Dco {
            name,
            vol: Name::read(second).ok()?,
            maps: 32,
        }))
    } else {
        None
    }
}

fn set_vol(vol: &[u8], state: &[u8], policy: &[u8]) -> Option<Edit> {
    Some(Edit::SetVol {
        vol: Name::read(vol).ok()?,
        state: vol_state(state)?,
        policy: policy_of(policy)?,
    })
}

fn policy_of(word: &[u8]) -> Option<PolicyName> {
    if is(word, b"round") {
        Some(PolicyName::Round)
    } else if is(word, b"select") {
        Some(PolicyName::Select)
    } else {
        Some(PolicyName::Prefer(Name::read(word).ok()?))
    }
}

fn set_plex(plex: &[u8], vol: &[u8], state: &[u8], map: &[u8]) -> Option<Edit> {
    Some(Edit::SetPlex {
        plex: Name::read(plex).ok()?,
        vol: Name::read(vol).ok(),
        state: plex_state(state)?,
        map: byte_or_none(map),
    })
}

fn add_disk(name: &[u8], device: &[u8], slot: &[u8], publen: &[u8]) -> Option<Edit> {
    Some(Edit::AddDisk(Disk {
        name: Name::read(name).ok()?,
        device: Name::read(device).ok()?,
        slot: byte_or_none(slot)?,
        publen: read_number(publen)?,
    }))
}

fn add_snap(name: &[u8], vol: &[u8], of: &[u8], map: &[u8], ofmap: &[u8]) -> Option<Edit> {
    Some(Edit::AddSnap(Snap {
        name: Name::read(name).ok()?,
        vol: Name::read(vol).ok()?,
        of: Name::read(of).ok()?,
        map: byte_or_none(map)?,
        ofmap: byte_or_none(ofmap)?,
    }))
}

/// A subdisk of no plex.
fn made(
    alloc: Global,
    name: &[u8],
    disk: &[u8],
    off: &[u8],
    len: &[u8],
) -> Result<Option<Edit>, OutOfMemory> {
    let Some(subdisk) = subdisk(name, disk, off, len) else {
        return Ok(None);
    };
    let mut objects = Vec::new(alloc);
    objects.extend_from_slice(&[Object::SubdiskRecord(subdisk)])?;
    Ok(Some(Edit::Make(Listed::from_vec(objects))))
}

fn subdisk(name: &[u8], disk: &[u8], off: &[u8], len: &[u8]) -> Option<Subdisk> {
    Some(Subdisk {
        name: Name::read(name).ok()?,
        disk: Name::read(disk).ok()?,
        off: read_number(off)?,
        len: read_number(len)?,
        plex: None,
        col: 0,
        at: 0,
    })
}

fn byte_or_none(word: &[u8]) -> Option<u8> {
    let number = read_number(word)?;
    if number < 256 {
        Some(number as u8)
    } else {
        None
    }
}

const VOL_STATES: [VolState; 5] = [
    VolState::Empty,
    VolState::Clean,
    VolState::Active,
    VolState::NeedSync,
    VolState::Sync,
];

fn vol_state(word: &[u8]) -> Option<VolState> {
    VOL_STATES
        .iter()
        .find(|state| state.word() == word)
        .copied()
}

const PLEX_STATES: [PlexState; 8] = [
    PlexState::Empty,
    PlexState::Clean,
    PlexState::Active,
    PlexState::IoFail,
    PlexState::Stale,
    PlexState::SnapAtt,
    PlexState::SnapDone,
    PlexState::DcoSnp,
];

fn plex_state(word: &[u8]) -> Option<PlexState> {
    PLEX_STATES
        .iter()
        .find(|state| state.word() == word)
        .copied()
}
