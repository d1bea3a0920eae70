//! The records of each kind, taken out of a list of records and put back into one.
ghost use Rattle.std.specs.Prelude.{◌≡◌, ◌++◌, map, IfOk, OnOk};
ghost use Rattle.std.specs.List.{filter_map};
ghost use Rattle.vx_objects.specs.Parts.{as_group, as_disk, as_subdisk, as_plex, as_vol, as_dco, as_snap};

use crate::{Dco, Disk, Group, Object, Plex, Snap, Subdisk, Vol};
use std::alloc::{AllocError, Global};

/// Appends the records.
pub(crate) fn join(records: &[Object], out: &mut Vec<Object>) -> Result<(), AllocError>
    ensures { OnOk result (out.new.items ≡ out.old.items ++ records.now) }
{
    out.extend_from_slice(records)
}

pub(crate) fn groups(alloc: Global, all: &[Object]) -> Result<Vec<Group>, AllocError>
    ensures { IfOk result (λ found. found.items ≡ filter_map as_group all.now) }
{
    all.iter()
        .filter_map(|object| as_group(object))
        .collect(alloc)
}

fn as_group(object: &Object) -> Option<Group>
    ensures { result ≡ as_group object.now }
{
    match object {
        Object::GroupRecord(group) => Some(*group),
        _ => None,
    }
}

pub(crate) fn group_records(alloc: Global, groups: &[Group]) -> Result<Vec<Object>, AllocError>
    ensures { IfOk result (λ found. found.items ≡ map Object.GroupRecord groups.now) }
{
    groups
        .iter()
        .map(|group| Object::GroupRecord(*group))
        .collect(alloc)
}

pub(crate) fn disks(alloc: Global, all: &[Object]) -> Result<Vec<Disk>, AllocError>
    ensures { IfOk result (λ found. found.items ≡ filter_map as_disk all.now) }
{
    all.iter()
        .filter_map(|object| as_disk(object))
        .collect(alloc)
}

fn as_disk(object: &Object) -> Option<Disk>
    ensures { result ≡ as_disk object.now }
{
    match object {
        Object::DiskRecord(disk) => Some(*disk),
        _ => None,
    }
}

pub(crate) fn disk_records(alloc: Global, disks: &[Disk]) -> Result<Vec<Object>, AllocError>
    ensures { IfOk result (λ found. found.items ≡ map Object.DiskRecord disks.now) }
{
    disks
        .iter()
        .map(|disk| Object::DiskRecord(*disk))
        .collect(alloc)
}

pub(crate) fn subdisks(alloc: Global, all: &[Object]) -> Result<Vec<Subdisk>, AllocError>
    ensures { IfOk result (λ found. found.items ≡ filter_map as_subdisk all.now) }
{
    all.iter()
        .filter_map(|object| as_subdisk(object))
        .collect(alloc)
}

fn as_subdisk(object: &Object) -> Option<Subdisk>
    ensures { result ≡ as_subdisk object.now }
{
    match object {
        Object::SubdiskRecord(subdisk) => Some(*subdisk),
        _ => None,
    }
}

pub(crate) fn subdisk_records(
    alloc: Global,
    subdisks: &[Subdisk],
) -> Result<Vec<Object>, AllocError>
    ensures { IfOk result (λ found. found.items ≡ map Object.SubdiskRecord subdisks.now) }
{
    subdisks
        .iter()
        .map(|subdisk| Object::SubdiskRecord(*subdisk))
        .collect(alloc)
}

pub(crate) fn plexes(alloc: Global, all: &[Object]) -> Result<Vec<Plex>, AllocError>
    ensures { IfOk result (λ found. found.items ≡ filter_map as_plex all.now) }
{
    all.iter()
        .filter_map(|object| as_plex(object))
        .collect(alloc)
}

fn as_plex(object: &Object) -> Option<Plex>
    ensures { result ≡ as_plex object.now }
{
    match object {
        Object::PlexRecord(plex) => Some(*plex),
        _ => None,
    }
}

pub(crate) fn plex_records(alloc: Global, plexes: &[Plex]) -> Result<Vec<Object>, AllocError>
    ensures { IfOk result (λ found. found.items ≡ map Object.PlexRecord plexes.now) }
{
    plexes
        .iter()
        .map(|plex| Object::PlexRecord(*plex))
        .collect(alloc)
}

pub(crate) fn volumes(alloc: Global, all: &[Object]) -> Result<Vec<Vol>, AllocError>
    ensures { IfOk result (λ found. found.items ≡ filter_map as_vol all.now) }
{
    all.iter()
        .filter_map(|object| as_vol(object))
        .collect(alloc)
}

fn as_vol(object: &Object) -> Option<Vol>
    ensures { result ≡ as_vol object.now }
{
    match object {
        Object::VolRecord(vol) => Some(*vol),
        _ => None,
    }
}

pub(crate) fn vol_records(alloc: Global, volumes: &[Vol]) -> Result<Vec<Object>, AllocError>
    ensures { IfOk result (λ found. found.items ≡ map Object.VolRecord volumes.now) }
{
    volumes
        .iter()
        .map(|vol| Object::VolRecord(*vol))
        .collect(alloc)
}

pub(crate) fn dcos(alloc: Global, all: &[Object]) -> Result<Vec<Dco>, AllocError>
    ensures { IfOk result (λ found. found.items ≡ filter_map as_dco all.now) }
{
    all.iter()
        .filter_map(|object| as_dco(object))
        .collect(alloc)
}

fn as_dco(object: &Object) -> Option<Dco>
    ensures { result ≡ as_dco object.now }
{
    match object {
        Object::DcoRecord(dco) => Some(*dco),
        _ => None,
    }
}

pub(crate) fn dco_records(alloc: Global, dcos: &[Dco]) -> Result<Vec<Object>, AllocError>
    ensures { IfOk result (λ found. found.items ≡ map Object.DcoRecord dcos.now) }
{
    dcos.iter()
        .map(|dco| Object::DcoRecord(*dco))
        .collect(alloc)
}

pub(crate) fn snaps(alloc: Global, all: &[Object]) -> Result<Vec<Snap>, AllocError>
    ensures { IfOk result (λ found. found.items ≡ filter_map as_snap all.now) }
{
    all.iter()
        .filter_map(|object| as_snap(object))
        .collect(alloc)
}

fn as_snap(object: &Object) -> Option<Snap>
    ensures { result ≡ as_snap object.now }
{
    match object {
        Object::SnapRecord(snap) => Some(*snap),
        _ => None,
    }
}

pub(crate) fn snap_records(alloc: Global, snaps: &[Snap]) -> Result<Vec<Object>, AllocError>
    ensures { IfOk result (λ found. found.items ≡ map Object.SnapRecord snaps.now) }
{
    snaps
        .iter()
        .map(|snap| Object::SnapRecord(*snap))
        .collect(alloc)
}
