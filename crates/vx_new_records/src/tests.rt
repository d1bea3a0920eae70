ghost use Rattle.std.specs.Prelude.{◌≡◌, ℕ, List, IfOk, true, None};
ghost use Rattle.vx_block.specs.Geometry.{is_region_size};
ghost use Rattle.vx_config_parts.specs.Objects.{is_vol};
ghost use Rattle.vx_rules.specs.References.{has_disk, has_name};
ghost use Rattle.vx_new_volumes.specs.Rule.{is_request};
ghost use Rattle.vx_new_volumes.specs.Naming.{is_known};
ghost use Rattle.vx_new_volumes.specs.Tests.{absent_disk, has_room, limit_fault, dco_fault_named, name_fault, log_fault, new_fault};

use crate::parts::has_logs;
use crate::records::dco_name;
use std::alloc::Global;
use vx_base::OutOfMemory;
use vx_block::Geometry;
use vx_config_parts::{Limit, Object, ObjectFault, same};
use vx_names::Name;
use vx_new_volumes::NewVolume;

/// Why the volume cannot be made in a group of these records, whatever space there is; `started` says whether a volume of the name is
/// started. A request that passes is valid.
pub fn new_fault(
    alloc: Global,
    started: bool,
    group: &[Object],
    new: &NewVolume,
) -> Result<Option<ObjectFault>, OutOfMemory>
    ensures fault { IfOk result (λ fault. fault ≡ new_fault started group.now new.now) }
    ensures valid { IfOk result (λ fault. fault ≡ None → is_request new.now.request ≡ true) }
{
    if let Some(fault) = absent_disk(alloc, group, new.request.disks.as_slice())? {
        return Ok(Some(fault));
    }
    if let Some(fault) = limit_fault(group, new) {
        return Ok(Some(fault));
    }
    if let Some(fault) = name_fault(alloc, started, group, new)? {
        return Ok(Some(fault));
    }
    Ok(log_fault(new))
}

/// The first of the names that is no disk's. The disks are few, so they are gathered first.
pub fn absent_disk(
    alloc: Global,
    group: &[Object],
    names: &[Name],
) -> Result<Option<ObjectFault>, OutOfMemory>
    ensures { IfOk result (λ fault. fault ≡ absent_disk group.now names.now) }
{
    let disks = disk_names(alloc, group)?;
    for name in names {
        if !is_among(&disks, name) {
            return Ok(Some(ObjectFault::NoObject(*name)));
        }
    }
    Ok(None)
}

fn disk_names(alloc: Global, group: &[Object]) -> Result<Vec<Name>, OutOfMemory>
    ensures { IfOk result (λ disks. (name : List ℕ) → is_known disks.items name ≡ has_disk name group.now) }
{
    let mut disks = Vec::new(alloc);
    for object in group {
        if let Object::DiskRecord(disk) = object {
            disks.push(disk.name)?;
        }
    }
    Ok(disks)
}

fn is_among(names: &[Name], name: &Name) -> bool
    ensures { result ≡ is_known names.now name.now }
{
    names.iter().any(|other| same(other, name))
}

/// There is room for one more volume.
fn has_room(group: &[Object]) -> bool
    ensures { result ≡ has_room group.now }
{
    group.iter().filter(|object| is_vol(object)).count() < 64
}

fn is_vol(object: &Object) -> bool
    ensures { result ≡ is_vol (λ v. true) object.now }
{
    matches!(object, Object::VolRecord(_))
}

pub(crate) fn is_region_size(region: u64) -> bool
    ensures { result ≡ is_region_size region }
{
    matches!(region, 32 | 64 | 128 | 256 | 512 | 1024 | 2048)
}

/// The limits: how many volumes, the length of the name, regions, and the numbers of the request.
fn limit_fault(group: &[Object], new: &NewVolume) -> Option<ObjectFault>
    ensures { result ≡ limit_fault group.now new.now }
{
    let limit = if !has_room(group) {
        Limit::Volumes
    } else if new.vol.len() > 24 {
        Limit::Name
    } else if !is_region_size(new.request.region) {
        Limit::Region
    } else if Geometry::new(new.request.length, new.request.region).is_none() {
        Limit::Regions
    } else if !new.request.is_valid() {
        Limit::Number
    } else {
        return None;
    };
    Some(ObjectFault::Limit(limit))
}

pub(crate) fn has_name(group: &[Object], name: &Name) -> bool
    ensures { result ≡ has_name name.now group.now }
{
    group.iter().any(|object| same(object.name(), name))
}

/// The names of the volume and of its DCO are free; a volume of the name may be started without a record.
fn name_fault(
    alloc: Global,
    started: bool,
    group: &[Object],
    new: &NewVolume,
) -> Result<Option<ObjectFault>, OutOfMemory>
    ensures { IfOk result (λ fault. fault ≡ name_fault started group.now new.now) }
{
    if started || has_name(group, &new.vol) {
        return Ok(Some(ObjectFault::Exists(new.vol)));
    }
    let dco = dco_name(alloc, &new.vol)?;
    Ok(dco_fault_named(group, new, dco))
}

/// The DCO's name is the group's already, where there is to be one.
fn dco_fault_named(group: &[Object], new: &NewVolume, dco: Option<Name>) -> Option<ObjectFault>
    ensures { result ≡ dco_fault_named group.now new.now dco }
{
    match dco {
        Some(dco) if has_logs(new) && has_name(group, &dco) => Some(ObjectFault::Exists(dco)),
        _ => None,
    }
}

/// A volume of several plexes has a log.
fn log_fault(new: &NewVolume) -> Option<ObjectFault>
    ensures { result ≡ log_fault new.now }
{
    if new.request.mirrors <= 1 || has_logs(new) {
        None
    } else {
        Some(ObjectFault::NoLog(new.vol))
    }
}
