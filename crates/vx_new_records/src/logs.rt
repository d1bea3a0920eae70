ghost use Rattle.std.specs.Prelude.{◌≡◌, ◌&&◌, true, IfOk, MatchOption, Some, None};
ghost use Rattle.vx_config_parts.specs.Objects.{is_plex, is_log_plex_of};
ghost use Rattle.vx_rules.specs.Maps.{is_in_use, log_count};
ghost use Rattle.vx_new_volumes.specs.Rule.{is_request};
ghost use Rattle.vx_new_volumes.specs.Logs.{region_with, logs_limit_fault, told_dco, dco_fault, logs_fit, new_dco_fault, logs_fault, logs_request, logs_named, logs_of};

use crate::known::Known;
use crate::laying::{Laid, put_logs};
use crate::mirrors::plex_count;
use crate::naming::new_names;
use crate::parts::{join, logs_in};
use crate::records::{dco_name, log_stem, put_names};
use crate::tests::{has_name, is_region_size};
use std::alloc::Global;
use vx_base::OutOfMemory;
use vx_block::Geometry;
use vx_config_parts::{Limit, Object, ObjectFault, PlexKind, PlexState, Vol, refers};
use vx_names::Name;
use vx_new_volumes::{Plan, Request};
use vx_objects::Listed;

/// Why the volume cannot get so many logs, and this region where one is given, in a group of these records, whatever space there is. A
/// request that passes is valid.
pub fn logs_fault(
    alloc: Global,
    group: &[Object],
    vol: &Vol,
    count: u32,
    region: Option<u64>,
) -> Result<Option<ObjectFault>, OutOfMemory>
    ensures fault { IfOk result (λ fault. fault ≡ logs_fault group.now vol.now count region) }
    ensures valid { IfOk result (λ fault. fault ≡ None → is_request (logs_request vol.now count region) ≡ true) }
{
    if let Some(fault) = limit_fault(group, vol, count, region_with(vol, region)) {
        return Ok(Some(fault));
    }
    new_dco_fault(alloc, group, vol, count)
}

/// The region that the volume is to have: its own, where none is given.
fn region_with(vol: &Vol, region: Option<u64>) -> u64
    ensures { result ≡ region_with vol.now region }
{
    region.unwrap_or(vol.region)
}

/// The limits: the region, regions, and how many plexes.
fn limit_fault(group: &[Object], vol: &Vol, count: u32, region: u64) -> Option<ObjectFault>
    ensures { result ≡ logs_limit_fault group.now vol.now count region }
{
    let limit = if !is_region_size(region) {
        Limit::Region
    } else if Geometry::new(vol.len, region).is_none() {
        Limit::Regions
    } else if plex_count(group, &vol.name).saturating_add(count as usize) > 32 {
        Limit::Plexes
    } else {
        return None;
    };
    Some(ObjectFault::Limit(limit))
}

/// No DCO and none of its name is there, and the number of logs is right.
fn new_dco_fault(
    alloc: Global,
    group: &[Object],
    vol: &Vol,
    count: u32,
) -> Result<Option<ObjectFault>, OutOfMemory>
    ensures { IfOk result (λ fault. fault ≡ new_dco_fault group.now vol.now count) }
{
    let dco = dco_name(alloc, &vol.name)?;
    if let Some(fault) = dco_fault(group, vol.dco, dco) {
        return Ok(Some(fault));
    }
    if logs_fit(group, &vol.name, count) {
        return Ok(None);
    }
    Ok(Some(ObjectFault::NoLog(vol.name)))
}

/// The volume has that DCO, or else some record has the name of the new one.
fn dco_fault(group: &[Object], old: Option<Name>, new: Option<Name>) -> Option<ObjectFault>
    ensures { result ≡ dco_fault group.now old new }
{
    match (old, new) {
        (Some(dco), new) => Some(ObjectFault::Exists(told_dco(dco, new))),
        (None, Some(dco)) if has_name(group, &dco) => Some(ObjectFault::Exists(dco)),
        _ => None,
    }
}

/// The name that is told of a volume which has this DCO: that of the new one, or its own where that would be too long.
fn told_dco(dco: Name, new: Option<Name>) -> Name
    ensures { result ≡ told_dco dco new }
{
    match new {
        Some(name) => name,
        None => dco,
    }
}

/// One log or two are to be made, and the volume has none in use.
fn logs_fit(group: &[Object], vol: &Name, count: u32) -> bool
    ensures { result ≡ logs_fit group.now vol.now count }
{
    count >= 1 && count <= 2 && log_count(group, vol) == 0
}

fn log_count(group: &[Object], vol: &Name) -> usize
    ensures { result ≡ log_count group.now vol.now }
{
    group
        .iter()
        .filter(|object| is_log_in_use(object, vol))
        .count()
}

fn is_log_in_use(object: &Object, vol: &Name) -> bool
    ensures { result ≡ is_plex (λ p. is_log_plex_of vol.now p && is_in_use p.state) object.now }
{
    match object {
        Object::PlexRecord(plex) => refers(&plex.vol, vol)
            && plex.kind == PlexKind::Log
            && is_in_use(plex.state),
        _ => false,
    }
}

fn is_in_use(state: PlexState) -> bool
    ensures { result ≡ is_in_use state }
{
    matches!(state, PlexState::Active | PlexState::Empty)
}

/// The request for so many logs, on any disks.
pub fn logs_request(alloc: Global, vol: &Vol, count: u32, region: Option<u64>) -> Request
    ensures { result ≡ logs_request vol.now count region }
{
    Request {
        length: vol.len,
        region: region_with(vol, region),
        ncol: 1,
        unit: 128,
        mirrors: 0,
        logs: count,
        disks: Listed::from_vec(Vec::new(alloc)),
        avoid: Listed::from_vec(Vec::new(alloc)),
    }
}

/// The records of logs of the volume, which lie as is planned and are in this state, in a group that is to have a DCO of that name; None
/// where a name would be too long.
pub fn logs_of(
    alloc: Global,
    group: &[Object],
    vol: &Vol,
    dco: Name,
    plan: &Plan,
    state: PlexState,
) -> Result<Option<Vec<Object>>, OutOfMemory>
    ensures { IfOk result (λ made. MatchOption made (logs_of group.now vol.now dco plan.now state ≡ None) (λ records. logs_of group.now vol.now dco plan.now state ≡ Some records.items)) }
{
    let mut names = Vec::new(alloc);
    names.push(dco)?;
    put_names(&mut names, group)?;
    let known = Known::of(alloc, names)?;
    let stem = log_stem(alloc, &vol.name)?;
    let Some(logs) = new_names(alloc, &known, plan.logs.as_slice().len(), &stem)? else {
        return Ok(None);
    };
    logs_named(alloc, known, vol, &logs, plan, state)
}

/// Logs of these names and their subdisks.
fn logs_named(
    alloc: Global,
    known: Known,
    vol: &Vol,
    names: &[Name],
    plan: &Plan,
    state: PlexState,
) -> Result<Option<Vec<Object>>, OutOfMemory>
    ensures { IfOk result (λ made. MatchOption made (logs_named known.names.items vol.now names.now plan.now state ≡ None) (λ records. logs_named known.names.items vol.now names.now plan.now state ≡ Some records.items)) }
{
    let known = known.and(alloc, names, &[])?;
    let none = Laid::none(alloc);
    let Some(laid) = put_logs(alloc, &known, names, plan.logs.as_slice(), none)? else {
        return Ok(None);
    };
    let mut records = Vec::new(alloc);
    join(&logs_in(alloc, vol.name, state, names)?, &mut records)?;
    join(&laid.objects, &mut records)?;
    Ok(Some(records))
}
