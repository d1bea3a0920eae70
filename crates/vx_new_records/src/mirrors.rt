ghost use Rattle.std.specs.Prelude.{◌≡◌, ◌==◌, ◌&&◌, ℕ, List, IfOk, MatchOption, Some, None};
ghost use Rattle.std.specs.List.{count_by};
ghost use Rattle.std.specs.Str.{bytes_eq};
ghost use Rattle.vx_config_parts.specs.Objects.{is_plex, is_snap, refers, is_data_plex_of};
ghost use Rattle.vx_rules.specs.Maps.{has_data_plex, has_map, map_uses};
ghost use Rattle.vx_new_volumes.specs.Naming.{is_known};
ghost use Rattle.vx_new_records.specs.Named.{is_one_of};
ghost use Rattle.vx_new_volumes.specs.Mirrors.{plex_count, room_fault, mirror_fault, data_plex_of, map_number, lower, lowest_plex, data_disks, mirror_request, free_map, mirror_plex, plex_named, mirror_of};

use crate::known::Known;
use crate::laying::{Laid, put_plexes};
use crate::naming::next_name;
use crate::parts::join;
use crate::records::put_names;
use crate::tests::absent_disk;
use std::alloc::Global;
use vx_base::OutOfMemory;
use vx_config_parts::{Limit, Object, ObjectFault, Plex, PlexKind, PlexState, Vol, refers, same};
use vx_names::Name;
use vx_new_volumes::{Plan, Request};
use vx_objects::Listed;

/// Why the volume cannot get a data plex on these disks in a group of these records, whatever space there is.
pub fn mirror_fault(
    alloc: Global,
    group: &[Object],
    vol: &Vol,
    disks: &[Name],
) -> Result<Option<ObjectFault>, OutOfMemory>
    ensures { IfOk result (λ fault. fault ≡ mirror_fault group.now vol.now disks.now) }
{
    if let Some(fault) = absent_disk(alloc, group, disks)? {
        return Ok(Some(fault));
    }
    Ok(room_fault(group, vol))
}

/// There is room for one more plex, and a log for it.
pub fn room_fault(group: &[Object], vol: &Vol) -> Option<ObjectFault>
    ensures { result ≡ room_fault group.now vol.now }
{
    if plex_count(group, &vol.name) >= 32 {
        Some(ObjectFault::Limit(Limit::Plexes))
    } else if vol.dco.is_none() {
        Some(ObjectFault::NoLog(vol.name))
    } else {
        None
    }
}

pub(crate) fn plex_count(group: &[Object], vol: &Name) -> usize
    ensures { result ≡ plex_count group.now vol.now }
{
    group
        .iter()
        .filter(|object| is_plex_of(object, vol))
        .count()
}

fn is_plex_of(object: &Object, vol: &Name) -> bool
    ensures { result ≡ is_plex (λ p. refers p.vol vol.now) object.now }
{
    match object {
        Object::PlexRecord(plex) => refers(&plex.vol, vol),
        _ => false,
    }
}

/// The data plex of the volume with the lowest map.
pub fn lowest_plex(group: &[Object], vol: &Name) -> Option<Plex>
    ensures { result ≡ lowest_plex vol.now group.now }
{
    let mut found = None;
    for object in group {
        found = lower(found, data_plex_of(object, vol));
    }
    found
}

/// The record as a data plex of the volume, where it is one.
fn data_plex_of(object: &Object, vol: &Name) -> Option<Plex>
    ensures { result ≡ data_plex_of vol.now object.now }
{
    match object {
        Object::PlexRecord(plex) if is_data_of(plex, vol) => Some(*plex),
        _ => None,
    }
}

fn is_data_of(plex: &Plex, vol: &Name) -> bool
    ensures { result ≡ is_data_plex_of vol.now plex.now }
{
    refers(&plex.vol, vol) && plex.kind == PlexKind::Data
}

/// The one with the lower map, the first where their maps are equal.
fn lower(first: Option<Plex>, second: Option<Plex>) -> Option<Plex>
    ensures { result ≡ lower first second }
{
    match (first, second) {
        (None, _) => second,
        (Some(_), None) => first,
        (Some(p), Some(q)) => {
            if map_number(q.map) < map_number(p.map) {
                second
            } else {
                first
            }
        }
    }
}

fn map_number(map: Option<u8>) -> u8
    ensures { result ≡ map_number map }
{
    map.unwrap_or(0)
}

/// The request for one data plex like the lowest one, on other disks than the volume's data plexes lie on.
pub fn mirror_request(
    alloc: Global,
    group: &[Object],
    vol: &Vol,
    lowest: &Plex,
    disks: &[Name],
) -> Result<Request, OutOfMemory>
    ensures { IfOk result (λ request. request ≡ mirror_request group.now vol.now lowest.now disks.now) }
{
    let mut named = Vec::new(alloc);
    named.extend_from_slice(disks)?;
    let avoid = data_disks(alloc, group, &vol.name)?;
    Ok(Request {
        length: vol.len,
        region: vol.region,
        ncol: lowest.ncol,
        unit: lowest.unit,
        mirrors: 1,
        logs: 0,
        disks: Listed::from_vec(named),
        avoid: Listed::from_vec(avoid),
    })
}

/// The disks that the volume's data plexes lie on, which are looked up by their names.
fn data_disks(alloc: Global, group: &[Object], vol: &Name) -> Result<Vec<Name>, OutOfMemory>
    ensures { IfOk result (λ disks. disks.items ≡ data_disks group.now vol.now) }
{
    let plexes = Known::of(alloc, data_plex_names(alloc, group, vol)?)?;
    let mut disks = Vec::new(alloc);
    for object in group {
        match object {
            Object::SubdiskRecord(subdisk) if is_on(&plexes, &subdisk.plex) => {
                disks.push(subdisk.disk)?
            }
            _ => {}
        }
    }
    Ok(disks)
}

fn data_plex_names(alloc: Global, group: &[Object], vol: &Name) -> Result<Vec<Name>, OutOfMemory>
    ensures { IfOk result (λ names. (name : List ℕ) → is_known names.items name ≡ has_data_plex name vol.now group.now) }
{
    let mut names = Vec::new(alloc);
    for object in group {
        match object {
            Object::PlexRecord(plex) if is_data_of(plex, vol) => names.push(plex.name)?,
            _ => {}
        }
    }
    Ok(names)
}

fn is_on(plexes: &Known, plex: &Option<Name>) -> bool
    ensures { result ≡ is_one_of plexes.now.names.items plex.now }
{
    match plex {
        None => false,
        Some(name) => plexes.has(name),
    }
}

/// The lowest of the maps 0 to 29 that no data plex of the volume and none of its relations uses.
pub fn free_map(group: &[Object], vol: &Name) -> Option<u8>
    ensures { result ≡ free_map group.now vol.now }
{
    for map in 0..30 {
        if is_free(group, vol, map) {
            return Some(map);
        }
    }
    None
}

fn is_free(group: &[Object], vol: &Name, map: u8) -> bool
    ensures { result ≡ (map_uses group.now vol.now map == 0) }
{
    data_uses(group, vol, map) == 0
        && snapshot_uses(group, vol, map) == 0
        && original_uses(group, vol, map) == 0
}

fn data_uses(group: &[Object], vol: &Name, map: u8) -> usize
    ensures { result ≡ count_by (λ o. is_plex (λ p. is_data_plex_of vol.now p && has_map p.map map) o) group.now }
{
    group
        .iter()
        .filter(|object| is_data_with(object, vol, map))
        .count()
}

fn is_data_with(object: &Object, vol: &Name, map: u8) -> bool
    ensures { result ≡ is_plex (λ p. is_data_plex_of vol.now p && has_map p.map map) object.now }
{
    match object {
        Object::PlexRecord(plex) => is_data_of(plex, vol) && plex.map == Some(map),
        _ => false,
    }
}

fn snapshot_uses(group: &[Object], vol: &Name, map: u8) -> usize
    ensures { result ≡ count_by (λ o. is_snap (λ s. bytes_eq s.vol vol.now && s.map == map) o) group.now }
{
    group
        .iter()
        .filter(|object| is_snapshot_with(object, vol, map))
        .count()
}

fn is_snapshot_with(object: &Object, vol: &Name, map: u8) -> bool
    ensures { result ≡ is_snap (λ s. bytes_eq s.vol vol.now && s.map == map) object.now }
{
    match object {
        Object::SnapRecord(snap) => same(&snap.vol, vol) && snap.map == map,
        _ => false,
    }
}

fn original_uses(group: &[Object], vol: &Name, map: u8) -> usize
    ensures { result ≡ count_by (λ o. is_snap (λ s. bytes_eq s.of vol.now && s.ofmap == map) o) group.now }
{
    group
        .iter()
        .filter(|object| is_original_with(object, vol, map))
        .count()
}

fn is_original_with(object: &Object, vol: &Name, map: u8) -> bool
    ensures { result ≡ is_snap (λ s. bytes_eq s.of vol.now && s.ofmap == map) object.now }
{
    match object {
        Object::SnapRecord(snap) => same(&snap.of, vol) && snap.ofmap == map,
        _ => false,
    }
}

/// The records of a new data plex of the volume, which has this map and lies as is planned; None where a name would be too long.
pub fn mirror_of(
    alloc: Global,
    group: &[Object],
    vol: &Vol,
    lowest: &Plex,
    map: u8,
    plan: &Plan,
) -> Result<Option<Vec<Object>>, OutOfMemory>
    ensures { IfOk result (λ made. MatchOption made (mirror_of group.now vol.now lowest.now map plan.now ≡ None) (λ records. mirror_of group.now vol.now lowest.now map plan.now ≡ Some records.items)) }
{
    let mut names = Vec::new(alloc);
    put_names(&mut names, group)?;
    let known = Known::of(alloc, names)?;
    let Some(next) = next_name(alloc, &known, vol.name.as_bytes(), 1)? else {
        return Ok(None);
    };
    let plex = mirror_plex(vol, lowest, map, next.name);
    plex_named(alloc, known, plex, plan)
}

/// The plex, which holds nothing of the volume yet that its map does not mark.
fn mirror_plex(vol: &Vol, lowest: &Plex, map: u8, name: Name) -> Plex
    ensures { result ≡ mirror_plex vol.now lowest.now map name }
{
    Plex {
        name,
        vol: Some(vol.name),
        kind: PlexKind::Data,
        layout: lowest.layout,
        ncol: lowest.ncol,
        unit: lowest.unit,
        state: PlexState::Active,
        map: Some(map),
    }
}

/// The plex and its subdisks.
fn plex_named(
    alloc: Global,
    known: Known,
    plex: Plex,
    plan: &Plan,
) -> Result<Option<Vec<Object>>, OutOfMemory>
    ensures { IfOk result (λ made. MatchOption made (plex_named known.names.items plex plan.now ≡ None) (λ records. plex_named known.names.items plex plan.now ≡ Some records.items)) }
{
    let names = [plex.name];
    let known = known.and(alloc, &names, &[])?;
    let none = Laid::none(alloc);
    let Some(laid) = put_plexes(alloc, &known, &names, plan.plexes.as_slice(), none)? else {
        return Ok(None);
    };
    let mut records = Vec::new(alloc);
    join(&[Object::PlexRecord(plex)], &mut records)?;
    join(&laid.objects, &mut records)?;
    Ok(Some(records))
}
