ghost use Rattle.std.specs.Prelude.{◌≡◌, ◌&&◌, ◌==◌, ℕ};
ghost use Rattle.std.specs.List.{list_any, list_all, count_by};
ghost use Rattle.std.specs.Str.{bytes_eq};
ghost use Rattle.vx_config_parts.specs.Objects.{is_plex, is_vol, is_snap, refers, is_data_plex_of, is_log_plex_of};
ghost use Rattle.vx_rules.specs.Maps.{has_map, map_uses, plex_map_fits, maps_fit, maps_differ, maps_are_good, map_fault, is_in_use, log_count, data_count, logs_are_good, log_fault, has_data_plex, prefer_fault_of, prefer_fault};

use crate::index::Index;
use crate::limits::{is_data_of, is_data_plex_of};
use crate::uses::uses_of_maps;
use vx_config_parts::{Object, ObjectFault, PlexKind, PlexState, PolicyKind, Vol, refers, same};
use vx_names::Name;

/// The maps of a volume are 0 to 29 and differ, and stand exactly where they are needed.
pub(crate) fn map_fault(all: &[Object], object: &Object) -> Option<ObjectFault>
    ensures { result ≡ map_fault all.now object.now }
{
    match object {
        Object::VolRecord(vol) => {
            if maps_are_good(all, vol) {
                None
            } else {
                Some(ObjectFault::NoMap(vol.name))
            }
        }
        Object::PlexRecord(plex) => {
            if plex.vol.is_some() || plex.map.is_none() {
                None
            } else {
                Some(ObjectFault::NoMap(plex.name))
            }
        }
        _ => None,
    }
}

fn maps_are_good(all: &[Object], vol: &Vol) -> bool
    ensures { result ≡ maps_are_good all.now vol.now }
{
    maps_fit_all(all, vol) && maps_differ(all, &vol.name)
}

fn maps_fit_all(all: &[Object], vol: &Vol) -> bool
    ensures { result ≡ list_all (λ o. maps_fit vol.now o) all.now }
{
    all.iter().all(|object| maps_fit(vol, object))
}

fn maps_fit(vol: &Vol, object: &Object) -> bool
    ensures { result ≡ maps_fit vol.now object.now }
{
    match object {
        Object::PlexRecord(plex) => {
            !refers(&plex.vol, &vol.name) || plex_map_fits(plex.kind, vol.dco.is_some(), plex.map)
        }
        Object::SnapRecord(snap) => {
            (!same(&snap.vol, &vol.name) || snap.map < 30)
                && (!same(&snap.of, &vol.name) || snap.ofmap < 30)
        }
        _ => true,
    }
}

fn plex_map_fits(kind: PlexKind, prepared: bool, map: Option<u8>) -> bool
    ensures { result ≡ plex_map_fits kind prepared map }
{
    match (kind, map) {
        (PlexKind::Data, None) => !prepared,
        (PlexKind::Data, Some(map)) => prepared && map < 30,
        (PlexKind::Log, None) => true,
        (PlexKind::Log, Some(_)) => false,
    }
}

fn maps_differ(all: &[Object], vol: &Name) -> bool
    ensures { result ≡ maps_differ all.now vol.now }
{
    let uses = uses_of_maps(all, vol);
    for map in 0..30 {
        if uses[map] > 1 {
            return false;
        }
    }
    true
}

/// A volume with two or more data plexes has a DCO; one with a DCO has one or two logs in use.
pub(crate) fn log_fault(all: &[Object], object: &Object) -> Option<ObjectFault>
    ensures { result ≡ log_fault all.now object.now }
{
    match object {
        Object::VolRecord(vol) if !logs_are_good(all, &vol.name, &vol.dco) => Some(
            ObjectFault::NoLog(vol.name),
        ),
        _ => None,
    }
}

fn logs_are_good(all: &[Object], vol: &Name, dco: &Option<Name>) -> bool
    ensures { result ≡ logs_are_good all.now vol.now dco.now }
{
    match dco {
        None => data_count(all, vol) <= 1,
        Some(_) => {
            let logs = log_count(all, vol);
            logs >= 1 && logs <= 2
        }
    }
}

fn data_count(all: &[Object], vol: &Name) -> usize
    ensures { result ≡ data_count all.now vol.now }
{
    all.iter()
        .filter(|object| is_data_plex_of(object, vol))
        .count()
}

fn log_count(all: &[Object], vol: &Name) -> usize
    ensures { result ≡ log_count all.now vol.now }
{
    all.iter()
        .filter(|object| is_log_in_use(object, vol))
        .count()
}

fn is_log_in_use(object: &Object, vol: &Name) -> bool
    ensures { result ≡ is_plex (λ p. is_log_plex_of vol.now p && is_in_use p.state) object.now }
{
    match object {
        Object::PlexRecord(plex) => refers(&plex.vol, vol)
            && plex.kind == PlexKind::Log
            && is_in_use(plex.state),
        _ => false,
    }
}

fn is_in_use(state: PlexState) -> bool
    ensures { result ≡ is_in_use state }
{
    matches!(state, PlexState::Active | PlexState::Empty)
}

/// A plex is preferred exactly where the policy prefers one, and it is a data plex of the volume.
pub(crate) fn prefer_fault(index: &Index, object: &Object) -> Option<ObjectFault>
    ensures { result ≡ prefer_fault index.now.all.now object.now }
{
    match object {
        Object::VolRecord(vol) => prefer_fault_of(index, &vol.name, vol.rdpol, &vol.prefer),
        _ => None,
    }
}

fn prefer_fault_of(
    index: &Index,
    vol: &Name,
    policy: PolicyKind,
    prefer: &Option<Name>,
) -> Option<ObjectFault>
    ensures { result ≡ prefer_fault_of index.now.all.now vol.now policy prefer.now }
{
    match (policy, prefer) {
        (PolicyKind::Prefer, Some(plex)) if has_data_plex(plex, vol, index) => None,
        (PolicyKind::Prefer, None) => Some(ObjectFault::NoObject(*vol)),
        (_, Some(plex)) => Some(ObjectFault::NoObject(*plex)),
        (_, None) => None,
    }
}

#[tactic(auto, using(crate::proofs::Lookups::has_data_plex_is))]
fn has_data_plex(name: &Name, vol: &Name, index: &Index) -> bool
    ensures { result ≡ has_data_plex name.now vol.now index.now.all.now }
{
    index.plex(name).is_some_and(|plex| is_data_of(plex, vol))
}
