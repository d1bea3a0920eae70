ghost use Rattle.std.specs.Prelude.{◌≡◌};
ghost use Rattle.vx_rules.specs.References.{has_disk, has_plex, has_vol, has_dco_of, has_vol_with, missing, reference_fault};

use crate::index::Index;
use vx_config_parts::{Object, ObjectFault, refers, same};
use vx_names::Name;

/// The first name of a record that refers to nothing of the kind that it needs.
pub(crate) fn reference_fault(index: &Index, object: &Object) -> Option<ObjectFault>
    ensures { result ≡ reference_fault index.now.all.now object.now }
{
    match object {
        Object::GroupRecord(_) | Object::DiskRecord(_) => None,
        Object::SubdiskRecord(subdisk) => {
            if has_disk(&subdisk.disk, index) {
                missing_plex(&subdisk.plex, index)
            } else {
                Some(ObjectFault::NoObject(subdisk.disk))
            }
        }
        Object::PlexRecord(plex) => missing_vol(&plex.vol, index),
        Object::VolRecord(vol) => match missing_plex(&vol.prefer, index) {
            Some(fault) => Some(fault),
            None => missing_dco(&vol.dco, &vol.name, index),
        },
        Object::DcoRecord(dco) => {
            if has_vol_with(&dco.vol, &dco.name, index) {
                None
            } else {
                Some(ObjectFault::NoObject(dco.vol))
            }
        }
        Object::SnapRecord(snap) => {
            if !has_vol(&snap.vol, index) {
                Some(ObjectFault::NoObject(snap.vol))
            } else if !has_vol(&snap.of, index) {
                Some(ObjectFault::NoObject(snap.of))
            } else {
                None
            }
        }
    }
}

fn missing_plex(attribute: &Option<Name>, index: &Index) -> Option<ObjectFault>
    ensures { result ≡ missing attribute.now (λ name. has_plex name index.now.all.now) }
{
    match attribute {
        Some(name) if !has_plex(name, index) => Some(ObjectFault::NoObject(*name)),
        _ => None,
    }
}

fn missing_vol(attribute: &Option<Name>, index: &Index) -> Option<ObjectFault>
    ensures { result ≡ missing attribute.now (λ name. has_vol name index.now.all.now) }
{
    match attribute {
        Some(name) if !has_vol(name, index) => Some(ObjectFault::NoObject(*name)),
        _ => None,
    }
}

fn missing_dco(attribute: &Option<Name>, vol: &Name, index: &Index) -> Option<ObjectFault>
    ensures { result ≡ missing attribute.now (λ name. has_dco_of name vol.now index.now.all.now) }
{
    match attribute {
        Some(name) if !has_dco_of(name, vol, index) => Some(ObjectFault::NoObject(*name)),
        _ => None,
    }
}

#[tactic(auto, using(crate::proofs::Lookups::has_disk_is))]
fn has_disk(name: &Name, index: &Index) -> bool
    ensures { result ≡ has_disk name.now index.now.all.now }
{
    index.disk(name).is_some()
}

#[tactic(auto, using(crate::proofs::Lookups::has_plex_is))]
fn has_plex(name: &Name, index: &Index) -> bool
    ensures { result ≡ has_plex name.now index.now.all.now }
{
    index.plex(name).is_some()
}

#[tactic(auto, using(crate::proofs::Lookups::has_vol_is))]
fn has_vol(name: &Name, index: &Index) -> bool
    ensures { result ≡ has_vol name.now index.now.all.now }
{
    index.vol(name).is_some()
}

#[tactic(auto, using(crate::proofs::Lookups::has_dco_of_is))]
fn has_dco_of(name: &Name, vol: &Name, index: &Index) -> bool
    ensures { result ≡ has_dco_of name.now vol.now index.now.all.now }
{
    index.dco(name).is_some_and(|dco| same(&dco.vol, vol))
}

#[tactic(auto, using(crate::proofs::Lookups::has_vol_with_is))]
fn has_vol_with(name: &Name, dco: &Name, index: &Index) -> bool
    ensures { result ≡ has_vol_with name.now dco.now index.now.all.now }
{
    index.vol(name).is_some_and(|vol| refers(&vol.dco, dco))
}
