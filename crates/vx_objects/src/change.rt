//! What an edit does to the records.
ghost use Rattle.std.specs.Prelude.{◌≡◌, ◌++◌, ◌&&◌, IfOk, OnOk, ℕ};
ghost use Rattle.std.specs.List.{filter_map, list_any};
ghost use Rattle.std.specs.Str.{bytes_eq};
ghost use Rattle.vx_config_parts.specs.Objects.{is_plex, is_vol, is_dco, is_snap, refers};
ghost use Rattle.vx_rules.specs.Faults.{unless};
ghost use Rattle.vx_rules.specs.References.{has_plex, has_vol};
ghost use Rattle.vx_objects.specs.Edits.{set_plex, policy_kind, policy_plex, set_vol, set_region, set_dco, without_dco, stays_without_plex, names_plex_of, stays_without_vol, stays_without_snap, kept, change, added, edited, has_dco, has_snap, target_fault};

use crate::edit::Edit;
use crate::parts::join;
use crate::{Object, ObjectFault, Plex, PlexState, PolicyKind, PolicyName, Vol, VolState};
use std::alloc::{AllocError, Global};
use vx_base::OutOfMemory;
use vx_config_parts::{refers, same};
use vx_names::Name;

/// The records after an edit.
pub(crate) fn edited(alloc: Global, edit: &Edit, all: &[Object]) -> Result<Vec<Object>, OutOfMemory>
    ensures { IfOk result (λ v. v.items ≡ edited edit.now all.now) }
{
    let mut out = changed(alloc, edit, all)?;
    add(edit, &mut out)?;
    Ok(out)
}

fn changed(alloc: Global, edit: &Edit, all: &[Object]) -> Result<Vec<Object>, AllocError>
    ensures { IfOk result (λ v. v.items ≡ filter_map (λ o. change edit.now all.now o) all.now) }
{
    all.iter()
        .filter_map(|object| change(edit, all, object))
        .collect(alloc)
}

#[tactic(auto, unfolding(crate::specs::Edits::added))]
fn add(edit: &Edit, out: &mut Vec<Object>) -> Result<(), AllocError>
    ensures { OnOk result (out.new.items ≡ out.old.items ++ added edit.now) }
{
    match edit {
        Edit::AddDisk(disk) => join(&[Object::DiskRecord(*disk)], out),
        Edit::Make(objects) => join(objects.as_slice(), out),
        Edit::AddDco(dco) => join(&[Object::DcoRecord(*dco)], out),
        Edit::AddSnap(snap) => join(&[Object::SnapRecord(*snap)], out),
        _ => Ok(()),
    }
}

#[tactic(auto, unfolding(crate::specs::Edits::change))]
fn change(edit: &Edit, all: &[Object], object: &Object) -> Option<Object>
    ensures { result ≡ change edit.now all.now object.now }
{
    match edit {
        Edit::SetPlex {
            plex,
            vol,
            state,
            map,
        } => Some(set_plex(plex, vol, *state, *map, object)),
        Edit::SetVol { vol, state, policy } => Some(set_vol(vol, *state, policy, object)),
        Edit::SetRegion { vol, region } => Some(set_region(vol, *region, object)),
        Edit::AddDco(dco) => Some(set_dco(&dco.vol, &dco.name, object)),
        Edit::RemovePlex(plex) => kept(stays_without_plex(plex, object), object),
        Edit::RemoveVol(vol) => kept(stays_without_vol(vol, all, object), object),
        Edit::RemoveDco(dco) => without_dco(dco, object),
        Edit::RemoveSnap(snap) => kept(stays_without_snap(snap, object), object),
        Edit::AddDisk(_) | Edit::Make(_) | Edit::AddSnap(_) => Some(*object),
    }
}

fn kept(stays: bool, object: &Object) -> Option<Object>
    ensures { result ≡ kept stays object.now }
{
    if stays { Some(*object) } else { None }
}

fn set_plex(
    name: &Name,
    vol: &Option<Name>,
    state: PlexState,
    map: Option<u8>,
    object: &Object,
) -> Object
    ensures { result ≡ set_plex name.now vol.now state map object.now }
{
    match object {
        Object::PlexRecord(plex) if same(&plex.name, name) => Object::PlexRecord(Plex {
            name: plex.name,
            vol: *vol,
            kind: plex.kind,
            layout: plex.layout,
            ncol: plex.ncol,
            unit: plex.unit,
            state,
            map,
        }),
        _ => *object,
    }
}

fn set_vol(name: &Name, state: VolState, policy: &PolicyName, object: &Object) -> Object
    ensures { result ≡ set_vol name.now state policy.now object.now }
{
    match object {
        Object::VolRecord(vol) if same(&vol.name, name) => Object::VolRecord(Vol {
            name: vol.name,
            len: vol.len,
            region: vol.region,
            rdpol: policy_kind(policy),
            prefer: policy_plex(policy),
            state,
            dco: vol.dco,
        }),
        _ => *object,
    }
}

fn policy_kind(policy: &PolicyName) -> PolicyKind
    ensures { result ≡ policy_kind policy.now }
{
    match policy {
        PolicyName::Round => PolicyKind::Round,
        PolicyName::Prefer(_) => PolicyKind::Prefer,
        PolicyName::Select => PolicyKind::Select,
    }
}

fn policy_plex(policy: &PolicyName) -> Option<Name>
    ensures { result ≡ policy_plex policy.now }
{
    match policy {
        PolicyName::Prefer(plex) => Some(*plex),
        _ => None,
    }
}

fn set_region(name: &Name, region: u64, object: &Object) -> Object
    ensures { result ≡ set_region name.now region object.now }
{
    match object {
        Object::VolRecord(vol) if same(&vol.name, name) => Object::VolRecord(Vol {
            name: vol.name,
            len: vol.len,
            region,
            rdpol: vol.rdpol,
            prefer: vol.prefer,
            state: vol.state,
            dco: vol.dco,
        }),
        _ => *object,
    }
}

fn set_dco(name: &Name, dco: &Name, object: &Object) -> Object
    ensures { result ≡ set_dco name.now dco.now object.now }
{
    match object {
        Object::VolRecord(vol) if same(&vol.name, name) => with_dco(vol, Some(*dco)),
        _ => *object,
    }
}

fn with_dco(vol: &Vol, dco: Option<Name>) -> Object
    ensures { result ≡ Object.VolRecord (record vol.now { dco = dco }) }
{
    Object::VolRecord(Vol {
        name: vol.name,
        len: vol.len,
        region: vol.region,
        rdpol: vol.rdpol,
        prefer: vol.prefer,
        state: vol.state,
        dco,
    })
}

fn without_dco(dco: &Name, object: &Object) -> Option<Object>
    ensures { result ≡ without_dco dco.now object.now }
{
    match object {
        Object::VolRecord(vol) if refers(&vol.dco, dco) => Some(with_dco(vol, None)),
        Object::DcoRecord(other) if same(&other.name, dco) => None,
        _ => Some(*object),
    }
}

fn stays_without_plex(name: &Name, object: &Object) -> bool
    ensures { result ≡ stays_without_plex name.now object.now }
{
    match object {
        Object::PlexRecord(plex) => !same(&plex.name, name),
        Object::SubdiskRecord(subdisk) => !refers(&subdisk.plex, name),
        _ => true,
    }
}

fn stays_without_vol(name: &Name, all: &[Object], object: &Object) -> bool
    ensures { result ≡ stays_without_vol name.now all.now object.now }
{
    match object {
        Object::VolRecord(vol) => !same(&vol.name, name),
        Object::PlexRecord(plex) => !refers(&plex.vol, name),
        Object::SubdiskRecord(subdisk) => !names_plex_of(&subdisk.plex, name, all),
        Object::DcoRecord(dco) => !same(&dco.vol, name),
        _ => true,
    }
}

fn names_plex_of(attribute: &Option<Name>, vol: &Name, all: &[Object]) -> bool
    ensures { result ≡ names_plex_of attribute.now vol.now all.now }
{
    all.iter()
        .any(|object| is_plex_referred(object, attribute, vol))
}

fn is_plex_referred(object: &Object, attribute: &Option<Name>, vol: &Name) -> bool
    ensures { result ≡ is_plex (λ p. refers attribute.now p.name && refers p.vol vol.now) object.now }
{
    match object {
        Object::PlexRecord(plex) => refers(attribute, &plex.name) && refers(&plex.vol, vol),
        _ => false,
    }
}

fn stays_without_snap(name: &Name, object: &Object) -> bool
    ensures { result ≡ stays_without_snap name.now object.now }
{
    match object {
        Object::SnapRecord(snap) => !same(&snap.name, name),
        _ => true,
    }
}

/// The refusal where the record that an edit changes or removes is not there.
#[tactic(auto, unfolding(crate::specs::Edits::target_fault))]
pub(crate) fn target_fault(edit: &Edit, all: &[Object]) -> Option<ObjectFault>
    ensures { result ≡ target_fault edit.now all.now }
{
    match edit {
        Edit::SetPlex { plex, .. } => unless(has_plex(plex, all), plex),
        Edit::SetVol { vol, .. } => unless(has_vol(vol, all), vol),
        Edit::RemovePlex(plex) => unless(has_plex(plex, all), plex),
        Edit::RemoveVol(vol) => unless(has_vol(vol, all), vol),
        Edit::RemoveDco(dco) => unless(has_dco(dco, all), dco),
        Edit::RemoveSnap(snap) => unless(has_snap(snap, all), snap),
        Edit::SetRegion { vol, .. } => unless(has_vol(vol, all), vol),
        _ => None,
    }
}

fn unless(there: bool, name: &Name) -> Option<ObjectFault>
    ensures { result ≡ unless there (ObjectFault.NoObject name.now) }
{
    if there {
        None
    } else {
        Some(ObjectFault::NoObject(*name))
    }
}

fn has_plex(name: &Name, all: &[Object]) -> bool
    ensures { result ≡ has_plex name.now all.now }
{
    all.iter().any(|object| is_plex_named(object, name))
}

fn is_plex_named(object: &Object, name: &Name) -> bool
    ensures { result ≡ is_plex (λ p. bytes_eq p.name name.now) object.now }
{
    match object {
        Object::PlexRecord(plex) => same(&plex.name, name),
        _ => false,
    }
}

fn has_vol(name: &Name, all: &[Object]) -> bool
    ensures { result ≡ has_vol name.now all.now }
{
    all.iter().any(|object| is_vol_named(object, name))
}

fn is_vol_named(object: &Object, name: &Name) -> bool
    ensures { result ≡ is_vol (λ v. bytes_eq v.name name.now) object.now }
{
    match object {
        Object::VolRecord(vol) => same(&vol.name, name),
        _ => false,
    }
}

fn has_dco(name: &Name, all: &[Object]) -> bool
    ensures { result ≡ has_dco name.now all.now }
{
    all.iter().any(|object| is_dco_named(object, name))
}

fn is_dco_named(object: &Object, name: &Name) -> bool
    ensures { result ≡ is_dco (λ d. bytes_eq d.name name.now) object.now }
{
    match object {
        Object::DcoRecord(dco) => same(&dco.name, name),
        _ => false,
    }
}

fn has_snap(name: &Name, all: &[Object]) -> bool
    ensures { result ≡ has_snap name.now all.now }
{
    all.iter().any(|object| is_snap_named(object, name))
}

fn is_snap_named(object: &Object, name: &Name) -> bool
    ensures { result ≡ is_snap (λ s. bytes_eq s.name name.now) object.now }
{
    match object {
        Object::SnapRecord(snap) => same(&snap.name, name),
        _ => false,
    }
}
