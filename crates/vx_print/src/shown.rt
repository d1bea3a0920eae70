//! Which records are shown of a configuration.
ghost use Rattle.std.specs.Prelude.{◌≡◌, Option, IfOk, IsTrue};
ghost use Rattle.std.specs.BTreeSet.{contains, IsFromIterResult};
ghost use Rattle.std.specs.Cmp.Lexicographic.{slice_cmp};
ghost use Rattle.std.specs.List.{filter, filter_map, list_all};
ghost use Rattle.std.specs.Option.{option_copied};
ghost use Rattle.std.specs.Ordering.{nat_cmp};
ghost use Rattle.vx_objects.specs.Config.{objects_of};
ghost use Rattle.vx_objects.specs.Printed.{has_record};
ghost use Rattle.vx_print.specs.Shown.{is_shown, is_of, names_one, plex_of};

use std::alloc::{AllocError, Global};
use std::collections::BTreeSet;
use vx_base::OutOfMemory;
use vx_config_parts::{refers, same};
use vx_names::Name;
use vx_objects::{Config, Object};

/// The objects that are shown.
pub(crate) fn shown(
    alloc: Global,
    config: &Config,
    only: Option<&Name>,
) -> Result<Vec<Object>, OutOfMemory>
    ensures shown { IfOk result (λ v. v.items ≡ filter (λ o. is_shown (option_copied only.entry) (objects_of config.now) o) (objects_of config.now)) }
    ensures records { IfOk result (λ v. IsTrue (list_all has_record v.items)) }
{
    let all = config.objects(alloc)?;
    match only {
        None => Ok(all),
        Some(vol) => of_volume(alloc, vol, &all),
    }
}

/// The objects of the volume.
fn of_volume(alloc: Global, vol: &Name, all: &[Object]) -> Result<Vec<Object>, OutOfMemory>
    ensures { IfOk result (λ v. v.items ≡ filter (λ o. is_shown (Option.Some vol.now) all.now o) all.now) }
{
    let plexes = plexes_of(alloc, vol, all)?;
    let shown = chosen(alloc, vol, &plexes, all)?;
    Ok(shown)
}

/// The names of the volume's plexes.
fn plexes_of(alloc: Global, vol: &Name, all: &[Object]) -> Result<BTreeSet<Name>, AllocError>
    ensures { IfOk result (λ s. IsFromIterResult (slice_cmp nat_cmp) (filter_map (plex_of vol.now) all.now) s) }
{
    all.iter()
        .filter_map(|object| plex_of(vol, object))
        .collect(alloc)
}

/// The name of the object, where it is a plex of the volume.
fn plex_of(vol: &Name, object: &Object) -> Option<Name>
    ensures { result ≡ plex_of vol.now object.now }
{
    match object {
        Object::PlexRecord(plex) if refers(&plex.vol, vol) => Some(plex.name),
        _ => None,
    }
}

fn chosen(
    alloc: Global,
    vol: &Name,
    plexes: &BTreeSet<Name>,
    all: &[Object],
) -> Result<Vec<Object>, AllocError>
    ensures { IfOk result (λ v. v.items ≡ filter (λ o. is_of vol.now (contains (slice_cmp nat_cmp) plexes.now) o) all.now) }
{
    all.iter()
        .filter(|object| is_of(vol, plexes, object))
        .copied()
        .collect(alloc)
}

/// The object is of the volume with these plexes.
fn is_of(vol: &Name, plexes: &BTreeSet<Name>, object: &Object) -> bool
    ensures { result ≡ is_of vol.now (contains (slice_cmp nat_cmp) plexes.now) object.now }
{
    match object {
        Object::SubdiskRecord(subdisk) => is_among(&subdisk.plex, plexes),
        Object::PlexRecord(plex) => refers(&plex.vol, vol),
        Object::VolRecord(other) => same(&other.name, vol),
        Object::DcoRecord(dco) => same(&dco.vol, vol),
        _ => false,
    }
}

fn is_among(attribute: &Option<Name>, plexes: &BTreeSet<Name>) -> bool
    ensures { result ≡ names_one attribute.now (contains (slice_cmp nat_cmp) plexes.now) }
{
    match attribute {
        None => false,
        Some(plex) => plexes.contains(plex),
    }
}
