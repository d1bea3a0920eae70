ghost use Rattle.std.specs.Prelude.{◌≡◌, ◌&&◌, ◌+◌, ℕ, nat_lt, [], IfOk, true};
ghost use Rattle.std.specs.List.{list_any, list_all};
ghost use Rattle.vx_config_parts.specs.Objects.{is_subdisk, comes_before};
ghost use Rattle.vx_rules.specs.Overlap.{shares_sector, overlaps_earlier, lesser, first_overlap_with, first_overlap, overlap_of, overlap_fault};
ghost use Rattle.vx_rules.specs.Extents.{has_sector, names_rise, rises_from, first_clash};

use crate::extent::{Extent, extents_of};
use crate::laid::Laid;
use std::alloc::Global;
use vx_base::OutOfMemory;
use vx_config_parts::{Object, ObjectFault, Subdisk, comes_before, same};
use vx_names::Name;

/// The first subdisk by name that overlaps one that comes before it by name.
pub fn overlap_fault(alloc: Global, all: &[Object]) -> Result<Option<ObjectFault>, OutOfMemory>
    ensures { IfOk result (λ fault. fault ≡ overlap_fault all.now) }
{
    let mut extents = extents_of(alloc, all)?;
    extents.sort_by_key(|extent| extent.name)?;
    if names_rise(&extents) && all_have_sectors(&extents) {
        let first = first_clash(alloc, &extents)?;
        Ok(overlap_of(first))
    } else {
        Ok(overlap_of(first_overlap(all)))
    }
}

fn overlap_of(first: Option<Name>) -> Option<ObjectFault>
    ensures { result ≡ overlap_of first }
{
    match first {
        Some(name) => Some(ObjectFault::Overlap(name)),
        None => None,
    }
}

fn all_have_sectors(extents: &[Extent]) -> bool
    ensures { result ≡ list_all has_sector extents.now }
{
    extents.iter().all(|extent| extent.len > 0)
}

fn names_rise(extents: &[Extent]) -> bool
    ensures { result ≡ names_rise None extents.now }
{
    let mut last = None;
    for extent in extents {
        if !rises_from(&last, &extent.name) {
            return false;
        }
        last = Some(extent.name);
    }
    true
}

fn rises_from(last: &Option<Name>, name: &Name) -> bool
    ensures { result ≡ rises_from last.now name.now }
{
    match last {
        None => true,
        Some(last) => comes_before(last, name),
    }
}

/// The first that meets one before it, each being laid in turn.
fn first_clash(alloc: Global, extents: &[Extent]) -> Result<Option<Name>, OutOfMemory>
    requires { list_all has_sector extents.now ≡ true }
    ensures { IfOk result (λ first. first ≡ first_clash [] extents.now) }
{
    let mut laid = Laid::new(alloc);
    for extent in extents {
        if laid.meets(extent) {
            return Ok(Some(extent.name));
        }
        laid.lay(extent)?;
    }
    Ok(None)
}

/// Where names repeat or a subdisk is empty, which the rules before this one refuse, all pairs are looked at.
fn first_overlap(all: &[Object]) -> Option<Name>
    ensures { result ≡ first_overlap all.now }
{
    let mut best = None;
    for object in all {
        best = first_overlap_with(all, best, object);
    }
    best
}

fn first_overlap_with(all: &[Object], best: Option<Name>, object: &Object) -> Option<Name>
    ensures { result ≡ first_overlap_with all.now best object.now }
{
    match object {
        Object::SubdiskRecord(subdisk) if overlaps_earlier(all, subdisk) => Some(lesser(
            best,
            &subdisk.name,
        )),
        _ => best,
    }
}

fn lesser(best: Option<Name>, name: &Name) -> Name
    ensures { Some result ≡ lesser best name.now }
{
    match best {
        Some(other) if !comes_before(name, &other) => other,
        _ => *name,
    }
}

fn overlaps_earlier(all: &[Object], subdisk: &Subdisk) -> bool
    ensures { result ≡ overlaps_earlier all.now subdisk.now }
{
    all.iter().any(|object| is_earlier_on(object, subdisk))
}

fn is_earlier_on(object: &Object, subdisk: &Subdisk) -> bool
    ensures { result ≡ is_subdisk (λ t. comes_before t.name subdisk.now.name && shares_sector subdisk.now t) object.now }
{
    match object {
        Object::SubdiskRecord(other) => comes_before(&other.name, &subdisk.name)
            && shares_sector(subdisk, other),
        _ => false,
    }
}

fn shares_sector(a: &Subdisk, b: &Subdisk) -> bool
    ensures { result ≡ shares_sector a.now b.now }
{
    same(&a.disk, &b.disk) && is_below_end(a.off, b.off, b.len) && is_below_end(b.off, a.off, a.len)
}

fn is_below_end(sector: u64, off: u64, len: u64) -> bool
    ensures { result ≡ nat_lt sector (off + len) }
{
    sector < off || sector - off < len
}
