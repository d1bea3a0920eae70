ghost use Rattle.std.specs.Prelude.{◌≡◌, ◌&&◌, ◌==◌, ℕ};
ghost use Rattle.std.specs.List.{list_any, count_by};
ghost use Rattle.std.specs.Str.{bytes_eq};
ghost use Rattle.vx_config_parts.specs.Objects.{is_snap};
ghost use Rattle.vx_rules.specs.Faults.{first_some, unless};
ghost use Rattle.vx_rules.specs.Relations.{relation_is_alone, relation_fault, is_prepared, relation_log_fault, has_shape, shapes_are_equal, shape_fault};

use crate::index::Index;
use vx_config_parts::{Limit, Object, ObjectFault, Snap, same};
use vx_names::Name;

/// A snapshot has one relation, and its original is no snapshot. So at most as many relations are looked at as there are
/// volumes, and one more.
pub(crate) fn relation_fault(all: &[Object], object: &Object) -> Option<ObjectFault>
    ensures { result ≡ relation_fault all.now object.now }
{
    match object {
        Object::SnapRecord(snap) => in_use(all, snap),
        _ => None,
    }
}

fn in_use(all: &[Object], snap: &Snap) -> Option<ObjectFault>
    ensures { result ≡ unless (relation_is_alone all.now snap.now) (ObjectFault.InUse snap.now.vol) }
{
    if relation_is_alone(all, snap) {
        None
    } else {
        Some(ObjectFault::InUse(snap.vol))
    }
}

fn relation_is_alone(all: &[Object], snap: &Snap) -> bool
    ensures { result ≡ relation_is_alone all.now snap.now }
{
    relation_count(all, &snap.vol) == 1 && !is_snapshot(all, &snap.of)
}

fn relation_count(all: &[Object], vol: &Name) -> usize
    ensures { result ≡ count_by (λ o. is_snap (λ t. bytes_eq t.vol vol.now) o) all.now }
{
    all.iter()
        .filter(|object| is_relation_of(object, vol))
        .count()
}

fn is_snapshot(all: &[Object], vol: &Name) -> bool
    ensures { result ≡ list_any (λ o. is_snap (λ t. bytes_eq t.vol vol.now) o) all.now }
{
    all.iter().any(|object| is_relation_of(object, vol))
}

fn is_relation_of(object: &Object, vol: &Name) -> bool
    ensures { result ≡ is_snap (λ t. bytes_eq t.vol vol.now) object.now }
{
    match object {
        Object::SnapRecord(snap) => same(&snap.vol, vol),
        _ => false,
    }
}

/// A snapshot and its original each have a DCO.
pub(crate) fn relation_log_fault(index: &Index, object: &Object) -> Option<ObjectFault>
    ensures { result ≡ relation_log_fault index.now.all.now object.now }
{
    match object {
        Object::SnapRecord(snap) => unprepared(index, snap),
        _ => None,
    }
}

fn unprepared(index: &Index, snap: &Snap) -> Option<ObjectFault>
    ensures { result ≡ first_some (unless (is_prepared index.now.all.now snap.now.vol) (ObjectFault.NoLog snap.now.vol)) (unless (is_prepared index.now.all.now snap.now.of) (ObjectFault.NoLog snap.now.of)) }
{
    if !is_prepared(index, &snap.vol) {
        Some(ObjectFault::NoLog(snap.vol))
    } else if !is_prepared(index, &snap.of) {
        Some(ObjectFault::NoLog(snap.of))
    } else {
        None
    }
}

#[tactic(auto, using(crate::proofs::Lookups::is_prepared_is))]
fn is_prepared(index: &Index, vol: &Name) -> bool
    ensures { result ≡ is_prepared index.now.all.now vol.now }
{
    index.vol(vol).is_some_and(|vol| vol.dco.is_some())
}

/// A snapshot and its original have one length and one region.
pub(crate) fn shape_fault(index: &Index, object: &Object) -> Option<ObjectFault>
    ensures { result ≡ shape_fault index.now.all.now object.now }
{
    match object {
        Object::SnapRecord(snap) if !shapes_are_equal(index, snap) => Some(ObjectFault::Limit(
            Limit::Region,
        )),
        _ => None,
    }
}

#[tactic(auto, using(crate::proofs::Lookups::shapes_are_equal_is))]
fn shapes_are_equal(index: &Index, snap: &Snap) -> bool
    ensures { result ≡ shapes_are_equal index.now.all.now snap.now }
{
    match index.vol(&snap.vol) {
        Some(vol) => has_shape(index, &snap.of, vol.len, vol.region),
        None => false,
    }
}

#[tactic(auto, using(crate::proofs::Lookups::has_shape_is))]
fn has_shape(index: &Index, name: &Name, len: u64, region: u64) -> bool
    ensures { result ≡ has_shape index.now.all.now name.now len region }
{
    index
        .vol(name)
        .is_some_and(|vol| vol.len == len && vol.region == region)
}
