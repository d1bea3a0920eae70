//! Records that are to be added to those of a group.
ghost use Rattle.std.specs.Prelude.{◌≡◌, [], None, Some, IfOk};
ghost use Rattle.vx_rules.specs.Adding.{fault_by, first_broken_by, firsts, is_had_as, is_had, had, had_fault};
ghost use Rattle.vx_rules.specs.Faults.{first_of};
ghost use Rattle.vx_rules.specs.Named.{first_named};
ghost use Rattle.vx_rules.specs.References.{repeated_after};
ghost use Rattle.vx_rules.specs.Rules.{fault_over};

use crate::check::{first_in, limit_unless};
use crate::index::Index;
use crate::limits::{has_one_group, volumes_are_few};
use crate::{Rule, overlap_fault};
use std::alloc::Global;
use std::collections::BTreeMap;
use vx_base::OutOfMemory;
use vx_config_parts::{Limit, Object, ObjectFault};
use vx_names::Name;

/// The first record of each name, in order.
pub fn firsts(alloc: Global, all: &[Object]) -> Result<Vec<Object>, OutOfMemory>
    ensures firsts { IfOk result (λ v. v.items ≡ firsts all.now) }
    ensures differ { IfOk result (λ v. repeated_after [] v.items ≡ None) }
{
    let mut names = BTreeMap::new(alloc);
    let mut out = Vec::new(alloc);
    for object in all {
        let Ok(earlier) = names.insert(*object.name(), ()) else {
            return Err(OutOfMemory);
        };
        if earlier.is_none() {
            out.push(*object)?;
        }
    }
    Ok(out)
}

/// The fault of the first record whose name an earlier one has.
fn repeated(alloc: Global, all: &[Object]) -> Result<Option<ObjectFault>, OutOfMemory>
    ensures { IfOk result (λ fault. fault ≡ repeated_after [] all.now) }
{
    match Index::new(alloc, all)? {
        Ok(index) => {
            drop(index);
            Ok(None)
        }
        Err(fault) => Ok(Some(fault)),
    }
}

/// The first of these rules that the records break, with the first record that breaks it. What they refer to is looked up
/// among those that are known, whose names differ.
pub fn first_broken_by(
    alloc: Global,
    rules: &[Rule],
    known: &[Object],
    all: &[Object],
) -> Result<Option<ObjectFault>, OutOfMemory>
    requires differ { repeated_after [] known.now ≡ None }
    ensures { IfOk result (λ fault. fault ≡ first_broken_by rules.now known.now all.now) }
{
    match Index::new(alloc, known)? {
        Ok(index) => first_broken_in(alloc, rules, &index, all),
        Err(_) => unreachable!(),
    }
}

fn first_broken_in(
    alloc: Global,
    rules: &[Rule],
    index: &Index,
    all: &[Object],
) -> Result<Option<ObjectFault>, OutOfMemory>
    ensures { IfOk result (λ fault. fault ≡ first_broken_by rules.now index.now.all.now all.now) }
{
    for rule in rules {
        if let Some(fault) = fault_by(alloc, *rule, index, all)? {
            return Ok(Some(fault));
        }
    }
    Ok(None)
}

fn fault_by(
    alloc: Global,
    rule: Rule,
    index: &Index,
    all: &[Object],
) -> Result<Option<ObjectFault>, OutOfMemory>
    ensures { IfOk result (λ fault. fault ≡ fault_by rule index.now.all.now all.now) }
{
    match fault_over_any(alloc, rule, all)? {
        Some(fault) => Ok(Some(fault)),
        None => Ok(first_in(rule, index, all)),
    }
}

/// The fault under a rule on the records together, whether their names differ or not.
#[tactic(auto, unfolding(crate::specs::Rules::fault_over))]
fn fault_over_any(
    alloc: Global,
    rule: Rule,
    all: &[Object],
) -> Result<Option<ObjectFault>, OutOfMemory>
    ensures { IfOk result (λ fault. fault ≡ fault_over rule all.now) }
{
    match rule {
        Rule::OneGroup => Ok(limit_unless(has_one_group(all), Limit::Group)),
        Rule::NamesDiffer => repeated(alloc, all),
        Rule::VolumesAreFew => Ok(limit_unless(volumes_are_few(all), Limit::Volumes)),
        Rule::SubdisksDoNotOverlap => overlap_fault(alloc, all),
        _ => Ok(None),
    }
}

/// The first name of a record to be added that refers to a plex, a volume or a DCO which the group has already.
pub fn first_had(
    alloc: Global,
    group: &[Object],
    added: &[Object],
) -> Result<Option<ObjectFault>, OutOfMemory>
    requires differ { repeated_after [] group.now ≡ None }
    ensures { IfOk result (λ fault. fault ≡ first_of (had_fault group.now) added.now) }
{
    match Index::new(alloc, group)? {
        Ok(index) => Ok(first_had_in(&index, added)),
        Err(_) => unreachable!(),
    }
}

fn first_had_in(index: &Index, added: &[Object]) -> Option<ObjectFault>
    ensures { result ≡ first_of (had_fault index.now.all.now) added.now }
{
    match added {
        [] => None,
        [first, rest @ ..] => match had_fault(index, first) {
            Some(fault) => Some(fault),
            None => first_had_in(index, rest),
        },
    }
}

fn had_fault(index: &Index, object: &Object) -> Option<ObjectFault>
    ensures { result ≡ had_fault index.now.all.now object.now }
{
    match object {
        Object::SubdiskRecord(subdisk) => had(index, &subdisk.plex),
        Object::PlexRecord(plex) => had(index, &plex.vol),
        Object::VolRecord(vol) => match had(index, &vol.prefer) {
            Some(fault) => Some(fault),
            None => had(index, &vol.dco),
        },
        Object::DcoRecord(dco) => had_name(index, &dco.vol),
        _ => None,
    }
}

fn had(index: &Index, attribute: &Option<Name>) -> Option<ObjectFault>
    ensures { result ≡ had index.now.all.now attribute.now }
{
    match attribute {
        None => None,
        Some(name) => had_name(index, name),
    }
}

fn had_name(index: &Index, name: &Name) -> Option<ObjectFault>
    ensures { result ≡ had index.now.all.now (Some name.now) }
{
    if is_had(index, name) {
        Some(ObjectFault::InUse(*name))
    } else {
        None
    }
}

fn is_had(index: &Index, name: &Name) -> bool
    ensures { result ≡ is_had index.now.all.now name.now }
{
    index.plex(name).is_some() || index.vol(name).is_some() || index.dco(name).is_some()
}
