ghost use Rattle.std.specs.Prelude.{◌≡◌, IfOk};
ghost use Rattle.vx_rules.specs.Faults.{first_of, unless};
ghost use Rattle.vx_rules.specs.Rules.{fault_in, fault_over, fault_of, rules, first_broken_of, first_broken};

use crate::index::Index;
use crate::limits::{
    has_one_group, name_is_short, numbers_fit, plexes_are_good, region_is_good, regions_are_good,
    slot_is_own, volumes_are_few,
};
use crate::maps::{log_fault, map_fault, prefer_fault};
use crate::references::reference_fault;
use crate::relations::{relation_fault, relation_log_fault, shape_fault};
use crate::space::outside_fault;
use crate::whole::whole_fault;
use crate::{Rule, overlap_fault};
use std::alloc::Global;
use vx_base::OutOfMemory;
use vx_config_parts::{Limit, Object, ObjectFault};

const RULES: [Rule; 19] = [
    Rule::OneGroup,
    Rule::NamesDiffer,
    Rule::ReferencesAreThere,
    Rule::SlotsDiffer,
    Rule::VolumesAreFew,
    Rule::NamesAreShort,
    Rule::RegionSizesAreGood,
    Rule::RegionsAreGood,
    Rule::PlexesAreGood,
    Rule::SubdisksLieInside,
    Rule::SubdisksDoNotOverlap,
    Rule::PlexesAreWhole,
    Rule::MapsAreGood,
    Rule::LogsAreGood,
    Rule::PreferredPlexIsThere,
    Rule::RelationsAreAlone,
    Rule::RelatedVolumesHaveLogs,
    Rule::RelatedVolumesHaveOneShape,
    Rule::NumbersFit,
];

/// The refusal of a configuration with these records: the first rule that is broken, with the first record that breaks
/// it. There is none where they are valid. Of n records it takes n log n steps, and a few walks for each of the at most
/// 64 volumes.
pub fn first_broken(alloc: Global, all: &[Object]) -> Result<Option<ObjectFault>, OutOfMemory>
    ensures { IfOk result (λ fault. fault ≡ first_broken all.now) }
{
    match Index::new(alloc, all)? {
        Ok(index) => first_broken_of(alloc, &RULES, &index),
        Err(repeated) => match limit_unless(has_one_group(all), Limit::Group) {
            Some(fault) => Ok(Some(fault)),
            None => Ok(Some(repeated)),
        },
    }
}

fn first_broken_of(
    alloc: Global,
    rules: &[Rule],
    index: &Index,
) -> Result<Option<ObjectFault>, OutOfMemory>
    ensures { IfOk result (λ fault. fault ≡ first_broken_of rules.now index.now.all.now) }
{
    for rule in rules {
        if let Some(fault) = fault_of(alloc, *rule, index)? {
            return Ok(Some(fault));
        }
    }
    Ok(None)
}

#[tactic(auto, unfolding(crate::specs::Rules::fault_of))]
fn fault_of(alloc: Global, rule: Rule, index: &Index) -> Result<Option<ObjectFault>, OutOfMemory>
    ensures { IfOk result (λ fault. fault ≡ fault_of rule index.now.all.now) }
{
    match fault_over(alloc, rule, index)? {
        Some(fault) => Ok(Some(fault)),
        None => Ok(first_in(rule, index, index.all)),
    }
}

/// The fault under a rule on the records together. Where they have an index their names differ.
#[tactic(auto, unfolding(crate::specs::Rules::fault_over))]
fn fault_over(alloc: Global, rule: Rule, index: &Index) -> Result<Option<ObjectFault>, OutOfMemory>
    ensures { IfOk result (λ fault. fault ≡ fault_over rule index.now.all.now) }
{
    match rule {
        Rule::OneGroup => Ok(limit_unless(has_one_group(index.all), Limit::Group)),
        Rule::VolumesAreFew => Ok(limit_unless(volumes_are_few(index.all), Limit::Volumes)),
        Rule::SubdisksDoNotOverlap => overlap_fault(alloc, index.all),
        _ => Ok(None),
    }
}

/// The fault of the first of these records that breaks the rule.
pub(crate) fn first_in(rule: Rule, index: &Index, objects: &[Object]) -> Option<ObjectFault>
    ensures { result ≡ first_of (fault_in rule index.now.all.now) objects.now }
{
    for object in objects {
        if let Some(fault) = fault_in(rule, index, object) {
            return Some(fault);
        }
    }
    None
}

#[tactic(auto, unfolding(crate::specs::Rules::fault_in))]
fn fault_in(rule: Rule, index: &Index, object: &Object) -> Option<ObjectFault>
    ensures { result ≡ fault_in rule index.now.all.now object.now }
{
    match rule {
        Rule::OneGroup | Rule::NamesDiffer | Rule::VolumesAreFew | Rule::SubdisksDoNotOverlap =>
            None,
        Rule::ReferencesAreThere => reference_fault(index, object),
        Rule::NumbersFit => limit_unless(numbers_fit(object), Limit::Number),
        Rule::SlotsDiffer => limit_unless(slot_is_own(index.all, object), Limit::Disks),
        Rule::NamesAreShort => limit_unless(name_is_short(object), Limit::Name),
        Rule::RegionSizesAreGood => limit_unless(region_is_good(object), Limit::Region),
        Rule::RegionsAreGood => limit_unless(regions_are_good(object), Limit::Regions),
        Rule::PlexesAreGood => limit_unless(plexes_are_good(index.all, object), Limit::Plexes),
        Rule::SubdisksLieInside => outside_fault(index, object),
        Rule::PlexesAreWhole => whole_fault(index, object),
        Rule::MapsAreGood => map_fault(index.all, object),
        Rule::LogsAreGood => log_fault(index.all, object),
        Rule::PreferredPlexIsThere => prefer_fault(index, object),
        Rule::RelationsAreAlone => relation_fault(index.all, object),
        Rule::RelatedVolumesHaveLogs => relation_log_fault(index, object),
        Rule::RelatedVolumesHaveOneShape => shape_fault(index, object),
    }
}

pub(crate) fn limit_unless(holds: bool, limit: Limit) -> Option<ObjectFault>
    ensures { result ≡ unless holds (ObjectFault.Limit limit) }
{
    if holds {
        None
    } else {
        Some(ObjectFault::Limit(limit))
    }
}
