//! The tests of records that are added to a group, in their order.
ghost use Rattle.std.specs.Prelude.{◌≡◌, ◌++◌, [], None, IfOk};
ghost use Rattle.vx_added_records.specs.Started.{is_either, is_running};
ghost use Rattle.vx_objects.specs.Config.{objects_of};
ghost use Rattle.vx_stages.specs.Making.{adding_refusal, broken, refusal_among, started_name};
ghost use Rattle.vx_stages.specs.Refusals.{refusal_from};
ghost use Rattle.vx_rules.specs.Adding.{firsts, had_fault};
ghost use Rattle.vx_rules.specs.Faults.{first_of};
ghost use Rattle.vx_rules.specs.References.{repeated_after};

use std::alloc::Global;
use std::collections::BTreeMap;
use vx_answers::Refusal;
use vx_base::OutOfMemory;
use vx_names::Name;
use vx_objects::{Config, Object, Rule};
use vx_rules::{first_broken_by, first_had, firsts};
use vx_stages::refusal_from;

/// What is referred to is there.
const REFERENCES: [Rule; 2] = [Rule::ReferencesAreThere, Rule::PreferredPlexIsThere];

/// No limit is passed.
const LIMITS: [Rule; 10] = [
    Rule::RelationsAreAlone,
    Rule::OneGroup,
    Rule::SlotsDiffer,
    Rule::VolumesAreFew,
    Rule::NamesAreShort,
    Rule::RegionSizesAreGood,
    Rule::RegionsAreGood,
    Rule::PlexesAreGood,
    Rule::RelatedVolumesHaveOneShape,
    Rule::NumbersFit,
];

/// Names differ, there is space, and there are logs and maps.
const SPACE: [Rule; 7] = [
    Rule::NamesDiffer,
    Rule::SubdisksDoNotOverlap,
    Rule::SubdisksLieInside,
    Rule::PlexesAreWhole,
    Rule::LogsAreGood,
    Rule::RelatedVolumesHaveLogs,
    Rule::MapsAreGood,
];

/// With which refusal these records cannot be added to the configuration, if they cannot. The volumes are those that are
/// started: on whole devices, and of the group.
pub fn refusal_of<T, U>(
    alloc: Global,
    volumes: &BTreeMap<Name, T>,
    running: &BTreeMap<Name, U>,
    config: &Config,
    added: &[Object],
) -> Result<Option<Refusal>, OutOfMemory>
    ensures { IfOk result (λ refusal. refusal ≡ adding_refusal (is_either volumes.now running.now) (objects_of config.now) added.now) }
{
    let group = config.objects(alloc)?;
    let all = behind(alloc, &group, added)?;
    let known = firsts(alloc, &all)?;
    refusal_among(alloc, volumes, running, &group, added, &known, &all)
}

fn refusal_among<T, U>(
    alloc: Global,
    volumes: &BTreeMap<Name, T>,
    running: &BTreeMap<Name, U>,
    group: &[Object],
    added: &[Object],
    known: &[Object],
    all: &[Object],
) -> Result<Option<Refusal>, OutOfMemory>
    requires group { repeated_after [] group.now ≡ None }
    requires differ { repeated_after [] known.now ≡ None }
    ensures { IfOk result (λ refusal. refusal ≡ refusal_among (is_either volumes.now running.now) group.now added.now known.now all.now) }
{
    if let Some(refusal) = broken(alloc, &REFERENCES, known, all)? {
        return Ok(Some(refusal));
    }
    if let Some(refusal) = had(alloc, group, added)? {
        return Ok(Some(refusal));
    }
    if let Some(refusal) = broken(alloc, &LIMITS, known, all)? {
        return Ok(Some(refusal));
    }
    if let Some(refusal) = started_name(volumes, running, added) {
        return Ok(Some(refusal));
    }
    broken(alloc, &SPACE, known, all)
}

/// The refusal of the first record that refers to what the group has already.
fn had(alloc: Global, group: &[Object], added: &[Object]) -> Result<Option<Refusal>, OutOfMemory>
    requires group { repeated_after [] group.now ≡ None }
    ensures { IfOk result (λ refusal. refusal ≡ refusal_from (first_of (had_fault group.now) added.now)) }
{
    let broken = first_had(alloc, group, added)?;
    refusal_from(&broken)
}

/// The records of the group, and behind them those that are to be added.
fn behind(alloc: Global, group: &[Object], added: &[Object]) -> Result<Vec<Object>, OutOfMemory>
    ensures { IfOk result (λ all. all.items ≡ group.now ++ added.now) }
{
    let mut all = Vec::from_slice(alloc, group)?;
    all.extend_from_slice(added)?;
    Ok(all)
}

/// The refusal of the first of these rules that the records break.
fn broken(
    alloc: Global,
    rules: &[Rule],
    known: &[Object],
    all: &[Object],
) -> Result<Option<Refusal>, OutOfMemory>
    requires differ { repeated_after [] known.now ≡ None }
    ensures { IfOk result (λ refusal. refusal ≡ broken rules.now known.now all.now) }
{
    let broken = first_broken_by(alloc, rules, known, all)?;
    refusal_from(&broken)
}

/// The refusal of the first volume that has the name of a started one.
fn started_name<T, U>(
    volumes: &BTreeMap<Name, T>,
    running: &BTreeMap<Name, U>,
    added: &[Object],
) -> Option<Refusal>
    ensures { result ≡ started_name (is_either volumes.now running.now) added.now }
{
    match added {
        [] => None,
        [Object::VolRecord(vol), rest @ ..] => {
            if is_running(volumes, &vol.name) || is_running(running, &vol.name) {
                Some(Refusal::Exists(vol.name))
            } else {
                started_name(volumes, running, rest)
            }
        }
        [_, rest @ ..] => started_name(volumes, running, rest),
    }
}

fn is_running<T>(volumes: &BTreeMap<Name, T>, vol: &Name) -> bool
    ensures { result ≡ is_running volumes.now vol.now }
{
    volumes.contains_key(vol)
}
