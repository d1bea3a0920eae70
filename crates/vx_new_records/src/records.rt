ghost use Rattle.std.specs.Prelude.{◌≡◌, ◌++◌, map, IfOk, OnOk, MatchOption, Some, None};
ghost use Rattle.vx_config_parts.specs.Objects.{name_of};
ghost use Rattle.vx_new_volumes.specs.Records.{dco_name, log_stem, names_known, subdisks, records_named, records_of};
ghost use Rattle.vx_new_records.specs.Laid.{IsLaid};
ghost use Rattle.vx_new_records.specs.Named.{plex_names, log_names};

use crate::known::Known;
use crate::laying::{Laid, put_logs, put_plexes};
use crate::naming::{as_name, new_names};
use crate::parts::{data_plexes, dco_of, join, log_plexes, vol_of};
use std::alloc::Global;
use vx_base::OutOfMemory;
use vx_config_parts::Object;
use vx_names::Name;
use vx_new_volumes::{NewVolume, Plan};

/// The records of the volume in a group of these records, whose plexes and logs lie as is planned; None where a name would be too long.
pub fn records_of(
    alloc: Global,
    group: &[Object],
    new: &NewVolume,
    plan: &Plan,
) -> Result<Option<Vec<Object>>, OutOfMemory>
    ensures { IfOk result (λ made. MatchOption made (records_of group.now new.now plan.now ≡ None) (λ records. records_of group.now new.now plan.now ≡ Some records.items)) }
{
    let Some(dco) = dco_name(alloc, &new.vol)? else {
        return Ok(None);
    };
    let known = Known::of(alloc, names_known(alloc, group, new, dco)?)?;
    let Some(plexes) = plex_names(alloc, &known, new, plan)? else {
        return Ok(None);
    };
    let Some(logs) = log_names(alloc, &known, new, plan)? else {
        return Ok(None);
    };
    records_named(alloc, known, new, dco, &plexes, &logs, plan)
}

/// The name of the volume's DCO; None where it would be too long.
pub fn dco_name(alloc: Global, vol: &Name) -> Result<Option<Name>, OutOfMemory>
    ensures { IfOk result (λ dco. dco ≡ dco_name vol.now) }
{
    let word = with_ending(alloc, vol, b"_dco")?;
    Ok(as_name(&word))
}

pub(crate) fn log_stem(alloc: Global, vol: &Name) -> Result<Vec<u8>, OutOfMemory>
    ensures { IfOk result (λ stem. stem.items ≡ log_stem vol.now) }
{
    with_ending(alloc, vol, b"_dcl")
}

fn with_ending(alloc: Global, name: &Name, ending: &[u8]) -> Result<Vec<u8>, OutOfMemory>
    ensures { IfOk result (λ word. word.items ≡ name.now ++ ending.now) }
{
    let mut word = Vec::new(alloc);
    name.put(&mut word)?;
    word.extend_from_slice(ending)?;
    Ok(word)
}

/// The names of the group, and those of the volume and of its DCO.
fn names_known(
    alloc: Global,
    group: &[Object],
    new: &NewVolume,
    dco: Name,
) -> Result<Vec<Name>, OutOfMemory>
    ensures { IfOk result (λ names. names.items ≡ names_known group.now new.now dco) }
{
    let mut names = Vec::new(alloc);
    names.push(new.vol)?;
    names.push(dco)?;
    put_names(&mut names, group)?;
    Ok(names)
}

/// Appends the names of the records.
pub(crate) fn put_names(names: &mut Vec<Name>, group: &[Object]) -> Result<(), OutOfMemory>
    ensures { OnOk result (names.new.items ≡ names.old.items ++ map name_of group.now) }
{
    for object in group {
        names.push(*object.name())?;
    }
    Ok(())
}

fn plex_names(
    alloc: Global,
    known: &Known,
    new: &NewVolume,
    plan: &Plan,
) -> Result<Option<Vec<Name>>, OutOfMemory>
    ensures { IfOk result (λ made. MatchOption made (plex_names known.now.names.items new.now plan.now ≡ None) (λ names. plex_names known.now.names.items new.now plan.now ≡ Some names.items)) }
{
    let count = plan.plexes.as_slice().len();
    new_names(alloc, known, count, new.vol.as_bytes())
}

fn log_names(
    alloc: Global,
    known: &Known,
    new: &NewVolume,
    plan: &Plan,
) -> Result<Option<Vec<Name>>, OutOfMemory>
    ensures { IfOk result (λ made. MatchOption made (log_names known.now.names.items new.now plan.now ≡ None) (λ names. log_names known.now.names.items new.now plan.now ≡ Some names.items)) }
{
    let stem = log_stem(alloc, &new.vol)?;
    let count = plan.logs.as_slice().len();
    new_names(alloc, known, count, &stem)
}

/// The records with plexes and logs of these names.
fn records_named(
    alloc: Global,
    known: Known,
    new: &NewVolume,
    dco: Name,
    plexes: &[Name],
    logs: &[Name],
    plan: &Plan,
) -> Result<Option<Vec<Object>>, OutOfMemory>
    ensures { IfOk result (λ made. MatchOption made (records_named known.names.items new.now dco plexes.now logs.now plan.now ≡ None) (λ records. records_named known.names.items new.now dco plexes.now logs.now plan.now ≡ Some records.items)) }
{
    let known = known.and(alloc, plexes, logs)?;
    let Some(laid) = subdisks(alloc, &known, plexes, logs, plan)? else {
        return Ok(None);
    };
    let mut records = Vec::new(alloc);
    join(&[Object::VolRecord(vol_of(new, dco))], &mut records)?;
    join(&dco_of(alloc, new, dco)?, &mut records)?;
    join(&data_plexes(alloc, new, plexes)?, &mut records)?;
    join(&log_plexes(alloc, new, logs)?, &mut records)?;
    join(&laid.objects, &mut records)?;
    Ok(Some(records))
}

/// The subdisks of all plexes and logs.
fn subdisks(
    alloc: Global,
    known: &Known,
    plexes: &[Name],
    logs: &[Name],
    plan: &Plan,
) -> Result<Option<Laid>, OutOfMemory>
    ensures { IfOk result (IsLaid (subdisks known.now.names.items plexes.now logs.now plan.now)) }
{
    let none = Laid::none(alloc);
    let Some(laid) = put_plexes(alloc, known, plexes, plan.plexes.as_slice(), none)? else {
        return Ok(None);
    };
    put_logs(alloc, known, logs, plan.logs.as_slice(), laid)
}
