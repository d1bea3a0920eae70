//! Edits of a configuration, and the text that is to be committed.
ghost use Rattle.std.specs.Prelude.{◌≡◌, ◌+◌, ◌^◌, ◌<◌, ◌≤◌, ◌∷◌, [], length, IfOk, IfErr, Err};
ghost use Rattle.vx_moments.specs.Copies.{IsTextOf};
ghost use Rattle.vx_objects.specs.Applied.{IsEdited};
ghost use Rattle.vx_objects.specs.Config.{objects_of};
ghost use Rattle.vx_stages.specs.Tests.{volume_in};
ghost use Rattle.vx_stage_changes.specs.Planning.{broken_stop, change_edits, IsUnedited, IsLongBy, IsTooLong, IsShortText, IsPlanned, IsUnplanned, IsUnplannedBy};

use std::alloc::Global;
use vx_answers::Refusal;
use vx_base::OutOfMemory;
use vx_config_parts::{ObjectFault, same};
use vx_header::MOST_TEXT;
use vx_house::{Stop, refused};
use vx_names::Name;
use vx_objects::{Config, Edit, Vol};
use vx_print::print_m;
use vx_stages::{Change, refusal_by};

/// A configuration that is to be committed, and its text.
#[derive(Drop)]
pub struct NextConfig {
    pub config: Config,
    pub text: Vec<u8>,
}

/// A rule is broken.
pub fn broken<T>(fault: &ObjectFault) -> Result<T, Stop>
    ensures { result ≡ Err (broken_stop fault.now) }
{
    match refusal_by(fault) {
        Some(refusal) => refused(refusal),
        None => Err(Stop::OutOfMemory),
    }
}

/// The configuration once more.
fn copied(alloc: Global, config: &Config) -> Result<Config, OutOfMemory>
    ensures { IfOk result (λ copy. objects_of copy ≡ objects_of config.now) }
{
    let all = config.objects(alloc)?;
    match Config::from_objects(alloc, &all) {
        Ok(copy) => Ok(copy),
        Err(_) => Err(OutOfMemory),
    }
}

/// The configuration after the edits; the old one stays as it is.
pub fn edited(alloc: Global, config: &Config, edits: &[Edit]) -> Result<Config, Stop>
    ensures edited { IfOk result (IsEdited edits.now config.now) }
    ensures unedited { IfErr result (IsUnedited edits.now config.now) }
{
    let Ok(mut next) = copied(alloc, config) else {
        return Err(Stop::OutOfMemory);
    };
    match next.apply(alloc, edits) {
        Ok(_) => Ok(next),
        Err(fault) => broken(&fault),
    }
}

/// The text of the configuration, if with so many bytes more it is short enough.
pub(crate) fn text_of(alloc: Global, config: &Config, more: u64) -> Result<Vec<u8>, Stop>
    requires few { more < 2 ^ 63 }
    ensures text { IfOk result (λ text. IsShortText config.now text.items) }
    ensures fits { IfOk result (λ text. length text.items + more ≤ 522240) }
    ensures long { IfErr result (IsLongBy more config.now) }
{
    let mut text = Vec::new(alloc);
    match print_m(alloc, config, None, &mut text) {
        Ok(_) => within(text, more),
        Err(_) => Err(Stop::OutOfMemory),
    }
}

/// The text, if with so many bytes more it is short enough.
fn within(text: Vec<u8>, more: u64) -> Result<Vec<u8>, Stop>
    requires few { more < 2 ^ 63 }
    ensures short { IfOk result (λ same. (same ≡ text) × (length text.items + more ≤ 522240)) }
    ensures long { IfErr result (IsTooLong (length text.items + more)) }
{
    let bytes = text.len() as u64 + more;
    if bytes > MOST_TEXT as u64 {
        return refused(Refusal::TooLong(bytes));
    }
    Ok(text)
}

/// What is to be committed.
pub fn planned(alloc: Global, config: &Config, edits: &[Edit]) -> Result<NextConfig, Stop>
    ensures planned { IfOk result (IsPlanned edits.now config.now) }
    ensures unplanned { IfErr result (IsUnplanned edits.now config.now) }
{
    planned_growing(alloc, config, edits, 0)
}

/// What is to be committed, where later commits of the command make the text longer by so many bytes.
pub(crate) fn planned_growing(
    alloc: Global,
    config: &Config,
    edits: &[Edit],
    more: u64,
) -> Result<NextConfig, Stop>
    requires few { more < 2 ^ 63 }
    ensures planned { IfOk result (IsPlanned edits.now config.now) }
    ensures fits { IfOk result (λ next. length next.text.items + more ≤ 522240) }
    ensures unplanned { IfErr result (IsUnplannedBy more edits.now config.now) }
{
    let config = edited(alloc, config, edits)?;
    let text = text_of(alloc, &config, more)?;
    Ok(NextConfig { config, text })
}

/// The volume of the name.
pub fn volume_in(volumes: &[Vol], name: &Name) -> Option<Vol>
    ensures { result ≡ volume_in name.now volumes.now }
{
    match volumes {
        [] => None,
        [first, rest @ ..] => {
            if same(&first.name, name) {
                Some(*first)
            } else {
                volume_in(rest, name)
            }
        }
    }
}

/// The edits of a change, by the configuration as it stands.
pub(crate) fn edits_of(
    alloc: Global,
    change: Change,
    config: &Config,
) -> Result<Vec<Edit>, OutOfMemory>
    ensures { IfOk result (λ edits. edits.items ≡ change_edits change config.now) }
{
    let mut edits = Vec::new(alloc);
    match change {
        Change::Policy { vol, policy } => {
            if let Some(found) = volume_in(config.volumes.as_slice(), &vol) {
                let state = found.state;
                edits.push(Edit::SetVol { vol, state, policy })?;
            }
        }
        Change::Remove(vol) => edits.push(Edit::RemoveVol(vol))?,
    }
    Ok(edits)
}
