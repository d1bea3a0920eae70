//! The tests of `prepare` and `unprepare` before anything is planned.
ghost use Rattle.std.specs.Prelude.{◌≡◌, ◌==◌, ◌&&◌, ◌||◌, None, Some, IfErr, IfOk, OnOk, length};
ghost use Rattle.std.specs.List.{filter, list_any};
ghost use Rattle.std.specs.Str.{bytes_eq};
ghost use Rattle.vx_config_parts.specs.Objects.{is_data_plex_of, is_log_plex_of};
ghost use Rattle.vx_stages.specs.Logging.{has_other_region, is_log_spare, is_waiting, new_logs_refusal, prepare_refusal, unprepare_refusal};
ghost use Rattle.vx_stages.specs.Mirroring.{RefusedFor};
ghost use Rattle.vx_stages.specs.Tests.{volume_in};
ghost use Rattle.vx_stage_mirrors.specs.Planned.{EndsAs};

use std::alloc::Global;
use vx_answers::Refusal;
use vx_config_parts::{PlexKind, PlexState, refers, same};
use vx_house::{Stop, refused};
use vx_names::Name;
use vx_new_records::logs_fault;
use vx_new_volumes::NewLogs;
use vx_objects::{Config, Plex, Snap, Vol};
use vx_stage_changes::{broken, volume_in};

/// The volume that is to get logs, where no test before the plan refuses that; `runs` says whether it is started.
pub(crate) fn test_prepare(
    alloc: Global,
    config: &Config,
    new: &NewLogs,
    runs: bool,
) -> Result<Vol, Stop>
    ensures found { IfOk result (λ vol. volume_in new.now.vol config.now.volumes ≡ Some vol) }
    ensures passes { OnOk result (prepare_refusal runs config.now new.now ≡ None) }
    ensures refused { IfErr result (EndsAs (RefusedFor (λ r. prepare_refusal runs config.now new.now ≡ Some r))) }
{
    let Some(vol) = volume_in(config.volumes.as_slice(), &new.vol) else {
        return refused(Refusal::NoObject(new.vol));
    };
    test_volume(alloc, config, new, &vol, runs)?;
    Ok(vol)
}

fn test_volume(
    alloc: Global,
    config: &Config,
    new: &NewLogs,
    vol: &Vol,
    runs: bool,
) -> Result<(), Stop>
    ensures passes { OnOk result (new_logs_refusal runs config.now new.now vol.now ≡ None) }
    ensures refused { IfErr result (EndsAs (RefusedFor (λ r. new_logs_refusal runs config.now new.now vol.now ≡ Some r))) }
{
    if runs && has_other_region(vol, new.region) {
        return refused(Refusal::VolState(vol.state));
    }
    let Ok(group) = config.objects(alloc) else {
        return Err(Stop::OutOfMemory);
    };
    match logs_fault(alloc, &group, vol, new.count, new.region) {
        Ok(None) => Ok(()),
        Ok(Some(fault)) => broken(&fault),
        Err(_) => Err(Stop::OutOfMemory),
    }
}

/// Whether the volume is to have other regions than it has.
fn has_other_region(vol: &Vol, region: Option<u64>) -> bool
    ensures { result ≡ has_other_region vol.now region }
{
    match region {
        Some(sectors) => sectors != vol.region,
        None => false,
    }
}

/// The volume of the name and its DCO, where it may lose its logs.
pub(crate) fn test_unprepare(config: &Config, name: &Name) -> Result<(Vol, Name), Stop>
    ensures found { IfOk result (λ x. volume_in name.now config.now.volumes ≡ Some x.0) }
    ensures dco { IfOk result (λ x. x.0.dco ≡ Some x.1) }
    ensures passes { OnOk result (unprepare_refusal config.now name.now ≡ None) }
    ensures refused { IfErr result (EndsAs (RefusedFor (λ r. unprepare_refusal config.now name.now ≡ Some r))) }
{
    let Some(vol) = volume_in(config.volumes.as_slice(), name) else {
        return refused(Refusal::NoObject(*name));
    };
    let Some(dco) = vol.dco else {
        return refused(Refusal::NoLog(vol.name));
    };
    if !is_log_spare(config, &vol.name) {
        return refused(Refusal::InUse(dco));
    }
    Ok((vol, dco))
}

/// Nothing of the volume needs its DCO: it has one data plex, no relation, and no log plex that waits for a snapshot.
fn is_log_spare(config: &Config, vol: &Name) -> bool
    ensures { result ≡ is_log_spare config.now vol.now }
{
    has_one_plex(config.plexes.as_slice(), vol)
        && !has_relation(config.snaps.as_slice(), vol)
        && !has_waiting(config.plexes.as_slice(), vol)
}

fn has_one_plex(plexes: &[Plex], vol: &Name) -> bool
    ensures { result ≡ (length (filter (is_data_plex_of vol.now) plexes.now) == 1) }
{
    plexes
        .iter()
        .filter(|plex| is_data_plex_of(plex, vol))
        .count()
        == 1
}

pub fn is_data_plex_of(plex: &Plex, vol: &Name) -> bool
    ensures { result ≡ is_data_plex_of vol.now plex.now }
{
    refers(&plex.vol, vol) && plex.kind == PlexKind::Data
}

pub fn is_log_plex_of(plex: &Plex, vol: &Name) -> bool
    ensures { result ≡ is_log_plex_of vol.now plex.now }
{
    refers(&plex.vol, vol) && plex.kind == PlexKind::Log
}

fn has_relation(snaps: &[Snap], vol: &Name) -> bool
    ensures { result ≡ list_any (λ (s : Snap). bytes_eq s.vol vol.now || bytes_eq s.of vol.now) snaps.now }
{
    snaps
        .iter()
        .any(|snap| same(&snap.vol, vol) || same(&snap.of, vol))
}

fn has_waiting(plexes: &[Plex], vol: &Name) -> bool
    ensures { result ≡ list_any (λ (p : Plex). is_log_plex_of vol.now p && is_waiting p.state) plexes.now }
{
    plexes
        .iter()
        .any(|plex| is_log_plex_of(plex, vol) && is_waiting(plex.state))
}

fn is_waiting(state: PlexState) -> bool
    ensures { result ≡ is_waiting state }
{
    matches!(state, PlexState::DcoSnp)
}
