//! The plexes of a volume that a start has to do with.

ghost use Rattle.std.specs.Prelude.{◌≡◌, IfOk};
ghost use Rattle.std.specs.List.{filter};
ghost use Rattle.vx_mask.specs.Mask.{has};
ghost use Rattle.vx_image.specs.Lies.{slot_of};
ghost use Rattle.vx_config_parts.specs.Objects.{is_data_plex_of, is_log_plex_of};
ghost use Rattle.vx_image.specs.Image.{is_available_state};
ghost use Rattle.vx_image.specs.Bytes.{is_held, map_or_zero};
ghost use Rattle.vx_image.specs.UsedPlexes.{held_plexes, is_on, is_used_log, is_used_state, maps_of, off_plexes, on_plexes, used_logs};

use std::alloc::Global;
use vx_base::OutOfMemory;
use vx_config_parts::refers;
use vx_image::slot_of;
use vx_names::Name;
use vx_objects::{Config, Plex, PlexKind, PlexState, Subdisk, Vol};

/// The data plexes of the volume of which all disks are good, in order.
pub(crate) fn held_plexes(
    alloc: Global,
    config: &Config,
    good: u32,
    vol: &Name,
) -> Result<Vec<Plex>, OutOfMemory>
    ensures { IfOk result (λ v. v.items ≡ held_plexes config.now good vol.now) }
{
    let found = config
        .plexes
        .as_slice()
        .iter()
        .filter(|plex| is_data_plex_of(plex, vol) && is_held(config, good, plex))
        .copied()
        .collect(alloc)?;
    Ok(found)
}

/// Those that are available.
pub(crate) fn on_plexes(
    alloc: Global,
    config: &Config,
    good: u32,
    vol: &Name,
) -> Result<Vec<Plex>, OutOfMemory>
    ensures { IfOk result (λ v. v.items ≡ on_plexes config.now good vol.now) }
{
    let found = config
        .plexes
        .as_slice()
        .iter()
        .filter(|plex| is_data_plex_of(plex, vol) && is_on(config, good, plex))
        .copied()
        .collect(alloc)?;
    Ok(found)
}

/// Its other data plexes, in order.
pub(crate) fn off_plexes(
    alloc: Global,
    config: &Config,
    good: u32,
    vol: &Name,
) -> Result<Vec<Plex>, OutOfMemory>
    ensures { IfOk result (λ v. v.items ≡ off_plexes config.now good vol.now) }
{
    let found = config
        .plexes
        .as_slice()
        .iter()
        .filter(|plex| is_data_plex_of(plex, vol) && !is_on(config, good, plex))
        .copied()
        .collect(alloc)?;
    Ok(found)
}

/// The log plexes of the volume that are used and of which all disks are good, in order; none without a DCO.
pub(crate) fn used_logs(
    alloc: Global,
    config: &Config,
    good: u32,
    vol: &Vol,
    fresh: bool,
) -> Result<Vec<Plex>, OutOfMemory>
    ensures { IfOk result (λ v. v.items ≡ used_logs vol.now.dco config.now good fresh vol.now.name) }
{
    if vol.dco.is_none() {
        return Ok(Vec::new(alloc));
    }
    logs_in(alloc, config, good, &vol.name, fresh)
}

fn logs_in(
    alloc: Global,
    config: &Config,
    good: u32,
    vol: &Name,
    fresh: bool,
) -> Result<Vec<Plex>, OutOfMemory>
    ensures { IfOk result (λ v. v.items ≡ filter (is_used_log config.now good fresh vol.now) config.now.plexes) }
{
    let found = config
        .plexes
        .as_slice()
        .iter()
        .filter(|plex| is_used_log(config, good, fresh, vol, plex))
        .copied()
        .collect(alloc)?;
    Ok(found)
}

/// The maps of plexes; that of the plex of a volume without a log is 0.
pub(crate) fn maps_of(alloc: Global, plexes: &[Plex]) -> Result<Vec<u8>, OutOfMemory>
    ensures { IfOk result (λ v. v.items ≡ maps_of plexes.now) }
{
    let maps = plexes
        .iter()
        .map(|plex| map_or_zero(plex.map))
        .collect(alloc)?;
    Ok(maps)
}

pub(crate) fn map_or_zero(map: Option<u8>) -> u8
    ensures { result ≡ map_or_zero map }
{
    match map {
        Some(number) => number,
        None => 0,
    }
}

fn is_data_plex_of(plex: &Plex, vol: &Name) -> bool
    ensures { result ≡ is_data_plex_of vol.now plex.now }
{
    refers(&plex.vol, vol)
        && match plex.kind {
            PlexKind::Data => true,
            PlexKind::Log => false,
        }
}

fn is_log_plex_of(plex: &Plex, vol: &Name) -> bool
    ensures { result ≡ is_log_plex_of vol.now plex.now }
{
    refers(&plex.vol, vol)
        && match plex.kind {
            PlexKind::Data => false,
            PlexKind::Log => true,
        }
}

fn is_used_log(config: &Config, good: u32, fresh: bool, vol: &Name, plex: &Plex) -> bool
    ensures { result ≡ is_used_log config.now good fresh vol.now plex.now }
{
    is_log_plex_of(plex, vol) && is_used_state(fresh, plex.state) && is_held(config, good, plex)
}

fn is_used_state(fresh: bool, state: PlexState) -> bool
    ensures { result ≡ is_used_state fresh state }
{
    match state {
        PlexState::Active => true,
        PlexState::Empty => fresh,
        _ => false,
    }
}

fn is_on(config: &Config, good: u32, plex: &Plex) -> bool
    ensures { result ≡ is_on config.now good plex.now }
{
    is_held(config, good, plex) && is_available_state(plex.state)
}

fn is_available_state(state: PlexState) -> bool
    ensures { result ≡ is_available_state state }
{
    match state {
        PlexState::Empty
        | PlexState::Clean
        | PlexState::Active
        | PlexState::IoFail
        | PlexState::SnapAtt
        | PlexState::SnapDone => true,
        PlexState::Stale | PlexState::DcoSnp => false,
    }
}

/// All disks of the plex are good.
fn is_held(config: &Config, good: u32, plex: &Plex) -> bool
    ensures { result ≡ is_held config.now good plex.now }
{
    config.subdisks.as_slice().iter().all(|subdisk| !refers(&subdisk.plex, &plex.name)
        || is_good(config, good, subdisk))
}

/// The disk of the subdisk is good.
fn is_good(config: &Config, good: u32, subdisk: &Subdisk) -> bool
    ensures { result ≡ has good (slot_of config.now.disks subdisk.now.disk) }
{
    let slot = slot_of(config.disks.as_slice(), &subdisk.disk);
    vx_mask::contains(u64::from(good), u32::from(slot))
}
