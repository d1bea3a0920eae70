ghost use Rattle.std.specs.Prelude.{◌≡◌, ◌∷◌, IfOk, map};
ghost use Rattle.vx_states.specs.Table.{plex_recovered, plex_started, plex_stopped};
ghost use Rattle.vx_state_edits.specs.Edits.{is_marked, is_new, log_started, plex_edit, plexes_of, policy_of, recovered, recovered_edits, recovery_edits, start_edits, started, stop_edits, stopped, vol_edit};

use std::alloc::Global;
use vx_base::OutOfMemory;
use vx_config_parts::refers;
use vx_mask::contains;
use vx_names::Name;
use vx_objects::{Config, Edit, Plex, PlexKind, PlexState, PolicyKind, PolicyName, Vol, VolState};
use vx_states::{Action, next_state};

/// What a start records: the volume is active; its plexes are that were in order or only failed, and at the first start its
/// logs that were new.
pub fn start_edits(alloc: Global, config: &Config, vol: &Vol) -> Result<Vec<Edit>, OutOfMemory>
    ensures { IfOk result (λ edits. edits.items ≡ start_edits config.now vol.now) }
{
    let edits = started_plexes(alloc, config, &vol.name, is_new(vol.state))?;
    headed(vol_edit(vol, VolState::Active), edits)
}

/// What a stop records: the volume is clean, and of its active data plexes those are that miss nothing. `marks` are the
/// maps that have marks.
pub fn stop_edits(
    alloc: Global,
    config: &Config,
    vol: &Vol,
    marks: u64,
) -> Result<Vec<Edit>, OutOfMemory>
    ensures { IfOk result (λ edits. edits.items ≡ stop_edits config.now vol.now marks) }
{
    let edits = stopped_plexes(alloc, config, &vol.name, marks)?;
    headed(vol_edit(vol, VolState::Clean), edits)
}

/// What a recovery records before it calls a device: the volume is being recovered, and its plexes stay as they are.
pub fn recovery_edits(alloc: Global, config: &Config, vol: &Vol) -> Result<Vec<Edit>, OutOfMemory>
    ensures { IfOk result (λ edits. edits.items ≡ recovery_edits config.now vol.now) }
{
    let edits = same_plexes(alloc, config, &vol.name)?;
    headed(vol_edit(vol, VolState::Sync), edits)
}

/// What a recovery records at its end: the volume is active, a plex that only failed too, and a plex that was being copied to for a snapshot
/// is complete, unless it misses something still. `marks` are the maps that have marks.
pub fn recovered_edits(
    alloc: Global,
    config: &Config,
    vol: &Vol,
    marks: u64,
) -> Result<Vec<Edit>, OutOfMemory>
    ensures { IfOk result (λ edits. edits.items ≡ recovered_edits config.now vol.now marks) }
{
    let edits = recovered_plexes(alloc, config, &vol.name, marks)?;
    headed(vol_edit(vol, VolState::Active), edits)
}

fn headed(first: Edit, rest: Vec<Edit>) -> Result<Vec<Edit>, OutOfMemory>
    ensures { IfOk result (λ edits. edits.items ≡ first ∷ rest.items) }
{
    let mut edits = rest;
    edits.insert(0, first)?;
    Ok(edits)
}

fn started_plexes(
    alloc: Global,
    config: &Config,
    vol: &Name,
    first: bool,
) -> Result<Vec<Edit>, OutOfMemory>
    ensures { IfOk result (λ edits. edits.items ≡ map (plex_edit (started first)) (plexes_of config.now vol.now)) }
{
    let edits = config
        .plexes
        .as_slice()
        .iter()
        .filter(|plex| refers(&plex.vol, vol))
        .map(|plex| plex_edit(plex, started(plex, first)))
        .collect(alloc)?;
    Ok(edits)
}

fn stopped_plexes(
    alloc: Global,
    config: &Config,
    vol: &Name,
    marks: u64,
) -> Result<Vec<Edit>, OutOfMemory>
    ensures { IfOk result (λ edits. edits.items ≡ map (plex_edit (stopped marks)) (plexes_of config.now vol.now)) }
{
    let edits = config
        .plexes
        .as_slice()
        .iter()
        .filter(|plex| refers(&plex.vol, vol))
        .map(|plex| plex_edit(plex, stopped(plex, marks)))
        .collect(alloc)?;
    Ok(edits)
}

fn same_plexes(alloc: Global, config: &Config, vol: &Name) -> Result<Vec<Edit>, OutOfMemory>
    ensures { IfOk result (λ edits. edits.items ≡ map (plex_edit (λ p. p.state)) (plexes_of config.now vol.now)) }
{
    let edits = config
        .plexes
        .as_slice()
        .iter()
        .filter(|plex| refers(&plex.vol, vol))
        .map(|plex| plex_edit(plex, plex.state))
        .collect(alloc)?;
    Ok(edits)
}

fn recovered_plexes(
    alloc: Global,
    config: &Config,
    vol: &Name,
    marks: u64,
) -> Result<Vec<Edit>, OutOfMemory>
    ensures { IfOk result (λ edits. edits.items ≡ map (plex_edit (recovered marks)) (plexes_of config.now vol.now)) }
{
    let edits = config
        .plexes
        .as_slice()
        .iter()
        .filter(|plex| refers(&plex.vol, vol))
        .map(|plex| plex_edit(plex, recovered(plex, marks)))
        .collect(alloc)?;
    Ok(edits)
}

fn vol_edit(vol: &Vol, state: VolState) -> Edit
    ensures { result ≡ vol_edit state vol.now }
{
    Edit::SetVol {
        vol: vol.name,
        state,
        policy: policy_of(vol),
    }
}

fn policy_of(vol: &Vol) -> PolicyName
    ensures { result ≡ policy_of vol.now.rdpol vol.now.prefer }
{
    match (vol.rdpol, vol.prefer) {
        (PolicyKind::Prefer, Some(plex)) => PolicyName::Prefer(plex),
        (PolicyKind::Select, _) => PolicyName::Select,
        _ => PolicyName::Round,
    }
}

fn plex_edit(plex: &Plex, state: PlexState) -> Edit
    ensures { result ≡ plex_edit (λ p. state) plex.now }
{
    Edit::SetPlex {
        plex: plex.name,
        vol: plex.vol,
        state,
        map: plex.map,
    }
}

/// The volume was never started.
fn is_new(state: VolState) -> bool
    ensures { result ≡ is_new state }
{
    match state {
        VolState::Empty => true,
        VolState::Clean | VolState::Active | VolState::NeedSync | VolState::Sync => false,
    }
}

fn started(plex: &Plex, first: bool) -> PlexState
    ensures { result ≡ started first plex.now }
{
    match plex.kind {
        PlexKind::Data => data_started(plex.state),
        PlexKind::Log => log_started(plex.state, first),
    }
}

fn data_started(state: PlexState) -> PlexState
    ensures { result ≡ plex_started state }
{
    match next_state(Action::Start, VolState::Clean, Some(state)) {
        Ok((_, Some(after))) => after,
        _ => state,
    }
}

fn log_started(state: PlexState, first: bool) -> PlexState
    ensures { result ≡ log_started first state }
{
    match state {
        PlexState::Empty => if first {
            PlexState::Active
        } else {
            PlexState::Empty
        },
        other => other,
    }
}

fn stopped(plex: &Plex, marks: u64) -> PlexState
    ensures { result ≡ stopped marks plex.now }
{
    match plex.kind {
        PlexKind::Data => data_stopped(plex.state, is_marked(plex.map, marks)),
        PlexKind::Log => plex.state,
    }
}

fn data_stopped(state: PlexState, marked: bool) -> PlexState
    ensures { result ≡ plex_stopped marked state }
{
    match next_state(Action::Stop { marked }, VolState::Active, Some(state)) {
        Ok((_, Some(after))) => after,
        _ => state,
    }
}

fn recovered(plex: &Plex, marks: u64) -> PlexState
    ensures { result ≡ recovered marks plex.now }
{
    match plex.kind {
        PlexKind::Data => data_recovered(plex.state, is_marked(plex.map, marks)),
        PlexKind::Log => plex.state,
    }
}

fn data_recovered(state: PlexState, marked: bool) -> PlexState
    ensures { result ≡ plex_recovered marked state }
{
    match next_state(Action::RecoverEnd { marked }, VolState::Sync, Some(state)) {
        Ok((_, Some(after))) => after,
        _ => state,
    }
}

/// The map of the plex has a mark; that of the plex of a volume without a log is 0.
fn is_marked(map: Option<u8>, marks: u64) -> bool
    ensures { result ≡ is_marked marks map }
{
    match map {
        None => contains(marks, 0),
        Some(map) => contains(marks, map as u32),
    }
}
