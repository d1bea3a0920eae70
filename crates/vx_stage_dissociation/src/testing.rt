//! The tests of a plex that is to leave its volume.
ghost use Rattle.std.specs.Prelude.{◌≡◌, ◌&&◌, ◌==◌, not, false, None, Some, IfErr, IfOk, OnOk, length};
ghost use Rattle.std.specs.List.{list_any};
ghost use Rattle.std.specs.Str.{bytes_eq};
ghost use Rattle.vx_answers.specs.declared.refusal.Refusal.TheVariants as refusal;
ghost use Rattle.vx_config_parts.specs.Objects.{is_data_plex_of, is_log_plex_of};
ghost use Rattle.vx_house.specs.View.{IsGroupKept};
ghost use Rattle.vx_image.specs.Bytes.{is_held};
ghost use Rattle.vx_image.specs.UsedPlexes.{is_used_log, used_logs};
ghost use Rattle.vx_stages.specs.Mirroring.{RefusedFor};
ghost use Rattle.vx_stages.specs.Plexes.{plex_in};
ghost use Rattle.vx_stages.specs.Tests.{is_data, where_};
ghost use Rattle.vx_stage_mirrors.specs.LogEnding.{is_running};
ghost use Rattle.vx_stage_mirrors.specs.Planned.{EndsAs};
ghost use Rattle.vx_stage_volumes.specs.Opening.{good_of};
ghost use Rattle.vx_stages.specs.Leaving.{has_other_data, has_other_log, is_besides, is_last, is_log_state, leaving_refusal, volume_leaving_refusal, way_of as world_way_of, way_refusal};
ghost use Rattle.vx_stage_dissociation.specs.Planned.{own_volume};

use crate::ways::{LeavingWay, way_of};
use vx_answers::Refusal;
use vx_config_parts::{PlexKind, PlexState, refers, same};
use vx_house::{Imported, Stop, refused};
use vx_names::Name;
use vx_objects::{Config, Plex, Vol};
use vx_piece::Piece;
use vx_stage_changes::volume_in;
use vx_stage_mirrors::{is_data_plex_of, is_held, is_log_plex_of, plex_in};

/// The plex of the name and its volume, if it has one, where no test refuses that it leaves that; one of no volume can only be removed.
pub(crate) fn test_leaving<P: Piece>(
    group: &Imported<P>,
    name: &Name,
    remove: bool,
) -> Result<(Plex, Option<Vol>), Stop>
    requires kept { IsGroupKept P.seen group.now }
    ensures found { IfOk result (λ x. plex_in name.now group.now.config.plexes ≡ Some x.0) }
    ensures own { IfOk result (λ x. x.1 ≡ own_volume group.now.config x.0.vol) }
    ensures passes { OnOk result (leaving_refusal (is_running group.now) group.now.config (good_of P.seen group.now) remove name.now ≡ None) }
    ensures refused { IfErr result (EndsAs (RefusedFor (λ r. leaving_refusal (is_running group.now) group.now.config (good_of P.seen group.now) remove name.now ≡ Some r))) }
{
    let Some(plex) = plex_in(group.config.plexes.as_slice(), name) else {
        return refused(Refusal::NoObject(*name));
    };
    let Some(vol) = plex.vol else {
        if !remove {
            return refused(Refusal::PlexState(plex.state));
        }
        return Ok((plex, None));
    };
    let Some(volume) = volume_in(group.config.volumes.as_slice(), &vol) else {
        return refused(Refusal::NoObject(vol));
    };
    let runs = group.public.running.contains_key(&volume.name);
    test_in_volume(&group.config, group.base.good(), &volume, &plex, runs)?;
    Ok((plex, Some(volume)))
}

fn test_in_volume(
    config: &Config,
    good: u32,
    vol: &Vol,
    plex: &Plex,
    runs: bool,
) -> Result<(), Stop>
    ensures passes { OnOk result (volume_leaving_refusal runs config.now good vol.now plex.now ≡ None) }
    ensures refused { IfErr result (EndsAs (RefusedFor (λ r. volume_leaving_refusal runs config.now good vol.now plex.now ≡ Some r))) }
{
    match leaving_refusal(config, good, vol, plex, runs) {
        Some(refusal) => refused(refusal),
        None => Ok(()),
    }
}

/// The first test that refuses that the plex leaves the volume, which runs or not.
fn leaving_refusal(
    config: &Config,
    good: u32,
    vol: &Vol,
    plex: &Plex,
    runs: bool,
) -> Option<Refusal>
    ensures { result ≡ volume_leaving_refusal runs config.now good vol.now plex.now }
{
    if refers(&vol.prefer, &plex.name) {
        return Some(Refusal::NoObject(plex.name));
    }
    if is_unasked(config, good, vol, plex, runs) {
        return Some(Refusal::NoLog(vol.name));
    }
    if is_last(config, good, &vol.name, plex) {
        return Some(Refusal::OnlyPlex(plex.name));
    }
    None
}

/// The log has to be asked, and no log plex lies on good disks.
fn is_unasked(config: &Config, good: u32, vol: &Vol, plex: &Plex, runs: bool) -> bool
    ensures { where_ result (refusal.NoLog vol.now.name) ≡ way_refusal (world_way_of (is_data plex.now.kind) runs vol.now) config.now good vol.now }
{
    match way_of(plex, runs, vol) {
        LeavingWay::ByLog => !has_used_log(config, good, vol),
        LeavingWay::ByRecord | LeavingWay::FromLog | LeavingWay::FromRest => false,
    }
}

/// Some log plex of the volume is in use, and all its disks are good.
fn has_used_log(config: &Config, good: u32, vol: &Vol) -> bool
    ensures { result ≡ not (length (used_logs vol.now.dco config.now good false vol.now.name) == 0) }
{
    vol.dco.is_some() && has_log_among(config, good, &vol.name)
}

fn has_log_among(config: &Config, good: u32, vol: &Name) -> bool
    ensures { result ≡ list_any (is_used_log config.now good false vol.now) config.now.plexes }
{
    config
        .plexes
        .as_slice()
        .iter()
        .any(|plex| is_used_log(config, good, vol, plex))
}

fn is_used_log(config: &Config, good: u32, vol: &Name, plex: &Plex) -> bool
    ensures { result ≡ is_used_log config.now good false vol.now plex.now }
{
    is_log_plex_of(plex, vol)
        && (matches!(plex.state, PlexState::Active) && is_held(config, good, plex))
}

/// The plex is the only one of its kind that the volume has, and cannot be spared.
fn is_last(config: &Config, good: u32, vol: &Name, plex: &Plex) -> bool
    ensures { result ≡ is_last config.now good vol.now plex.now }
{
    match plex.kind {
        PlexKind::Data => !has_other_data(config.plexes.as_slice(), vol, &plex.name),
        PlexKind::Log => is_log_state(plex.state) && !has_other_log(config, good, vol, &plex.name),
    }
}

/// A log plex in this state is of the volume's log.
fn is_log_state(state: PlexState) -> bool
    ensures { result ≡ is_log_state state }
{
    matches!(state, PlexState::Active | PlexState::Empty)
}

/// The volume has another data plex.
fn has_other_data(plexes: &[Plex], vol: &Name, name: &Name) -> bool
    ensures { result ≡ list_any (λ (q : Plex). is_data_plex_of vol.now q && is_besides name.now q) plexes.now }
{
    plexes.iter().any(|plex| is_data_plex_of(plex, vol) && !same(&plex.name, name))
}

/// The volume has another such log plex, all of whose disks are good.
fn has_other_log(config: &Config, good: u32, vol: &Name, name: &Name) -> bool
    ensures { result ≡ has_other_log config.now good vol.now name.now }
{
    config
        .plexes
        .as_slice()
        .iter()
        .any(|plex| is_other_log(config, good, vol, name, plex))
}

fn is_other_log(config: &Config, good: u32, vol: &Name, name: &Name, plex: &Plex) -> bool
    ensures { result ≡ (is_log_plex_of vol.now plex.now && (is_log_state plex.now.state && (is_held config.now good plex.now && is_besides name.now plex.now))) }
{
    is_log_plex_of(plex, vol)
        && (is_log_state(plex.state) && (is_held(config, good, plex) && !same(&plex.name, name)))
}
