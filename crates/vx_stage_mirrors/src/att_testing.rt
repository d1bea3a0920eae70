//! The tests of a plex that is to be put into use.
ghost use Rattle.std.specs.Prelude.{◌≡◌, None, Some, IfErr, IfOk, OnOk};
ghost use Rattle.vx_image.specs.Bytes.{is_held};
ghost use Rattle.vx_image.specs.Lies.{slot_of};
ghost use Rattle.vx_mask.specs.Mask.{has};
ghost use Rattle.vx_stages.specs.Mirroring.{RefusedFor};
ghost use Rattle.vx_stages.specs.Plexes.{attach_refusal, is_attachable, may_be_used, plex_in};
ghost use Rattle.vx_stages.specs.Tests.{volume_in};
ghost use Rattle.vx_stage_mirrors.specs.Planned.{EndsAs};

use crate::log_testing::is_data_plex_of;
use crate::plex_states::plex_in;
use vx_answers::Refusal;
use vx_config_parts::{PlexState, refers};
use vx_house::{Stop, refused};
use vx_image::slot_of;
use vx_names::Name;
use vx_objects::{Config, Plex, Subdisk, Vol};
use vx_stage_changes::volume_in;

/// The volume and the plex of these names, where no test refuses that the plex is put into use; `good` are the slots whose disks are good,
/// and `runs` says whether the volume is started.
pub(crate) fn test_attach(
    config: &Config,
    good: u32,
    vol: &Name,
    name: &Name,
    runs: bool,
) -> Result<(Vol, Plex), Stop>
    ensures found { IfOk result (λ x. volume_in vol.now config.now.volumes ≡ Some x.0) }
    ensures plex { IfOk result (λ x. plex_in name.now config.now.plexes ≡ Some x.1) }
    ensures passes { OnOk result (attach_refusal runs config.now good vol.now name.now ≡ None) }
    ensures refused { IfErr result (EndsAs (RefusedFor (λ r. attach_refusal runs config.now good vol.now name.now ≡ Some r))) }
{
    let Some(volume) = volume_in(config.volumes.as_slice(), vol) else {
        return refused(Refusal::NoObject(*vol));
    };
    let Some(plex) = plex_in(config.plexes.as_slice(), name) else {
        return refused(Refusal::NoObject(*name));
    };
    if !runs {
        return refused(Refusal::NotStarted(*vol));
    }
    if !is_attachable(config, good, vol, &plex) {
        return refused(Refusal::PlexState(plex.state));
    }
    Ok((volume, plex))
}

/// It is a data plex of the volume in a state from which it may be used, and all its disks are good.
fn is_attachable(config: &Config, good: u32, vol: &Name, plex: &Plex) -> bool
    ensures { result ≡ is_attachable config.now good vol.now plex.now }
{
    is_data_plex_of(plex, vol) && may_be_used(plex.state) && is_held(config, good, plex)
}

fn may_be_used(state: PlexState) -> bool
    ensures { result ≡ may_be_used state }
{
    matches!(
        state,
        PlexState::Stale | PlexState::IoFail | PlexState::Active
    )
}

/// All disks of the plex are good.
pub fn is_held(config: &Config, good: u32, plex: &Plex) -> bool
    ensures { result ≡ is_held config.now good plex.now }
{
    config.subdisks.as_slice().iter().all(|subdisk| !refers(&subdisk.plex, &plex.name)
        || is_good(config, good, subdisk))
}

/// The disk of the subdisk is good.
fn is_good(config: &Config, good: u32, subdisk: &Subdisk) -> bool
    ensures { result ≡ has good (slot_of config.now.disks subdisk.now.disk) }
{
    let slot = slot_of(config.disks.as_slice(), &subdisk.disk);
    vx_mask::contains(u64::from(good), u32::from(slot))
}
