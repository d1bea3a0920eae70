//! The tests of a data plex that is to go out of use.
ghost use Rattle.std.specs.Prelude.{◌≡◌, ◌&&◌, None, Some, IfErr, IfOk, OnOk};
ghost use Rattle.vx_stages.specs.Mirroring.{RefusedFor};
ghost use Rattle.vx_stages.specs.Plexes.{detach_refusal, is_in_use, plex_in};
ghost use Rattle.vx_stages.specs.Tests.{is_data};
ghost use Rattle.vx_stage_mirrors.specs.LogEnding.{is_running};
ghost use Rattle.vx_stage_mirrors.specs.Planned.{EndsAs};

use crate::plex_states::plex_in;
use vx_answers::Refusal;
use vx_config_parts::{PlexKind, PlexState};
use vx_house::{Imported, Stop, refused};
use vx_names::Name;
use vx_objects::Plex;
use vx_piece::Piece;

/// The plex of the name and the name of its volume, where no test refuses that it goes out of use.
pub(crate) fn test_detach<P: Piece>(group: &Imported<P>, name: &Name) -> Result<(Plex, Name), Stop>
    ensures found { IfOk result (λ x. plex_in name.now group.now.config.plexes ≡ Some x.0) }
    ensures own { IfOk result (λ x. x.0.vol ≡ Some x.1) }
    ensures passes { OnOk result (detach_refusal (is_running group.now) group.now.config name.now ≡ None) }
    ensures refused { IfErr result (EndsAs (RefusedFor (λ r. detach_refusal (is_running group.now) group.now.config name.now ≡ Some r))) }
{
    let Some(plex) = plex_in(group.config.plexes.as_slice(), name) else {
        return refused(Refusal::NoObject(*name));
    };
    let Some(vol) = plex.vol else {
        return refused(Refusal::PlexState(plex.state));
    };
    if !group.public.running.contains_key(&vol) {
        return refused(Refusal::NotStarted(vol));
    }
    if !is_data_in_use(&plex) {
        return refused(Refusal::PlexState(plex.state));
    }
    Ok((plex, vol))
}

/// The plex is a data plex in a state in which it goes out of use.
fn is_data_in_use(plex: &Plex) -> bool
    ensures { result ≡ (is_data plex.now.kind && is_in_use plex.now.state) }
{
    plex.kind == PlexKind::Data && matches!(plex.state, PlexState::Active)
}
