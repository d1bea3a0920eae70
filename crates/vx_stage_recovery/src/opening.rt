//! The volume of a recovery that is recorded as begun.
ghost use Rattle.std.specs.Prelude.{◌≡◌, is_some, true, IfOk, IfErr, IfSome};
ghost use Rattle.vx_config_parts.specs.declared.state.VolState.TheVariants as states;
ghost use Rattle.vx_house.specs.View.{IsGroupKept};
ghost use Rattle.vx_image.specs.UsedPlexes.{IsVolOf};
ghost use Rattle.vx_stages.specs.Tests.{volume_in};
ghost use Rattle.vx_stage_recovery.specs.Opening.{IsOpenedOut, IsUnopenedOut, IsBegunIn};

use std::alloc::Global;
use vx_config_parts::VolState;
use vx_house::{Imported, Stop, each_idle_volume_is_free};
use vx_lending::Running;
use vx_names::Name;
use vx_objects::Vol;
use vx_piece::Piece;
use vx_stage_changes::volume_in;
use vx_stage_volumes::{open_in, prepare, test_early};

/// The volume of the name, where its recovery is recorded as begun and it does not run.
pub(crate) fn begun<P: Piece>(group: &Imported<P>, name: &Name) -> Option<Vol>
    ensures { IfSome result (IsBegunIn name.now group.now) }
{
    if group.public.running.contains_key(name) {
        return None;
    }
    let vol = volume_in(group.config.volumes.as_slice(), name)?;
    match vol.state {
        VolState::Sync => Some(vol),
        _ => None,
    }
}

/// Opens the volume out of the pieces of its group, unless the configuration and the good disks refuse that at once.
pub(crate) fn open<P: Piece + Drop>(
    alloc: Global,
    group: &mut Imported<P>,
    vol: &Vol,
) -> Result<Running<P>, Stop>
    requires kept { IsGroupKept P.seen group.old }
    requires alike { (p q : P) → is_some (P.seen p).told ≡ is_some (P.seen q).told }
    requires begun { IsBegunIn vol.now.name group.old vol.now }
    ensures opens { IfOk result (IsOpenedOut P.seen vol.now group.old group.new) }
    ensures unopened { IfErr result (IsUnopenedOut P.seen vol.now group.old group.new) }
{
    test_early(alloc, &group.config, group.base.good(), vol)?;
    if prepare(alloc, group).is_err() {
        return Err(Stop::OutOfMemory);
    }
    each_idle_volume_is_free(group);
    open_in(alloc, group, vol)
}
