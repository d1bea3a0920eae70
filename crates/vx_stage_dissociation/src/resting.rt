//! A data plex leaves a running volume, which comes to rest before.
ghost use Rattle.std.specs.Prelude.{◌≡◌, ◌≤◌, true, is_some, length};
ghost use Rattle.vx_house.specs.View.{IsGroupKept};
ghost use Rattle.vx_stage_mirrors.specs.LogEnding.{is_running};
ghost use Rattle.vx_stage_dissociation.specs.Rested.{RestedEnds};

use crate::taking::{room_for_runs, take_out};
use std::alloc::Global;
use vx_answers::Refusal;
use vx_house::{Imported, Stop, refused};
use vx_objects::{Plex, Vol};
use vx_piece::Piece;
use vx_stage_changes::NextConfig;
use vx_stage_mirrors::{commit_next, map_or_zero, needs_plex, settle, widen};

/// Takes the plex out of the running volume once that has come to rest, each of its regions has another plex that is current, and the
/// configuration without the plex is committed. Its pieces go back to the group. Where the commit is not done the volume runs with the plex, at
/// rest; so it may after want of memory.
pub(crate) fn leave_rested<P: Piece + Drop>(
    alloc: Global,
    group: &mut Imported<P>,
    vol: &Vol,
    plex: &Plex,
    next: NextConfig,
) -> Result<(), Stop>
    requires kept { IsGroupKept P.seen group.old }
    requires alike { (p q : P) → is_some (P.seen p).told ≡ is_some (P.seen q).told }
    requires runs { is_running group.old vol.now.name ≡ true }
    requires short { length next.text.items ≤ 522240 }
    ensures ends { RestedEnds P.seen vol.now.name plex.now next result group.old group.new }
{
    settle(alloc, group, &vol.name)?;
    let map = map_or_zero(plex.map);
    if needs_plex(&group.public.running, &vol.name, map) {
        return refused(Refusal::OnlyPlex(plex.name));
    }
    let Ok(room) = room_for_runs(alloc, &group.public.running, &vol.name) else {
        return Err(Stop::OutOfMemory);
    };
    let Ok(more) = Vec::with_capacity(alloc, group.public.left.len() + 1) else {
        return Err(Stop::OutOfMemory);
    };
    commit_next(alloc, group, next)?;
    widen(&mut group.public.left, more);
    take_out(alloc, group, &vol.name, map, room);
    Ok(())
}
