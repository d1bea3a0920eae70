//! A copy of the log leaves a running volume.
ghost use Rattle.std.specs.BTreeMap.{IsOrdered, get};
ghost use Rattle.std.specs.Cmp.Lexicographic.{slice_cmp};
ghost use Rattle.std.specs.Ordering.{nat_cmp};
ghost use Rattle.std.specs.Prelude.{◌≡◌, ◌<◌, ◌≤◌, ◌==◌, [], is_some, map as map_of, true, IfOk, IfSome, IsSomeAnd, MatchOption, length, vec_len, vec_capacity};
ghost use Rattle.vx_house.specs.View.{IsGroupKept};
ghost use Rattle.vx_image.specs.Lies.{IsPlexOf};
ghost use Rattle.vx_lending.specs.Public.{running_at};
ghost use Rattle.vx_stage_mirrors.specs.LogEnding.{is_running};
ghost use Rattle.vx_stages.specs.Leaving.{FromLog};
ghost use Rattle.vx_stage_dissociation.specs.Planned.{IsLeavingPlanned};
ghost use Rattle.vx_stage_dissociation.specs.Going.{EachHouseLeaves};
ghost use Rattle.vx_yielded_volumes.specs.Yielded.{IsCopyOn, IsOnNoCopy};
ghost use Rattle.vx_stage_dissociation.specs.Yielding.{GivesIn, GivesOne, HasRoomForCopy, IsGivenUp, LogEnds, MayGiveUp, MayYield, YieldEnds};

use crate::layouts::place_among;
use crate::powering::is_powered;
use crate::taking::leave_runs;
use std::alloc::Global;
use std::collections::BTreeMap;
use vx_answers::Refusal;
use vx_base::OutOfMemory;
use vx_change_laws::each_copy_given_up_runs_on;
use vx_house::{Imported, Stop, refused};
use vx_image::layout_of;
use vx_layout::Layout;
use vx_lending::Running;
use vx_names::Name;
use vx_objects::{Plex, Vol};
use vx_piece::Piece;
use vx_stage_changes::NextConfig;
use vx_stage_mirrors::{commit_next, widen};
use vx_stage_volumes::each_piece_ends;
use vx_volume_laws::lives::each_left_volume_stands;

/// The running volume gives up the copy of its log that lies on the plex, once the configuration without it is committed; where no copy lies
/// there that is committed alone, and where it is the only one nothing is done. Where the commit is not done the volume has the copy still.
pub(crate) fn leave_log<P: Piece + Drop>(
    alloc: Global,
    group: &mut Imported<P>,
    vol: &Vol,
    plex: &Plex,
    next: NextConfig,
) -> Result<(), Stop>
    requires kept { IsGroupKept P.seen group.old }
    requires alike { (p q : P) → is_some (P.seen p).told ≡ is_some (P.seen q).told }
    requires planned { IsLeavingPlanned P.seen FromLog vol.now plex.now next group.old }
    ensures goes { EachHouseLeaves P.seen FromLog vol.now plex.now next result group.old group.new }
{
    each_piece_ends::<P>();
    each_left_volume_stands();
    each_copy_given_up_runs_on();
    leave_copy(alloc, group, &vol.name, plex, next)
}

/// So it is on the group. The copy is found by how it lies, since a log plex may be in use that the volume was opened without.
fn leave_copy<P: Piece + Drop>(
    alloc: Global,
    group: &mut Imported<P>,
    vol: &Name,
    plex: &Plex,
    next: NextConfig,
) -> Result<(), Stop>
    requires kept { IsGroupKept P.seen group.old }
    requires runs { is_running group.old vol.now ≡ true }
    requires recorded { IsPlexOf group.old.config plex.now }
    requires short { length next.text.items ≤ 522240 }
    ensures ends { LogEnds P.seen vol.now plex.now next result group.old group.new }
{
    let Ok(layout) = layout_of(alloc, &group.config, plex) else {
        return Err(Stop::OutOfMemory);
    };
    stand_in_order(&group.public.running);
    let Some(copy) = copy_on(&group.public.running, vol, &layout) else {
        return commit_next(alloc, group, next);
    };
    if !has_two(&group.public.running, vol) {
        return refused(Refusal::OnlyPlex(plex.name));
    }
    if !is_powered(&group.public.running, vol) {
        return Err(Stop::OutOfMemory);
    }
    yield_copy(alloc, group, vol, copy as u8, next)
}

/// Which copy of the log of the running volume of the name lies so, if any.
fn copy_on<P: Piece>(
    running: &BTreeMap<Name, Running<P>>,
    name: &Name,
    layout: &Layout,
) -> Option<usize>
    ensures { IfSome (get (slice_cmp nat_cmp) running.now name.now) (λ r. MatchOption result (IsOnNoCopy r.form.logs.items layout.now) (λ copy. IsCopyOn r.form.logs.items copy layout.now)) }
{
    match running.get(name) {
        Some(one) => place_among(one.form.logs.as_slice(), layout),
        None => None,
    }
}

/// The running volumes stand in the order of their names: a law, as a function that does nothing and promises it.
fn stand_in_order<P: Piece>(running: &BTreeMap<Name, Running<P>>)
    ensures { IsOrdered (slice_cmp nat_cmp) running.now }
{
    let _ = running.len();
}

/// The log of the running volume of the name is on two copies.
fn has_two<P: Piece>(running: &BTreeMap<Name, Running<P>>, name: &Name) -> bool
    ensures { IfSome (get (slice_cmp nat_cmp) running.now name.now) (λ r. result ≡ (length r.form.logs.items == 2)) }
{
    match running.get(name) {
        Some(one) => one.form.logs.len() == 2,
        None => false,
    }
}

/// Commits the configuration without the plex; then the running volume of the name gives up the copy, whose pieces go back to the group. All
/// memory is taken before.
fn yield_copy<P: Piece + Drop>(
    alloc: Global,
    group: &mut Imported<P>,
    name: &Name,
    copy: u8,
    next: NextConfig,
) -> Result<(), Stop>
    requires kept { IsGroupKept P.seen group.old }
    requires short { length next.text.items ≤ 522240 }
    requires may { IsSomeAnd (running_at group.old.public name.now) (MayYield P.seen copy) }
    ensures ends { YieldEnds P.seen name.now copy next result group.old group.new }
{
    let Ok(room) = room_for_copy(alloc, &group.public.running, name, copy) else {
        return Err(Stop::OutOfMemory);
    };
    let Ok(runs) = Vec::with_capacity(alloc, 1) else {
        return Err(Stop::OutOfMemory);
    };
    let Ok(more) = Vec::with_capacity(alloc, group.public.left.len() + 1) else {
        return Err(Stop::OutOfMemory);
    };
    commit_next(alloc, group, next)?;
    widen(&mut group.public.left, more);
    give_up(alloc, group, name, copy, room, runs);
    Ok(())
}

/// Room for the pieces of one copy of the log of the running volume of the name.
fn room_for_copy<P: Piece + Drop>(
    alloc: Global,
    running: &BTreeMap<Name, Running<P>>,
    name: &Name,
    copy: u8,
) -> Result<Vec<P>, OutOfMemory>
    requires some { copy < 2 }
    ensures none { IfOk result (λ room. room.items ≡ []) }
    ensures room { IfOk result (λ room. IsSomeAnd (get (slice_cmp nat_cmp) running.now name.now) (HasRoomForCopy P.seen copy (vec_capacity room))) }
{
    match running.get(name) {
        Some(one) => Ok(Vec::with_capacity(alloc, one.volume.copy_pieces(copy))?),
        None => Err(OutOfMemory),
    }
}

/// Takes the copy out of the running volume of the name. Its pieces lie among what is left over then. It takes no memory.
fn give_up<P: Piece + Drop>(
    alloc: Global,
    group: &mut Imported<P>,
    name: &Name,
    copy: u8,
    room: Vec<P>,
    runs: Vec<Vec<P>>,
)
    requires left { vec_len group.old.public.left < vec_capacity group.old.public.left }
    requires none { room.items ≡ [] }
    requires empty { runs.items ≡ [] }
    requires one { 0 < vec_capacity runs }
    requires may { IsSomeAnd (running_at group.old.public name.now) (MayGiveUp P.seen copy (vec_capacity room)) }
    ensures { GivesIn P.seen name.now copy group.old group.new }
{
    let mut runs = runs;
    runs.push_reserved(give_up_running(&mut group.public.running, name, copy, room));
    leave_runs(alloc, &mut group.public, runs);
}

fn give_up_running<P: Piece + Drop>(
    running: &mut BTreeMap<Name, Running<P>>,
    name: &Name,
    copy: u8,
    room: Vec<P>,
) -> Vec<P>
    requires none { room.items ≡ [] }
    requires may { IsSomeAnd (get (slice_cmp nat_cmp) running.old name.now) (MayGiveUp P.seen copy (vec_capacity room)) }
    ensures { GivesOne P.seen name.now copy (map_of P.seen result.items) running.old running.new }
{
    match running.get_mut(name) {
        Some(one) => give_up_one(one, copy, room),
        None => unreachable!(),
    }
}

fn give_up_one<P: Piece + Drop>(one: &mut Running<P>, copy: u8, room: Vec<P>) -> Vec<P>
    requires none { room.items ≡ [] }
    requires may { MayGiveUp P.seen copy (vec_capacity room) one.old }
    ensures { IsGivenUp P.seen copy (map_of P.seen result.items) one.old one.new }
{
    one.form.logs.remove(copy as usize);
    one.volume.give_up_copy(copy, room)
}
