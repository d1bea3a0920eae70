//! A data plex leaves a running volume, and its pieces go back to the group.
ghost use Rattle.std.specs.BTreeMap.{get};
ghost use Rattle.std.specs.Cmp.Lexicographic.{slice_cmp};
ghost use Rattle.std.specs.Ordering.{nat_cmp};
ghost use Rattle.std.specs.Prelude.{◌≡◌, ◌<◌, ◌++◌, [], IfOk, IsSomeAnd, vec_len, vec_capacity};
ghost use Rattle.vx_carve.specs.Together.{SameSectors};
ghost use Rattle.vx_joined_volumes.specs.Parted.{HasParted, IsFormParted};
ghost use Rattle.vx_lending.specs.Pieces.{copy_pieces};
ghost use Rattle.vx_lending.specs.Public.{running_at, still_pieces};
ghost use Rattle.vx_volume.specs.Changing.{runs_seen};
ghost use Rattle.vx_volume.specs.Parting.{runs_of};
ghost use Rattle.vx_volume.specs.Volume.{volume_seen};
ghost use Rattle.vx_stage_dissociation.specs.Taking.{HasRoomFor, MayTake, TakesIn, TakesOne};

use crate::forms::part_form;
use std::alloc::Global;
use std::collections::BTreeMap;
use vx_base::OutOfMemory;
use vx_house::Imported;
use vx_lending::{LogLeft, Public, Remains, Running};
use vx_names::Name;
use vx_piece::Piece;

/// Room for the pieces of one plex of the running volume of the name, a list for each region.
pub(crate) fn room_for_runs<P: Piece + Drop>(
    alloc: Global,
    running: &BTreeMap<Name, Running<P>>,
    name: &Name,
) -> Result<Vec<Vec<P>>, OutOfMemory>
    ensures none { IfOk result (λ room. room.items ≡ []) }
    ensures room { IfOk result (λ room. IsSomeAnd (get (slice_cmp nat_cmp) running.now name.now) (HasRoomFor P.seen (vec_capacity room))) }
{
    match running.get(name) {
        Some(one) => Ok(Vec::with_capacity(alloc, one.volume.cells().len())?),
        None => Err(OutOfMemory),
    }
}

/// Takes the plex of this map out of the running volume of the name. Its pieces lie among what is left over then. It takes no memory.
pub(crate) fn take_out<P: Piece + Drop>(
    alloc: Global,
    group: &mut Imported<P>,
    name: &Name,
    map: u8,
    room: Vec<Vec<P>>,
)
    requires left { vec_len group.old.public.left < vec_capacity group.old.public.left }
    requires none { room.items ≡ [] }
    requires may { IsSomeAnd (running_at group.old.public name.now) (MayTake P.seen map (vec_capacity room)) }
    ensures { TakesIn P.seen name.now map group.old group.new }
{
    let runs = take_running(&mut group.public.running, name, map, room);
    leave_runs(alloc, &mut group.public, runs);
}

fn take_running<P: Piece + Drop>(
    running: &mut BTreeMap<Name, Running<P>>,
    name: &Name,
    map: u8,
    room: Vec<Vec<P>>,
) -> Vec<Vec<P>>
    requires none { room.items ≡ [] }
    requires may { IsSomeAnd (get (slice_cmp nat_cmp) running.old name.now) (MayTake P.seen map (vec_capacity room)) }
    ensures { TakesOne P.seen name.now map (runs_seen P.seen result.items) running.old running.new }
{
    match running.get_mut(name) {
        Some(one) => take_one(one, map, room),
        None => unreachable!(),
    }
}

fn take_one<P: Piece + Drop>(one: &mut Running<P>, map: u8, room: Vec<Vec<P>>) -> Vec<Vec<P>>
    requires none { room.items ≡ [] }
    requires may { MayTake P.seen map (vec_capacity room) one.old }
    ensures form { IsFormParted map one.old.form one.new.form }
    ensures volume { HasParted P.seen map one.old.volume one.new.volume }
    ensures runs { runs_seen P.seen result.items ≡ runs_of map (volume_seen P.seen one.old.volume) }
{
    part_form(&mut one.form, map);
    one.volume.take_plex(map, room)
}

/// Leaves the pieces of a plex as the last of what is left over. It takes no memory.
pub(crate) fn leave_runs<P: Piece + Drop>(alloc: Global, public: &mut Public<P>, runs: Vec<Vec<P>>)
    requires { vec_len public.old.left < vec_capacity public.old.left }
    ensures still { SameSectors (copy_pieces (runs_seen P.seen runs.items) ++ still_pieces P.seen public.old) (still_pieces P.seen public.new) }
    ensures pool { public.new.pool ≡ public.old.pool }
    ensures running { public.new.running ≡ public.old.running }
    ensures stuck { public.new.stuck ≡ public.old.stuck }
{
    let regions = Vec::new(alloc);
    let log = LogLeft::Copies(runs);
    public.left.push_reserved(Remains { regions, log });
}
