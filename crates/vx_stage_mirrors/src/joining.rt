//! A plex that was parked joins a running volume.
ghost use Rattle.std.specs.Prelude.{◌≡◌, ◌+◌, ◌≤◌, ◌++◌, [], ◌∷◌, IfOk, IsSome, IsSomeAnd, None, length, vec_len, vec_capacity};
ghost use Rattle.std.specs.BTreeMap.{get};
ghost use Rattle.std.specs.Cmp.Lexicographic.{slice_cmp};
ghost use Rattle.std.specs.Ordering.{nat_cmp};
ghost use Rattle.vx_confdb.specs.Groups.{IsAlive};
ghost use Rattle.vx_lending.specs.Public.{running_at};
ghost use Rattle.vx_volume.specs.Changing.{runs_seen};
ghost use Rattle.vx_stage_mirrors.specs.Joining.{HasPut, IsRoomFor, JoinEnds, MayJoin, MayPut, PutsOne};

use std::alloc::Global;
use std::collections::BTreeMap;
use vx_base::OutOfMemory;
use vx_house::{Imported, Stop};
use vx_layout::Layout;
use vx_lending::{Running, VolumeForm};
use vx_names::Name;
use vx_piece::Piece;
use vx_plex_pieces::{runs_of, unpark_plex};
use vx_stage_changes::{NextConfig, commit};

/// Room for the maps and the layouts of a form with one plex more.
#[derive(Drop)]
pub(crate) struct FormRoom {
    pub maps: Vec<u8>,
    pub layouts: Vec<Layout>,
}

/// Records by a commit the configuration with the new plex; then what was parked last is put into the running volume of the name, as the
/// plex with this map and layout. All memory is taken before the commit. Where that is not done nothing else is, and the pieces lie where
/// they lay.
pub fn join_plex<P: Piece + Drop>(
    alloc: Global,
    group: &mut Imported<P>,
    name: &Name,
    map: u8,
    layout: Layout,
    next: NextConfig,
    room: Vec<Vec<P>>,
) -> Result<(), Stop>
    requires alive { IsAlive P.seen group.old.base }
    requires going { group.old.base.lost ≡ None }
    requires short { length next.text.items ≤ 522240 }
    requires may { MayJoin P.seen map (vec_capacity room) group.old.public.left.items (running_at group.old.public name.now) }
    requires none { room.items ≡ [] }
    ensures ends { JoinEnds P.seen name.now map layout next result group.old group.new }
{
    let Imported {
        config,
        base,
        public,
    } = group;
    let NextConfig {
        config: later,
        text,
    } = next;
    let Ok(form) = room_for(alloc, &public.running, name) else {
        return Err(Stop::OutOfMemory);
    };
    match commit(alloc, base, &text) {
        Ok(()) => {
            *config = later;
            let runs = runs_of(unpark_plex(public), room);
            put_running(&mut public.running, name, map, layout, runs, form);
            Ok(())
        }
        Err(stop) => Err(stop),
    }
}

/// Room for the form of the running volume of the name with one plex more.
fn room_for<P: Piece>(
    alloc: Global,
    running: &BTreeMap<Name, Running<P>>,
    name: &Name,
) -> Result<FormRoom, OutOfMemory>
    requires there { IsSome (get (slice_cmp nat_cmp) running.now name.now) }
    ensures { IfOk result (λ room. IsSomeAnd (get (slice_cmp nat_cmp) running.now name.now) (λ r. IsRoomFor r.form room)) }
{
    match running.get(name) {
        Some(one) => room_of(alloc, &one.form),
        None => unreachable!(),
    }
}

fn room_of(alloc: Global, form: &VolumeForm) -> Result<FormRoom, OutOfMemory>
    ensures { IfOk result (λ room. IsRoomFor form.now room) }
{
    let maps = Vec::with_capacity(alloc, form.maps.len() + 1)?;
    let layouts = Vec::with_capacity(alloc, form.layouts.len() + 1)?;
    Ok(FormRoom { maps, layouts })
}

/// Puts the plex into the running volume of the name.
fn put_running<P: Piece + Drop>(
    running: &mut BTreeMap<Name, Running<P>>,
    name: &Name,
    map: u8,
    layout: Layout,
    runs: Vec<Vec<P>>,
    room: FormRoom,
)
    requires may { IsSomeAnd (get (slice_cmp nat_cmp) running.old name.now) (MayPut P.seen map (runs_seen P.seen runs.items)) }
    requires room { IsSomeAnd (get (slice_cmp nat_cmp) running.old name.now) (λ r. IsRoomFor r.form room) }
    ensures { PutsOne P.seen name.now map layout (runs_seen P.seen runs.items) running.old running.new }
{
    match running.get_mut(name) {
        Some(one) => put_one(one, map, layout, runs, room),
        None => unreachable!(),
    }
}

fn put_one<P: Piece + Drop>(
    one: &mut Running<P>,
    map: u8,
    layout: Layout,
    runs: Vec<Vec<P>>,
    room: FormRoom,
)
    requires may { MayPut P.seen map (runs_seen P.seen runs.items) one.old }
    requires room { IsRoomFor one.old.form room }
    ensures { HasPut P.seen map layout (runs_seen P.seen runs.items) one.old one.new }
{
    let FormRoom { maps, layouts } = room;
    one.volume.put_plex(map, runs);
    one.form.shape.on = vx_mask::with(one.form.shape.on, vx_mask::of(map as u32));
    push_with(&mut one.form.maps, map, maps);
    push_with(&mut one.form.layouts, layout, layouts);
}

/// Puts an item behind the others, in the room of another list. It takes no memory.
fn push_with<T: Drop>(items: &mut Vec<T>, item: T, room: Vec<T>)
    requires none { room.items ≡ [] }
    requires enough { vec_len items.old + 1 ≤ vec_capacity room }
    ensures { items.new.items ≡ items.old.items ++ item ∷ [] }
{
    let mut all = room;
    match all.append(items) {
        Ok(()) => all.push_reserved(item),
        Err(_) => unreachable!(),
    }
    *items = all;
}
