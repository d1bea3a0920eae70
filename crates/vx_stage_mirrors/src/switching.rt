//! A data plex of a running volume goes on or off, once its state is recorded.
ghost use Rattle.std.specs.BTreeMap.{get};
ghost use Rattle.std.specs.Cmp.Lexicographic.{slice_cmp};
ghost use Rattle.std.specs.Ordering.{nat_cmp};
ghost use Rattle.std.specs.Prelude.{◌≡◌, ◌≤◌, IsSomeAnd, None, length};
ghost use Rattle.vx_confdb.specs.Groups.{IsAlive};
ghost use Rattle.vx_joined_volumes.specs.Switched.{HasSwitched, IsFormSwitched};
ghost use Rattle.vx_lending.specs.Public.{running_at};
ghost use Rattle.vx_stage_mirrors.specs.Switching.{MaySwitch, SwitchEnds, SwitchesOne};

use crate::committing::commit_next;
use std::alloc::Global;
use std::collections::BTreeMap;
use vx_house::{Imported, Stop};
use vx_lending::{Running, VolumeForm};
use vx_names::Name;
use vx_piece::Piece;
use vx_stage_changes::NextConfig;
use vx_volume::VolumeShape;

/// Records by a commit the configuration with another state of a data plex; then the plex of this map is on or off in the running volume of
/// the name. Where the commit is not done nothing else is.
pub(crate) fn switch_plex<P: Piece + Drop>(
    alloc: Global,
    group: &mut Imported<P>,
    name: &Name,
    map: u8,
    on: bool,
    next: NextConfig,
) -> Result<(), Stop>
    requires alive { IsAlive P.seen group.old.base }
    requires going { group.old.base.lost ≡ None }
    requires short { length next.text.items ≤ 522240 }
    requires may { IsSomeAnd (running_at group.old.public name.now) (MaySwitch P.seen map on) }
    ensures ends { SwitchEnds P.seen name.now map on next result group.old group.new }
{
    commit_next(alloc, group, next)?;
    switch_running(&mut group.public.running, name, map, on);
    Ok(())
}

/// Sets the plex on or off in the running volume of the name.
fn switch_running<P: Piece + Drop>(
    running: &mut BTreeMap<Name, Running<P>>,
    name: &Name,
    map: u8,
    on: bool,
)
    requires may { IsSomeAnd (get (slice_cmp nat_cmp) running.old name.now) (MaySwitch P.seen map on) }
    ensures { SwitchesOne P.seen name.now map on running.old running.new }
{
    match running.get_mut(name) {
        Some(one) => switch_one(one, map, on),
        None => unreachable!(),
    }
}

fn switch_one<P: Piece + Drop>(one: &mut Running<P>, map: u8, on: bool)
    requires may { MaySwitch P.seen map on one.old }
    ensures form { IsFormSwitched map on one.old.form one.new.form }
    ensures volume { HasSwitched P.seen map on one.old.volume one.new.volume }
{
    switch_form(&mut one.form, map, on);
    one.volume.set_plex(map, on);
}

/// The form with the plex on or off.
fn switch_form(form: &mut VolumeForm, map: u8, on: bool)
    ensures { IsFormSwitched map on form.old form.new }
{
    let plex = vx_mask::of(u32::from(map));
    let shape = form.shape;
    form.shape = if on {
        VolumeShape {
            on: vx_mask::with(shape.on, plex),
            off: vx_mask::less(shape.off, plex),
            ..shape
        }
    } else {
        VolumeShape {
            on: vx_mask::less(shape.on, plex),
            off: vx_mask::with(shape.off, plex),
            ..shape
        }
    };
}
