//! A volume that was opened is recorded as started, and then its plexes are copied to.
ghost use Rattle.std.specs.Prelude.{◌≡◌, ◌<◌, ◌≤◌, length, None, vec_len, vec_capacity, IsSome};
ghost use Rattle.std.specs.BTreeMap.{get};
ghost use Rattle.std.specs.Cmp.Lexicographic.{slice_cmp};
ghost use Rattle.std.specs.Ordering.{nat_cmp};
ghost use Rattle.vx_confdb.specs.Groups.{IsAlive};
ghost use Rattle.vx_group_start.specs.Laying.{AreRunningVolumes};
ghost use Rattle.vx_lending.specs.Public.{running_at};
ghost use Rattle.vx_stage_volumes.specs.Recording.{IsCopiedAmong, IsResynchronised, RecordEnds};

use crate::naming::copied;
use std::alloc::Global;
use std::collections::BTreeMap;
use std::collections::btree_map::Entry;
use vx_group_start::{copy_all, mask_to_copy};
use vx_house::{Imported, Stop};
use vx_lending::Running;
use vx_names::Name;
use vx_piece::Piece;
use vx_stage_changes::{NextConfig, commit};
use vx_volume::IoFault;

/// Records by a commit that the volume is started; then it runs, in a place that was made for it before. Where that is not done it is held
/// among those that could not be put back.
pub fn record_start<P: Piece + Drop>(
    alloc: Global,
    group: &mut Imported<P>,
    name: Name,
    running: Running<P>,
    next: NextConfig,
) -> Result<(), Stop>
    requires alive { IsAlive P.seen group.old.base }
    requires going { group.old.base.lost ≡ None }
    requires short { length next.text.items ≤ 522240 }
    requires absent { running_at group.old.public name ≡ None }
    requires room { vec_len group.old.public.stuck < vec_capacity group.old.public.stuck }
    ensures ends { RecordEnds P.seen name running next result group.old group.new }
{
    let Imported {
        config,
        base,
        public,
    } = group;
    let NextConfig {
        config: later,
        text,
    } = next;
    match public.running.entry(name) {
        Ok(Entry::Vacant(place)) => match commit(alloc, base, &text) {
            Ok(()) => {
                place.insert(running);
                *config = later;
                Ok(())
            }
            Err(stop) => {
                public.stuck.push_reserved(running);
                Err(stop)
            }
        },
        _ => {
            public.stuck.push_reserved(running);
            Err(Stop::OutOfMemory)
        }
    }
}

/// Copies to the plexes of the running volume of the name that miss everything since it was never started; of another to none. So the start
/// ends.
pub(crate) fn resync<P: Piece + Drop>(
    alloc: Global,
    group: &mut Imported<P>,
    name: &Name,
    fresh: bool,
) -> Stop
    requires there { IsSome (running_at group.old.public name.now) }
    requires volumes { AreRunningVolumes P.seen group.old.public.running.entries }
    ensures { IsResynchronised P.seen name.now fresh result group.old group.new }
{
    let outcome = copy_running(&mut group.public.running, name, fresh);
    copied(alloc, group.base.disks(), outcome)
}

fn copy_running<P: Piece + Drop>(
    running: &mut BTreeMap<Name, Running<P>>,
    name: &Name,
    fresh: bool,
) -> Result<u64, IoFault>
    requires there { IsSome (get (slice_cmp nat_cmp) running.old name.now) }
    requires volumes { AreRunningVolumes P.seen running.old.entries }
    ensures { IsCopiedAmong P.seen name.now fresh result running.old running.new }
{
    match running.get_mut(name) {
        Some(one) => {
            let mask = if fresh { mask_to_copy(&one.form) } else { 0 };
            copy_all(&mut one.volume, mask)
        }
        None => unreachable!(),
    }
}
