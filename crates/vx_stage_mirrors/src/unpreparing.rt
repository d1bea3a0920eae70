//! A volume of the imported group loses its logs.
ghost use Rattle.std.specs.Prelude.{◌≡◌, ◌+◌, ◌<◌, ◌≤◌, [], is_some, IsSomeAnd, List, vec_len, vec_capacity};
ghost use Rattle.vx_script_words.specs.declared.value.DiskAt.{DiskAt};
ghost use Rattle.vx_lending.specs.Public.{running_at};
ghost use Rattle.vx_volume.specs.declared.log.VolumeLog.TheVariants.{Absent};
ghost use Rattle.vx_house.specs.Goes.{IsReady, StageGoes};
ghost use Rattle.vx_house.specs.Holders.{holders, AreHeld};
ghost use Rattle.vx_house.specs.Scene.{Shelved};
ghost use Rattle.vx_house.specs.View.{IsGroupKept, KeepsHouse, at};
ghost use Rattle.vx_stages.specs.declared.stage.Stage.TheVariants as stages;
ghost use Rattle.vx_stage_mirrors.specs.LogEnding.{UnprepareEnds};
ghost use Rattle.vx_stage_mirrors.specs.Relogging.{MayRelog, RelogsIn};

use crate::committing::commit_next;
use crate::log_planning::planned_loss;
use crate::log_testing::test_unprepare;
use crate::powering::is_powered;
use crate::relogging::relog;
use std::alloc::Global;
use vx_answers::Refusal;
use vx_group_start::leave_log;
use vx_house::{House, Imported, Stop, refused};
use vx_lending::Remains;
use vx_names::Name;
use vx_piece::Piece;
use vx_stage_volumes::each_piece_ends;
use vx_volume::VolumeLog;

/// Removes the logs and the DCO of the volume of the name, which has one data plex. Where it runs, it goes on without a log once that is
/// committed, and the pieces of the log go back to the group. Where the commit is not done the volume has its log still.
pub fn unprepare<P: Piece + Drop>(
    alloc: Global,
    house: &mut House<P>,
    name: &Name,
) -> Result<(), Stop>
    requires keeps { KeepsHouse P.seen house.old }
    requires alike { (p q : P) → is_some (P.seen p).told ≡ is_some (P.seen q).told }
    ensures goes { (disks : List DiskAt) (shelf : Shelved) → IsReady P.seen (stages.Unprepare name.now) disks house.old → AreHeld shelf.held (holders P.seen house.old) → StageGoes P.seen (stages.Unprepare name.now) disks result (at shelf house.old) (at shelf house.new) }
{
    each_piece_ends::<P>();
    match &mut house.group {
        None => refused(Refusal::NoGroup(None)),
        Some(group) => unprepare_in(alloc, group, name),
    }
}

fn unprepare_in<P: Piece + Drop>(
    alloc: Global,
    group: &mut Imported<P>,
    name: &Name,
) -> Result<(), Stop>
    requires kept { IsGroupKept P.seen group.old }
    requires alike { (p q : P) → is_some (P.seen p).told ≡ is_some (P.seen q).told }
    ensures ends { UnprepareEnds P.seen name.now result group.old group.new }
{
    let (vol, dco) = test_unprepare(&group.config, name)?;
    let next = planned_loss(alloc, &group.config, &vol, dco)?;
    if !is_powered(&group.public.running, name) {
        return Err(Stop::OutOfMemory);
    }
    let Ok(room) = Vec::with_capacity(alloc, group.public.left.len() + 1) else {
        return Err(Stop::OutOfMemory);
    };
    commit_next(alloc, group, next)?;
    if group.public.running.contains_key(name) {
        widen(&mut group.public.left, room);
        part(alloc, group, name);
    }
    Ok(())
}

/// What is left over goes into a list with room for one more. It takes no memory.
pub fn widen<P: Piece + Drop>(left: &mut Vec<Remains<P>>, room: Vec<Remains<P>>)
    requires none { room.items ≡ [] }
    requires enough { vec_len left.old + 1 ≤ vec_capacity room }
    ensures items { left.new.items ≡ left.old.items }
    ensures room { vec_len left.new < vec_capacity left.new }
{
    let mut all = room;
    match all.append(left) {
        Ok(()) => *left = all,
        Err(_) => unreachable!(),
    }
}

/// The running volume of the name goes on without a log, which is left over.
fn part<P: Piece + Drop>(alloc: Global, group: &mut Imported<P>, name: &Name)
    requires room { vec_len group.old.public.left < vec_capacity group.old.public.left }
    requires may { IsSomeAnd (running_at group.old.public name.now) (MayRelog P.seen Absent) }
    ensures parted { RelogsIn P.seen name.now Absent [] group.old group.new }
{
    let none = Vec::new(alloc);
    match relog(&mut group.public.running, name, VolumeLog::Absent, none) {
        VolumeLog::Maps(store) => leave_log(alloc, &mut group.public, store),
        VolumeLog::Absent => {}
    }
}
