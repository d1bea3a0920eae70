//! A volume of the imported group gets logs.
ghost use Rattle.std.specs.Prelude.{◌≡◌, is_some, IsSomeAnd, List};
ghost use Rattle.vx_script_words.specs.declared.value.DiskAt.{DiskAt};
ghost use Rattle.vx_group_start.specs.Making.{EndsInLog};
ghost use Rattle.vx_lending.specs.Public.{running_at};
ghost use Rattle.vx_house.specs.Goes.{IsReady, StageGoes};
ghost use Rattle.vx_house.specs.Holders.{holders, AreHeld};
ghost use Rattle.vx_house.specs.Scene.{Shelved};
ghost use Rattle.vx_house.specs.View.{IsGroupKept, KeepsHouse, at};
ghost use Rattle.vx_stages.specs.declared.stage.Stage.TheVariants as stages;
ghost use Rattle.vx_stage_mirrors.specs.LogEnding.{PrepareEnds};
ghost use Rattle.vx_stage_mirrors.specs.Relogging.{IsLogJoined, IsUnlogged, MayRelogLeft};

use crate::committing::commit_next;
use crate::log_planning::planned_logs;
use crate::log_testing::test_prepare;
use crate::making::make;
use crate::powering::is_powered;
use crate::relogging::relog;
use std::alloc::Global;
use vx_answers::Refusal;
use vx_config_parts::VolState;
use vx_group_start::take_log;
use vx_house::{House, Imported, Stop, refused};
use vx_layout::Layout;
use vx_names::Name;
use vx_new_volumes::NewLogs;
use vx_piece::Piece;
use vx_stage_volumes::{each_piece_ends, prepare as make_ready};
use vx_volume::VolumeLog;

/// Adds logs and a DCO to the volume. Where it was started before, an empty log is written on them first; where it runs, it goes on with that
/// log once the records are committed. Where the commit is not done the volume has no log.
pub fn prepare<P: Piece + Drop>(
    alloc: Global,
    house: &mut House<P>,
    new: &NewLogs,
) -> Result<(), Stop>
    requires keeps { KeepsHouse P.seen house.old }
    requires alike { (p q : P) → is_some (P.seen p).told ≡ is_some (P.seen q).told }
    ensures goes { (disks : List DiskAt) (shelf : Shelved) → IsReady P.seen (stages.Prepare new.now) disks house.old → AreHeld shelf.held (holders P.seen house.old) → StageGoes P.seen (stages.Prepare new.now) disks result (at shelf house.old) (at shelf house.new) }
{
    each_piece_ends::<P>();
    match &mut house.group {
        None => refused(Refusal::NoGroup(None)),
        Some(group) => prepare_in(alloc, group, new),
    }
}

fn prepare_in<P: Piece + Drop>(
    alloc: Global,
    group: &mut Imported<P>,
    new: &NewLogs,
) -> Result<(), Stop>
    requires kept { IsGroupKept P.seen group.old }
    requires alike { (p q : P) → is_some (P.seen p).told ≡ is_some (P.seen q).told }
    ensures ends { PrepareEnds P.seen new.now result group.old group.new }
{
    let runs = group.public.running.contains_key(&new.vol);
    let vol = test_prepare(alloc, &group.config, new, runs)?;
    let next = planned_logs(alloc, &group.config, group.base.good(), &vol, new)?;
    if vol.state == VolState::Empty {
        return commit_next(alloc, group, next);
    }
    if !is_powered(&group.public.running, &new.vol) || make_ready(alloc, group).is_err() {
        return Err(Stop::OutOfMemory);
    }
    let logs = make(alloc, group, &next.config, &new.vol)?;
    commit_next(alloc, group, next)?;
    if runs {
        join(group, &new.vol, logs);
    }
    Ok(())
}

/// The running volume of the name, which has no log, goes on with the log that was left over last.
fn join<P: Piece + Drop>(group: &mut Imported<P>, name: &Name, logs: Vec<Layout>)
    requires left { EndsInLog group.old.public.left.items }
    requires none { IsSomeAnd (running_at group.old.public name.now) IsUnlogged }
    requires may { IsSomeAnd (running_at group.old.public name.now) (MayRelogLeft P.seen group.old.public.left.items) }
    ensures joined { IsLogJoined P.seen name.now logs.items group.old group.new }
{
    let store = take_log(&mut group.public);
    let _ = relog(
        &mut group.public.running,
        name,
        VolumeLog::Maps(store),
        logs,
    );
}
