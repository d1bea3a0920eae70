//! One stage of a command.
ghost use Rattle.vx_run.specs.Fed.{HasSize};
ghost use Rattle.vx_run.specs.Runs.{StageEnds};
ghost use Rattle.vx_house.specs.Goes.{IsReady, StageGoes};
ghost use Rattle.vx_house.specs.Scene.{Shelved, shelved};
ghost use Rattle.vx_house.specs.View.{Keeps, at};
ghost use Rattle.vx_stages.specs.declared.stage.Stage.TheVariants as stages;

use crate::policies::change_and_follow;
use std::alloc::Global;
use vx_house::{House, Stop, give_group, refused, take, take_disks};
use vx_piece::Piece;
use vx_script_words::DiskAt;
use vx_shelf::Shelf;
use vx_stage_changes::{create, join, make};
use vx_stage_devices::{look_blank, look_disks, look_headed, make_image, search, start_bare, wipe};
use vx_stage_dissociation::dissociate;
use vx_stage_gates::failing;
use vx_stage_import::import;
use vx_stage_mirrors::{attach, detach, mirror, prepare, unprepare};
use vx_stage_volumes::{start, stop};
use vx_stages::{Stage, Test};

/// Runs a stage.
pub(crate) fn run_stage<S: Shelf>(
    alloc: Global,
    house: &mut House<S::P>,
    shelf: &mut S,
    stage: &Stage,
    disks: &[DiskAt],
) -> Result<(), Stop>
    requires keeps { Keeps S.P.seen (at (shelved S.free S.held S.counted S.faults shelf.old) house.old) }
    requires ready { IsReady S.P.seen stage.now disks.now house.old }
    requires sized { HasSize stage.now }
    ensures goes { StageEnds S.P.seen stage.now disks.now result (at (shelved S.free S.held S.counted S.faults shelf.old) house.old) (at (shelved S.free S.held S.counted S.faults shelf.new) house.new) }
{
    match stage {
        Stage::Gate(test) => pass(alloc, house, *test, disks),
        Stage::Take(device) => take(alloc, house, shelf, device),
        Stage::TakeDisks => take_disks(alloc, house, shelf, disks),
        Stage::LookBlank(_) => look_blank(alloc, house),
        Stage::LookDisks => look_disks(alloc, house),
        Stage::LookHeaded(device) => look_headed(alloc, house, device, disks),
        Stage::Search(dg) => search(alloc, house, shelf, dg, disks),
        Stage::MakeImage { device, sectors } => make_image(alloc, house, shelf, device, *sectors),
        Stage::Wipe(device) => wipe(alloc, house, device, disks),
        Stage::StartBare { vol, device } => start_bare(alloc, house, vol, device, disks),
        Stage::Change(edit) => change_and_follow(alloc, house, edit),
        Stage::Make(source) => make(alloc, house, source),
        Stage::Import(dg) => import(alloc, house, shelf, dg, disks),
        Stage::LetGo => let_go(alloc, house, shelf, disks),
        Stage::Join => join(alloc, house, disks),
        Stage::Create(dg) => create(alloc, house, dg, disks),
        Stage::Start(vol) => start(alloc, house, *vol),
        Stage::Mirror(new) => mirror(alloc, house, new),
        Stage::Prepare(new) => prepare(alloc, house, new),
        Stage::Unprepare(vol) => unprepare(alloc, house, vol),
        Stage::Detach(plex) => detach(alloc, house, plex),
        Stage::Attach { vol, plex } => attach(alloc, house, vol, plex),
        Stage::Dissociate { plex, remove } => dissociate(alloc, house, plex, *remove),
        Stage::Stop(vol) => stop(alloc, house, vol),
    }
}

/// Ends the command where the test fails.
fn pass<P: Piece>(alloc: Global, house: &House<P>, test: Test, disks: &[DiskAt]) -> Result<(), Stop>
    requires ready { IsReady P.seen (stages.Gate test) disks.now house.now }
    ensures goes { (shelf : Shelved) → Keeps P.seen (at shelf house.now) → StageGoes P.seen (stages.Gate test) disks.now result (at shelf house.now) (at shelf house.now) }
{
    match failing(alloc, house, test, disks) {
        Ok(None) => Ok(()),
        Ok(Some(refusal)) => refused(refusal),
        Err(_) => Err(Stop::OutOfMemory),
    }
}

/// Lets the imported group go. Where there is no memory to join its devices it stays, and some may be joined.
fn let_go<S: Shelf>(
    alloc: Global,
    house: &mut House<S::P>,
    shelf: &mut S,
    disks: &[DiskAt],
) -> Result<(), Stop>
    requires keeps { Keeps S.P.seen (at (shelved S.free S.held S.counted S.faults shelf.old) house.old) }
    requires ready { IsReady S.P.seen stages.LetGo disks.now house.old }
    ensures goes { StageEnds S.P.seen stages.LetGo disks.now result (at (shelved S.free S.held S.counted S.faults shelf.old) house.old) (at (shelved S.free S.held S.counted S.faults shelf.new) house.new) }
{
    let _ = disks;
    match give_group(alloc, house, shelf) {
        Ok(()) => Ok(()),
        Err(_) => Err(Stop::OutOfMemory),
    }
}
