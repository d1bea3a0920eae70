//! The stage that imports a disk group.
ghost use Rattle.std.specs.Prelude.{◌++◌, List, map, vec_capacity};
ghost use Rattle.vx_base.specs.Named.{Word};
ghost use Rattle.vx_shelf.specs.Listed.{IsRising};
ghost use Rattle.vx_import.specs.Answers.{IsGiven};
ghost use Rattle.vx_import.specs.Looks.{looked};
ghost use Rattle.vx_stages.specs.declared.stage.Stage.TheVariants as stages;
ghost use Rattle.vx_script_words.specs.declared.value.DiskAt.{DiskAt};
ghost use Rattle.vx_house.specs.Goes.{IsReady, StageGoes};
ghost use Rattle.vx_house.specs.Holders.{holders, AreHeld};
ghost use Rattle.vx_house.specs.Scene.{Shelved, shelved};
ghost use Rattle.vx_house.specs.View.{Keeps, at};
ghost use Rattle.vx_stage_import.specs.Finds.{holders_of, AreFinds, AreLooked};
ghost use Rattle.vx_stage_import.specs.Importing.{header_alone, all_read, IsAsked, IsSince};

use crate::committing::commit_given;
use crate::giving::give_finds;
use crate::inspecting::{look_into, stop_for};
use crate::judging::{Judged, judge};
use crate::searching::search_names;
use std::alloc::Global;
use vx_answers::{End, Refusal};
use vx_house::{House, Stop, refused};
use vx_import::{Given, GroupDevice};
use vx_names::Name;
use vx_script_words::DiskAt;
use vx_shelf::{Shelf, ShelfFault};

/// Imports a disk group: its devices are taken from the shelf, and its configuration is read and committed again.
pub fn import<S: Shelf>(
    alloc: Global,
    house: &mut House<S::P>,
    shelf: &mut S,
    dg: &Name,
    disks: &[DiskAt],
) -> Result<(), Stop>
    requires keeps { Keeps S.P.seen (at (shelved S.free S.held S.counted S.faults shelf.old) house.old) }
    requires ready { IsReady S.P.seen (stages.Import dg.now) disks.now house.old }
    ensures goes { StageGoes S.P.seen (stages.Import dg.now) disks.now result (at (shelved S.free S.held S.counted S.faults shelf.old) house.old) (at (shelved S.free S.held S.counted S.faults shelf.new) house.new) }
{
    match &house.group {
        Some(imported) => return refused(Refusal::InUse(imported.config.group)),
        None => {}
    }
    match shelf.names(alloc) {
        Ok(names) => import_from(alloc, house, shelf, dg, &names),
        Err(ShelfFault::Failed) => Err(Stop::Ended(End::ShelfFailed)),
        Err(_) => Err(Stop::OutOfMemory),
    }
}

/// The import from the names on that the shelf has told.
fn import_from<S: Shelf>(
    alloc: Global,
    house: &mut House<S::P>,
    shelf: &mut S,
    dg: &Name,
    names: &[Name],
) -> Result<(), Stop>
    requires rising { IsRising names.now }
    requires held { AreHeld (S.held shelf.old) (holders S.P.seen house.old) }
    ensures goes { (disks : List DiskAt) (first : Shelved) → IsAsked S.P.seen names.now first (shelved S.free S.held S.counted S.faults shelf.old) house.old →
        StageGoes S.P.seen (stages.Import dg.now) disks result (at first house.old) (at (shelved S.free S.held S.counted S.faults shelf.new) house.new) }
{
    match search_names(alloc, shelf, names, dg) {
        Ok(finds) => import_found(alloc, house, shelf, *dg, finds),
        Err(stop) => Err(stop),
    }
}

/// The import from the devices on that were found.
fn import_found<S: Shelf>(
    alloc: Global,
    house: &mut House<S::P>,
    shelf: &mut S,
    dg: Name,
    finds: Vec<GroupDevice<S::P>>,
) -> Result<(), Stop>
    requires held { AreHeld (S.held shelf.old) (holders S.P.seen house.old ++ holders_of (map (looked S.P.seen) finds.items)) }
    requires finds { AreFinds S.P.seen dg (vec_capacity finds) finds.items }
    ensures goes { (disks : List DiskAt) (names : List Word) (first : Shelved) → IsSince S.P.seen header_alone dg names first (shelved S.free S.held S.counted S.faults shelf.old) house.old (map (looked S.P.seen) finds.items) →
        StageGoes S.P.seen (stages.Import dg) disks result (at first house.old) (at (shelved S.free S.held S.counted S.faults shelf.new) house.new) }
{
    let mut finds = finds;
    match look_into(alloc, &mut finds) {
        Ok(given) => import_given(alloc, house, shelf, dg, finds, given),
        Err(fault) => {
            give_finds(finds, shelf);
            stop_for(alloc, &dg, &fault)
        }
    }
}

/// The import from a configuration on that was read: it is judged, and committed or refused.
fn import_given<S: Shelf>(
    alloc: Global,
    house: &mut House<S::P>,
    shelf: &mut S,
    dg: Name,
    finds: Vec<GroupDevice<S::P>>,
    given: Given,
) -> Result<(), Stop>
    requires held { AreHeld (S.held shelf.old) (holders S.P.seen house.old ++ holders_of (map (looked S.P.seen) finds.items)) }
    requires looks { AreLooked S.P.seen dg finds.items }
    requires given { IsGiven dg given (map (looked S.P.seen) finds.items) }
    ensures goes { (disks : List DiskAt) (names : List Word) (first : Shelved) → IsSince S.P.seen all_read dg names first (shelved S.free S.held S.counted S.faults shelf.old) house.old (map (looked S.P.seen) finds.items) →
        StageGoes S.P.seen (stages.Import dg) disks result (at first house.old) (at (shelved S.free S.held S.counted S.faults shelf.new) house.new) }
{
    let judged = judge(
        alloc,
        &dg,
        given.text.text(),
        given.good,
        &finds,
        &house.volumes,
    );
    match judged {
        Ok(Judged::Ready(config, text)) => {
            commit_given(alloc, house, shelf, dg, finds, given, config, text)
        }
        Ok(Judged::Refused(refusal)) => {
            give_finds(finds, shelf);
            refused(refusal)
        }
        Err(_) => {
            give_finds(finds, shelf);
            Err(Stop::OutOfMemory)
        }
    }
}
