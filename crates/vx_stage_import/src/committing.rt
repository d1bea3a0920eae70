//! The commit of a configuration that was read of the devices of a group.
ghost use Rattle.std.specs.Prelude.{◌++◌, ◌≤◌, List, length, map};
ghost use Rattle.vx_import.specs.Answers.{IsGiven};
ghost use Rattle.vx_import.specs.Looks.{looked};
ghost use Rattle.vx_stages.specs.declared.stage.Stage.TheVariants as stages;
ghost use Rattle.vx_script_words.specs.declared.value.DiskAt.{DiskAt};
ghost use Rattle.vx_house.specs.Goes.{StageGoes};
ghost use Rattle.vx_house.specs.Holders.{holders, AreHeld};
ghost use Rattle.vx_house.specs.Scene.{Shelved, shelved};
ghost use Rattle.vx_house.specs.View.{at};
ghost use Rattle.vx_base.specs.Named.{Word};
ghost use Rattle.vx_stage_import.specs.Finds.{holders_of, AreLooked};
ghost use Rattle.vx_stage_import.specs.Giving.{disk_holders};
ghost use Rattle.vx_stage_import.specs.Importing.{all_read, IsSince};
ghost use Rattle.vx_confdb.specs.Texts.{text_of};
ghost use Rattle.vx_stage_import.specs.Judging.{labels_of, is_started, TextJudged};
ghost use Rattle.vx_stage_import.specs.Readying.{AreCommittable};
ghost use Rattle.vx_stage_import.specs.declared.judging.Judged.TheVariants.{Ready};
ghost use Rattle.vx_stage_import.specs.Taking.{TakesIn};

use crate::giving::give_finds;
use crate::sorting::sort_out;
use std::alloc::Global;
use vx_confdb::Group;
use vx_copies::Disk;
use vx_house::{House, Imported, Stop, give_disks};
use vx_import::{Given, GroupDevice};
use vx_names::Name;
use vx_objects::Config;
use vx_shelf::Shelf;
use vx_stage_changes::commit;

/// Commits the text to the disks, which become those of the group. Where the group or the power is lost, they stay so until
/// the command is over; for want of memory they go back at once.
fn commit_disks<S: Shelf>(
    alloc: Global,
    house: &mut House<S::P>,
    shelf: &mut S,
    dg: Name,
    disks: Vec<Disk<S::P>>,
    given: Given,
    config: Config,
    text: &[u8],
) -> Result<(), Stop>
    requires held { AreHeld (S.held shelf.old) (holders S.P.seen house.old ++ disk_holders S.P.seen disks.items) }
    requires few { length disks.items ≤ 32 }
    requires can { AreCommittable S.P.seen dg given.sequence disks.items }
    requires fits { length text.now ≤ 522240 }
    ensures takes { TakesIn S.P.seen dg given config text.now disks result (shelved S.free S.held S.counted S.faults shelf.old) house.old (shelved S.free S.held S.counted S.faults shelf.new) house.new }
{
    let Given {
        sequence,
        good: _,
        text: before,
    } = given;
    let mut base = Group::of(dg, disks, sequence, before);
    match commit(alloc, &mut base, text) {
        Err(Stop::OutOfMemory) => {
            give_disks(base.deport(), shelf);
            Err(Stop::OutOfMemory)
        }
        Err(Stop::Ended(end)) => {
            house.group = Some(Imported::of(alloc, config, base));
            Err(Stop::Ended(end))
        }
        Ok(()) => {
            house.group = Some(Imported::of(alloc, config, base));
            Ok(())
        }
    }
}

/// Makes disks of the devices whose slot is good, gives the others back, and commits the text to the disks.
pub(crate) fn commit_given<S: Shelf>(
    alloc: Global,
    house: &mut House<S::P>,
    shelf: &mut S,
    dg: Name,
    finds: Vec<GroupDevice<S::P>>,
    given: Given,
    config: Config,
    text: Vec<u8>,
) -> Result<(), Stop>
    requires held { AreHeld (S.held shelf.old) (holders S.P.seen house.old ++ holders_of (map (looked S.P.seen) finds.items)) }
    requires looks { AreLooked S.P.seen dg finds.items }
    requires given { IsGiven dg given (map (looked S.P.seen) finds.items) }
    requires judged { TextJudged dg (text_of given.text) given.good (labels_of finds.items) (is_started house.old.volumes) (Ready config text) }
    ensures goes { (disks : List DiskAt) (names : List Word) (first : Shelved) → IsSince S.P.seen all_read dg names first (shelved S.free S.held S.counted S.faults shelf.old) house.old (map (looked S.P.seen) finds.items) →
        StageGoes S.P.seen (stages.Import dg) disks result (at first house.old) (at (shelved S.free S.held S.counted S.faults shelf.new) house.new) }
{
    let Ok(disks) = Vec::with_capacity(alloc, 32) else {
        give_finds(finds, shelf);
        return Err(Stop::OutOfMemory);
    };
    let mut disks = disks;
    sort_out(finds, given.good, &mut disks, shelf);
    commit_disks(alloc, house, shelf, dg, disks, given, config, &text)
}
