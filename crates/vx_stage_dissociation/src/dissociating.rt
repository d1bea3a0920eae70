//! A plex leaves its volume, or it is removed.
ghost use Rattle.std.specs.Prelude.{◌≡◌, is_some, List};
ghost use Rattle.vx_house.specs.Goes.{IsReady, StageGoes};
ghost use Rattle.vx_house.specs.Holders.{holders, AreHeld};
ghost use Rattle.vx_house.specs.Scene.{Shelved};
ghost use Rattle.vx_house.specs.View.{IsGroupKept, KeepsHouse, at};
ghost use Rattle.vx_script_words.specs.declared.value.DiskAt.{DiskAt};
ghost use Rattle.vx_stages.specs.declared.stage.Stage.TheVariants as stages;
ghost use Rattle.vx_stage_dissociation.specs.Ending.{DissociateEnds};

use crate::asking::leave_asked;
use crate::logging::leave_log;
use crate::planning::planned_leaving;
use crate::recording::{leave_recorded, remove_alone};
use crate::resting::leave_rested;
use crate::testing::test_leaving;
use crate::ways::{LeavingWay, way_of};
use std::alloc::Global;
use vx_answers::Refusal;
use vx_change_laws::{each_firming_runs_on, each_parting_runs_on};
use vx_house::{House, Imported, Stop, refused};
use vx_names::Name;
use vx_piece::Piece;
use vx_stage_volumes::each_piece_ends;
use vx_volume_laws::lives::{each_left_volume_stands, each_pass_runs_on, each_settling_settles};

/// Takes the plex of the name out of its volume, and removes it with its subdisks where that is asked for; else it is of no volume then, and
/// empty. One of no volume is removed.
pub fn dissociate<P: Piece + Drop>(
    alloc: Global,
    house: &mut House<P>,
    plex: &Name,
    remove: bool,
) -> Result<(), Stop>
    requires keeps { KeepsHouse P.seen house.old }
    requires alike { (p q : P) → is_some (P.seen p).told ≡ is_some (P.seen q).told }
    ensures goes { (disks : List DiskAt) (shelf : Shelved) → IsReady P.seen (stages.Dissociate plex.now remove) disks house.old → AreHeld shelf.held (holders P.seen house.old) → StageGoes P.seen (stages.Dissociate plex.now remove) disks result (at shelf house.old) (at shelf house.new) }
{
    each_piece_ends::<P>();
    each_pass_runs_on();
    each_settling_settles();
    each_firming_runs_on();
    each_parting_runs_on();
    each_left_volume_stands();
    match &mut house.group {
        None => refused(Refusal::NoGroup(None)),
        Some(group) => dissociate_in(alloc, group, plex, remove),
    }
}

fn dissociate_in<P: Piece + Drop>(
    alloc: Global,
    group: &mut Imported<P>,
    name: &Name,
    remove: bool,
) -> Result<(), Stop>
    requires kept { IsGroupKept P.seen group.old }
    requires alike { (p q : P) → is_some (P.seen p).told ≡ is_some (P.seen q).told }
    ensures ends { DissociateEnds P.seen remove name.now result group.old group.new }
{
    let (plex, own) = test_leaving(group, name, remove)?;
    let next = planned_leaving(alloc, &group.config, &plex, remove)?;
    match own {
        None => remove_alone(alloc, group, &plex, next),
        Some(vol) => {
            let runs = group.public.running.contains_key(&vol.name);
            match way_of(&plex, runs, &vol) {
                LeavingWay::ByRecord => leave_recorded(alloc, group, &vol, &plex, next),
                LeavingWay::FromLog => leave_log(alloc, group, &vol, &plex, next),
                LeavingWay::FromRest => leave_rested(alloc, group, &vol, &plex, next),
                LeavingWay::ByLog => leave_asked(alloc, group, &vol, &plex, next),
            }
        }
    }
}
