//! The stage that adds records.
ghost use Rattle.std.specs.Prelude.{List};
ghost use Rattle.vx_added_records.specs.Started.{is_either};
ghost use Rattle.vx_house.specs.Goes.{StageGoes};
ghost use Rattle.vx_house.specs.Holders.{holders, AreHeld};
ghost use Rattle.vx_house.specs.Scene.{Shelved};
ghost use Rattle.vx_house.specs.View.{KeepsHouse, IsGroupKept, at};
ghost use Rattle.vx_stages.specs.declared.stage.Stage.TheVariants as stages;
ghost use Rattle.vx_script_words.specs.declared.value.DiskAt.{DiskAt};
ghost use Rattle.vx_stage_changes.specs.Judging.{MakeEnds};

use crate::commit_growing;
use crate::sources::{added_from, growth};
use std::alloc::Global;
use std::collections::BTreeMap;
use vx_added_records::refusal_of;
use vx_answers::Refusal;
use vx_house::{House, Imported, Stop, refused};
use vx_names::Name;
use vx_objects::{Edit, Listed};
use vx_piece::Piece;
use vx_stages::Source;
use vx_started::Started;

/// Adds the records of the source to the configuration of the imported group, and commits it.
pub fn make<P: Piece>(alloc: Global, house: &mut House<P>, source: &Source) -> Result<(), Stop>
    requires keeps { KeepsHouse P.seen house.old }
    ensures goes { (disks : List DiskAt) (shelf : Shelved) → AreHeld shelf.held (holders P.seen house.old) → StageGoes P.seen (stages.Make source.now) disks result (at shelf house.old) (at shelf house.new) }
{
    match &mut house.group {
        None => refused(Refusal::NoGroup(None)),
        Some(group) => make_in(alloc, &house.volumes, group, source),
    }
}

/// Adds the records of the source to the group, where no test refuses them.
fn make_in<P: Piece>(
    alloc: Global,
    volumes: &BTreeMap<Name, Started<P>>,
    group: &mut Imported<P>,
    source: &Source,
) -> Result<(), Stop>
    requires kept { IsGroupKept P.seen group.old }
    ensures ends { MakeEnds P.seen (is_either volumes.now group.old.public.running) source.now result group.old group.new }
{
    let added = added_from(alloc, volumes, group, source)?;
    match refusal_of(alloc, volumes, &group.public.running, &group.config, &added) {
        Ok(None) => {
            let more = growth(source, &added);
            commit_growing(alloc, group, &[Edit::Make(Listed::from_vec(added))], more)
        }
        Ok(Some(refusal)) => refused(refusal),
        Err(_) => Err(Stop::OutOfMemory),
    }
}
