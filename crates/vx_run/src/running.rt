//! The stages of a plan, one after the other.
ghost use Rattle.std.specs.Prelude.{◌≡◌, []};
ghost use Rattle.vx_copies.specs.Lists.{AllOf};
ghost use Rattle.vx_run.specs.Fed.{AreFed, HasSize};
ghost use Rattle.vx_run.specs.Runs.{StagesGo};
ghost use Rattle.vx_house.specs.Scene.{shelved};
ghost use Rattle.vx_house.specs.View.{Keeps, at};

use crate::stages::run_stage;
use std::alloc::Global;
use vx_house::{House, Stop};
use vx_script_words::DiskAt;
use vx_shelf::Shelf;
use vx_stages::Stage;

/// Runs stages one after the other, up to the first that ends the command.
pub(crate) fn run_stages<S: Shelf>(
    alloc: Global,
    house: &mut House<S::P>,
    shelf: &mut S,
    stages: &[Stage],
    disks: &[DiskAt],
) -> Result<(), Stop>
    requires keeps { Keeps S.P.seen (at (shelved S.free S.held S.counted S.faults shelf.old) house.old) }
    requires empty { house.old.hand.items ≡ [] }
    requires fed { AreFed [] stages.now }
    requires sized { AllOf HasSize stages.now }
    ensures go { StagesGo S.P.seen disks.now stages.now result (at (shelved S.free S.held S.counted S.faults shelf.old) house.old) (at (shelved S.free S.held S.counted S.faults shelf.new) house.new) }
{
    for stage in stages {
        if let Err(stop) = run_stage(alloc, house, shelf, stage, disks) {
            return Err(stop);
        }
    }
    Ok(())
}
