//! The looking for the devices of a group.
ghost use Rattle.std.specs.Prelude.{List, IfOk, IfErr, map, vec_capacity};
ghost use Rattle.vx_shelf.specs.Listed.{IsRising};
ghost use Rattle.vx_import.specs.Looks.{looked};
ghost use Rattle.vx_house.specs.Holders.{Holder, AreHeld};
ghost use Rattle.vx_house.specs.Scene.{shelved};
ghost use Rattle.vx_stage_import.specs.Finds.{beside, AreFinds};
ghost use Rattle.vx_stage_import.specs.Gathering.{GatherGoes};
ghost use Rattle.vx_stage_import.specs.Importing.{SearchStops};
ghost use Rattle.vx_house.specs.Reading.{AreRead};
ghost use Rattle.vx_stage_import.specs.declared.gathering.Passed.TheVariants as passed;

use crate::gathering::{Passed, gather};
use crate::giving::give_finds;
use std::alloc::Global;
use vx_house::{Stop, lost};
use vx_import::GroupDevice;
use vx_names::Name;
use vx_shelf::Shelf;

/// Looks for the devices of a group among these names. Where the power is gone, or for want of memory, all are given back.
pub(crate) fn search_names<S: Shelf>(
    alloc: Global,
    shelf: &mut S,
    names: &[Name],
    dg: &Name,
) -> Result<Vec<GroupDevice<S::P>>, Stop>
    requires rising { IsRising names.now }
    requires held { (others : List Holder) × AreHeld (S.held shelf.old) others }
    ensures finds { IfOk result (λ finds. AreFinds S.P.seen dg.now (vec_capacity finds) finds.items) }
    ensures found { IfOk result (λ finds. (others : List Holder) → AreHeld (S.held shelf.old) others →
        GatherGoes passed.Done dg.now names.now
        (record { shelf = shelved S.free S.held S.counted S.faults shelf.old; taken = others })
        (beside (shelved S.free S.held S.counted S.faults shelf.new) others (map (looked S.P.seen) finds.items))
        (map (looked S.P.seen) finds.items)) }
    ensures back { IfErr result (λ stop. (others : List Holder) → AreHeld (S.held shelf.old) others →
        AreRead (record { shelf = shelved S.free S.held S.counted S.faults shelf.old; taken = others }) (record { shelf = shelved S.free S.held S.counted S.faults shelf.new; taken = others })
        × SearchStops stop names.now (record { shelf = shelved S.free S.held S.counted S.faults shelf.old; taken = others }) (record { shelf = shelved S.free S.held S.counted S.faults shelf.new; taken = others })) }
{
    let Ok(finds) = Vec::with_capacity(alloc, 32) else {
        return Err(Stop::OutOfMemory);
    };
    let mut finds = finds;
    match gather(shelf, names, dg, &mut finds) {
        Passed::Done => Ok(finds),
        Passed::Cut => {
            give_finds(finds, shelf);
            lost(alloc)
        }
        Passed::OutOfMemory => {
            give_finds(finds, shelf);
            Err(Stop::OutOfMemory)
        }
    }
}
