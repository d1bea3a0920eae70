//! What is left once a command is over.
ghost use Rattle.vx_moments.specs.Leaving.{group_gone};
ghost use Rattle.std.specs.Prelude.{IfSome, OnOk, OnErr};
ghost use Rattle.vx_house.specs.Leaves.{IsLeft, IsStuck};
ghost use Rattle.vx_house.specs.Holders.{AreHeld, holders};
ghost use Rattle.vx_house.specs.Scene.{shelved};
ghost use Rattle.vx_house.specs.View.{IsGroupWhole, at};

use crate::House;
use crate::giving::{give_group, give_hand, give_volumes};
use crate::standing::each_house_stands;
use std::alloc::Global;
use vx_answers::End;
use vx_base::OutOfMemory;
use vx_shelf::Shelf;

/// Gives the devices in hand back; where the group was lost it leaves, and where the power was lost all does. Where there is no
/// memory to join the devices of a group that is to leave, it stays.
pub fn leave<S: Shelf>(
    alloc: Global,
    house: &mut House<S::P>,
    shelf: &mut S,
    end: &End,
) -> Result<(), OutOfMemory>
    requires held { AreHeld (S.held shelf.old) (holders S.P.seen house.old) }
    requires whole { IfSome house.old.group (IsGroupWhole S.P.seen) }
    ensures stuck { OnErr result (IsStuck S.P.seen (at (shelved S.free S.held S.counted S.faults shelf.old) house.old) (at (shelved S.free S.held S.counted S.faults shelf.new) house.new)) }
    ensures left { OnOk result (IsLeft S.P.seen end.now (at (shelved S.free S.held S.counted S.faults shelf.old) house.old) (at (shelved S.free S.held S.counted S.faults shelf.new) house.new)) }
{
    each_house_stands(house);
    give_hand(house, shelf);
    match end {
        End::GroupLost => give_group(alloc, house, shelf),
        End::Lost { .. } => {
            give_group(alloc, house, shelf)?;
            give_volumes(house, shelf);
            Ok(())
        }
        _ => Ok(()),
    }
}
