ghost use Rattle.std.specs.Prelude.{◌++◌, List, map};
ghost use Rattle.vx_shelf.specs.Shelf.{IsWhole, IsOut};
ghost use Rattle.vx_import.specs.Looks.{looked};
ghost use Rattle.vx_house.specs.Holders.{Holder, AreHeld};
ghost use Rattle.vx_house.specs.Scene.{shelved};
ghost use Rattle.vx_stage_import.specs.Finds.{holders_of, beside};
ghost use Rattle.vx_house.specs.Reading.{IsReturned};
ghost use Rattle.vx_stage_import.specs.Giving.{IsBack};

use vx_import::GroupDevice;
use vx_shelf::Shelf;

/// Gives all devices back, each under its name. What else is held stays so.
pub(crate) fn give_finds<S: Shelf>(finds: Vec<GroupDevice<S::P>>, shelf: &mut S)
    requires held { (others : List Holder) × AreHeld (S.held shelf.old) (others ++ holders_of (map (looked S.P.seen) finds.items)) }
    ensures goes { (others : List Holder) → AreHeld (S.held shelf.old) (others ++ holders_of (map (looked S.P.seen) finds.items)) →
        IsBack (beside (shelved S.free S.held S.counted S.faults shelf.old) others (map (looked S.P.seen) finds.items))
        (record { shelf = shelved S.free S.held S.counted S.faults shelf.new; taken = others }) }
{
    let mut finds = finds;
    while let Some(one) = finds.pop() {
        give_found(one, shelf);
    }
}

/// Gives one of them back.
pub(crate) fn give_found<S: Shelf>(found: GroupDevice<S::P>, shelf: &mut S)
    requires whole { IsWhole (S.P.seen found.piece) }
    requires out { IsOut (S.held shelf.old found.device) (S.P.seen found.piece) }
    ensures { IsReturned found.device (S.P.seen found.piece) (shelved S.free S.held S.counted S.faults shelf.old) (shelved S.free S.held S.counted S.faults shelf.new) }
{
    let GroupDevice {
        device,
        header: _,
        readable: _,
        reading: _,
        piece,
    } = found;
    shelf.give(&device, piece);
}
