//! The headers of all devices that nobody has.
ghost use Rattle.std.specs.Prelude.{◌<◌};
ghost use Rattle.vx_shelf.specs.Listed.{IsRising};
ghost use Rattle.vx_stages.specs.declared.stage.Stage.TheVariants as stages;
ghost use Rattle.vx_house.specs.Goes.{IsReady, StageGoes};
ghost use Rattle.vx_house.specs.Scene.{shelved};
ghost use Rattle.vx_house.specs.View.{Keeps, at};
ghost use Rattle.vx_stage_devices.specs.Seeks.{HeaderClaims, Claims, SeeksUnder, SeeksThrough};

use std::alloc::Global;
use vx_answers::{End, Refusal};
use vx_header::Header;
use vx_house::{House, Stop, fault, lost, refused};
use vx_import::read_header;
use vx_names::Name;
use vx_piece::{Piece, PieceFault};
use vx_script_words::DiskAt;
use vx_shelf::{Shelf, ShelfFault};

/// Reads the header of each device that nobody has, in the order of names, up to the first that names the group or cannot
/// be read. Each is given back at once, and the house is as before.
pub fn search<S: Shelf>(
    alloc: Global,
    _house: &House<S::P>,
    shelf: &mut S,
    dg: &Name,
    _disks: &[DiskAt],
) -> Result<(), Stop>
    requires keeps { Keeps S.P.seen (at (shelved S.free S.held S.counted S.faults shelf.old) _house.now) }
    requires ready { IsReady S.P.seen (stages.Search dg.now) _disks.now _house.now }
    ensures goes { StageGoes S.P.seen (stages.Search dg.now) _disks.now result
        (at (shelved S.free S.held S.counted S.faults shelf.old) _house.now) (at (shelved S.free S.held S.counted S.faults shelf.new) _house.now) }
{
    match shelf.names(alloc) {
        Ok(names) => look_through(alloc, shelf, names.as_slice(), dg),
        Err(ShelfFault::OutOfMemory) => Err(Stop::OutOfMemory),
        Err(ShelfFault::Failed) => Err(Stop::Ended(End::ShelfFailed)),
        Err(ShelfFault::NoDisk | ShelfFault::Held | ShelfFault::Exists) => unreachable!(),
    }
}

/// Looks at those of the devices that nobody has, one after the other.
fn look_through<S: Shelf>(
    alloc: Global,
    shelf: &mut S,
    names: &[Name],
    dg: &Name,
) -> Result<(), Stop>
    requires { IsRising names.now }
    ensures { SeeksThrough dg.now names.now (shelved S.free S.held S.counted S.faults shelf.old) result (shelved S.free S.held S.counted S.faults shelf.new) }
{
    for name in names {
        look_under(alloc, shelf, name, dg)?;
    }
    Ok(())
}

/// Looks at the device of the name, where nobody has it.
fn look_under<S: Shelf>(alloc: Global, shelf: &mut S, name: &Name, dg: &Name) -> Result<(), Stop>
    ensures { SeeksUnder dg.now name.now (shelved S.free S.held S.counted S.faults shelf.old) result (shelved S.free S.held S.counted S.faults shelf.new) }
{
    match shelf.take(name) {
        Ok(piece) => {
            let mut piece = piece;
            let looked = look_in(alloc, &mut piece, name, dg);
            shelf.give(name, piece);
            looked
        }
        Err(ShelfFault::OutOfMemory) => Err(Stop::OutOfMemory),
        Err(ShelfFault::Failed) => fault(alloc, *name),
        Err(ShelfFault::NoDisk) => Ok(()),
        Err(ShelfFault::Held) => Ok(()),
        Err(ShelfFault::Exists) => unreachable!(),
    }
}

/// Reads the header of the device; where it names the group the command is refused.
fn look_in<P: Piece>(alloc: Global, piece: &mut P, name: &Name, dg: &Name) -> Result<(), Stop>
    requires { 0 < (P.seen piece.old).sectors }
    ensures { Claims dg.now name.now (P.seen piece.old) result (P.seen piece.new) }
{
    match read_header(piece) {
        Ok(header) => look_by(&header, dg),
        Err(PieceFault::Failed) => fault(alloc, *name),
        Err(PieceFault::PowerLost) => lost(alloc),
    }
}

fn look_by(header: &Option<Header>, dg: &Name) -> Result<(), Stop>
    ensures { HeaderClaims dg.now header.now result }
{
    match header {
        Some(header) if header.group == *dg => refused(Refusal::Exists(*dg)),
        _ => Ok(()),
    }
}
