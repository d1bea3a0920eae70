//! A volume of the imported group is opened.
ghost use Rattle.std.specs.Prelude.{◌≡◌, [], true, is_some, IfOk, IfErr, OnOk};
ghost use Rattle.vx_piece.specs.Seen.{AreCounts, EndsThere};
ghost use Rattle.vx_house.specs.View.{IsGroupKept};
ghost use Rattle.vx_image.specs.UsedPlexes.{IsVolOf};
ghost use Rattle.vx_stage_volumes.specs.Disks.{have_disks};
ghost use Rattle.vx_stage_volumes.specs.Opening.{IsFreeIn, IsOpenGroup, IsUnopenedIn, OpensIn, good_of};
ghost use Rattle.vx_stage_volumes.specs.Parting.{IsReadyToOpen, PartsGroup};

use crate::disks::have_disks;
use crate::naming::unopened;
use crate::numbering::numbers_of;
use std::alloc::Global;
use vx_base::OutOfMemory;
use vx_fronts::open_group;
use vx_group_start::{gather, open_volume};
use vx_house::{Imported, Stop};
use vx_lending::Running;
use vx_objects::Vol;
use vx_piece::Piece;

/// Makes the group ready for a volume to be opened. While pieces of a volume could not be put back memory is wanting.
pub fn prepare<P: Piece + Drop>(alloc: Global, group: &mut Imported<P>) -> Result<(), OutOfMemory>
    requires kept { IsGroupKept P.seen group.old }
    requires alike { (p q : P) → is_some (P.seen p).told ≡ is_some (P.seen q).told }
    ensures parts { PartsGroup P.seen group.old group.new }
    ensures ready { OnOk result (IsReadyToOpen P.seen group.new) }
{
    if !group.public.stuck.is_empty() {
        return Err(OutOfMemory);
    }
    part(alloc, group)?;
    group.public.stuck.reserve(1)?;
    Ok(())
}

/// Parts the devices of the group behind the private regions of its disks, and puts what is left of volumes that were not started back
/// into the pool. After a refusal some are parted and others not.
fn part<P: Piece + Drop>(alloc: Global, group: &mut Imported<P>) -> Result<(), OutOfMemory>
    requires kept { IsGroupKept P.seen group.old }
    requires alike { (p q : P) → is_some (P.seen p).told ≡ is_some (P.seen q).told }
    ensures parts { PartsGroup P.seen group.old group.new }
    ensures opened { OnOk result (IsOpenGroup P.seen group.new) }
    ensures left { OnOk result (group.new.public.left.items ≡ []) }
{
    each_piece_ends::<P>();
    gather(alloc, &mut group.public)?;
    open_group(alloc, &mut group.base, &mut group.public.pool)
}

/// Nothing is told behind the last sector of a piece, and its counts are numbers of 64 bits: laws of pieces, said to callers.
pub fn each_piece_ends<P: Piece>()
    ensures ends { (p : P) → EndsThere (P.seen p) }
    ensures counts { (p : P) → AreCounts (P.seen p) }
{}

/// Opens the volume out of the pieces of the group. It does not run yet. Where a record of a good disk is not that of a disk of the group,
/// memory is said to be wanting.
pub fn open_in<P: Piece + Drop>(
    alloc: Global,
    group: &mut Imported<P>,
    vol: &Vol,
) -> Result<Running<P>, Stop>
    requires kept { IsGroupKept P.seen group.old }
    requires parted { IsOpenGroup P.seen group.old }
    requires of { IsVolOf group.old.config vol.now }
    requires free { have_disks group.old.base.disks.items (good_of P.seen group.old) group.old.config.disks ≡ true → IsFreeIn P.seen group.old vol.now }
    ensures opens { IfOk result (OpensIn P.seen vol.now group.old group.new) }
    ensures unopened { IfErr result (IsUnopenedIn P.seen vol.now group.old group.new) }
{
    let good = group.base.good();
    if !have_disks(group.base.disks(), good, group.config.disks.as_slice()) {
        return Err(Stop::OutOfMemory);
    }
    let Ok(numbers) = numbers_of(alloc, group.base.disks()) else {
        return Err(Stop::OutOfMemory);
    };
    match open_volume(alloc, &group.config, good, vol, &numbers, &mut group.public) {
        Ok(running) => Ok(running),
        Err(fault) => Err(unopened(alloc, group.base.disks(), vol.name, fault)),
    }
}
