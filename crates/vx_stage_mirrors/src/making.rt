//! An empty log is written for a volume before its plexes are recorded.
ghost use Rattle.std.specs.Prelude.{◌≡◌, is_some, IsSomeAnd};
ghost use Rattle.vx_house.specs.View.{IsGroupKept};
ghost use Rattle.vx_stage_volumes.specs.Parting.{IsReadyToOpen};
ghost use Rattle.vx_stages.specs.Tests.{volume_in};
ghost use Rattle.vx_stage_mirrors.specs.Making.{MakeEnds};
ghost use Rattle.vx_stage_mirrors.specs.Next.{HasLogsNext};

use std::alloc::Global;
use vx_group_start::make_log;
use vx_house::{Imported, Stop};
use vx_layout::Layout;
use vx_lending::form_of;
use vx_names::Name;
use vx_objects::Config;
use vx_piece::Piece;
use vx_stage_changes::volume_in;
use vx_stage_volumes::{have_disks, numbers_of, unopened};

/// Writes an empty log on the log plexes that the volume of the name has in the next configuration, on good disks, and leaves it among what
/// is left over. Answers where they lie.
pub(crate) fn make<P: Piece + Drop>(
    alloc: Global,
    group: &mut Imported<P>,
    next: &Config,
    name: &Name,
) -> Result<Vec<Layout>, Stop>
    requires kept { IsGroupKept P.seen group.old }
    requires alike { (p q : P) → is_some (P.seen p).told ≡ is_some (P.seen q).told }
    requires ready { IsReadyToOpen P.seen group.old }
    requires next { HasLogsNext P.seen name.now next.now group.old }
    ensures ends { IsSomeAnd (volume_in name.now next.now.volumes) (λ vol. MakeEnds P.seen next.now vol result group.old group.new) }
{
    let good = group.base.good();
    if !have_disks(group.base.disks(), good, next.disks.as_slice()) {
        return Err(Stop::OutOfMemory);
    }
    let Ok(numbers) = numbers_of(alloc, group.base.disks()) else {
        return Err(Stop::OutOfMemory);
    };
    let Some(vol) = volume_in(next.volumes.as_slice(), name) else {
        return Err(Stop::OutOfMemory);
    };
    let Ok(form) = form_of(alloc, next, good, &vol, false) else {
        return Err(Stop::OutOfMemory);
    };
    match make_log(alloc, &numbers, &mut group.public, &form) {
        Ok(()) => Ok(form.logs),
        Err(fault) => Err(unopened(alloc, group.base.disks(), vol.name, fault)),
    }
}
