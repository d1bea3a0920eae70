//! The next configuration of a group is committed.
ghost use Rattle.std.specs.Prelude.{◌≡◌, ◌≤◌, None, length};
ghost use Rattle.vx_confdb.specs.Groups.{IsAlive};
ghost use Rattle.vx_stage_mirrors.specs.Relogging.{RecordEnds};

use std::alloc::Global;
use vx_house::{Imported, Stop};
use vx_piece::Piece;
use vx_stage_changes::{NextConfig, commit};

/// Writes the text of the configuration to the good disks of the group, which has that configuration then.
pub fn commit_next<P: Piece>(
    alloc: Global,
    group: &mut Imported<P>,
    next: NextConfig,
) -> Result<(), Stop>
    requires alive { IsAlive P.seen group.old.base }
    requires going { group.old.base.lost ≡ None }
    requires short { length next.text.items ≤ 522240 }
    ensures ends { RecordEnds P.seen next result group.old group.new }
{
    let NextConfig { config, text } = next;
    commit(alloc, &mut group.base, &text)?;
    group.config = config;
    Ok(())
}
