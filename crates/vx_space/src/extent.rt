ghost use Rattle.std.specs.Prelude.{◌≡◌, ◌++◌, ◌<◌, OnOk};
ghost use Rattle.vx_space.specs.Extents.{between};

use vx_base::OutOfMemory;
use vx_names::Name;

/// A run of sectors of a disk's public region.
#[derive(Clone, Copy)]
pub struct Extent {
    pub disk: Name,
    /// The first sector in the public region.
    pub start: u64,
    /// Its sectors.
    pub count: u64,
}

/// Appends the sectors of a disk from one on up to another, if there are any.
pub(crate) fn put_between(
    found: &mut Vec<Extent>,
    disk: &Name,
    from: u64,
    to: u64,
) -> Result<(), OutOfMemory>
    ensures { OnOk result (found.new.items ≡ found.old.items ++ between disk.now from to) }
{
    if from < to {
        found.push(Extent {
            disk: *disk,
            start: from,
            count: to - from,
        })?;
    }
    Ok(())
}
