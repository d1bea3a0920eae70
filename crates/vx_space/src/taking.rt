ghost use Rattle.std.specs.Prelude.{◌≡◌, IfOk};
ghost use Rattle.vx_space.specs.Extents.{total, taken, left};
ghost use Rattle.vx_space.specs.Small.{AreSmall};

use crate::extent::{Extent, put_between};
use std::alloc::Global;
use vx_base::OutOfMemory;
use vx_config_parts::same;
use vx_names::Name;

/// The sectors of a disk in the extents.
pub(crate) fn total_of(extents: &[Extent], disk: &Name) -> u64
    requires { AreSmall extents.now }
    ensures { result ≡ total disk.now extents.now }
{
    let mut total = 0;
    for extent in extents {
        if same(&extent.disk, disk) {
            total += extent.count;
        }
    }
    total
}

/// The first so many sectors of a disk.
pub(crate) fn taken_of(
    alloc: Global,
    extents: &[Extent],
    disk: &Name,
    count: u64,
) -> Result<Vec<Extent>, OutOfMemory>
    requires { AreSmall extents.now }
    ensures { IfOk result (λ found. found.items ≡ taken disk.now count extents.now) }
{
    let mut found = Vec::new(alloc);
    let mut lacking = count;
    for extent in extents {
        if same(&extent.disk, disk) {
            let part = lacking.min(extent.count);
            put_between(&mut found, disk, extent.start, extent.start + part)?;
            lacking -= part;
        }
    }
    Ok(found)
}

/// The extents without the first so many sectors of a disk.
pub(crate) fn left_of(
    alloc: Global,
    extents: &[Extent],
    disk: &Name,
    count: u64,
) -> Result<Vec<Extent>, OutOfMemory>
    requires { AreSmall extents.now }
    ensures { IfOk result (λ found. found.items ≡ left disk.now count extents.now) }
{
    let mut found = Vec::new(alloc);
    let mut lacking = count;
    for extent in extents {
        if same(&extent.disk, disk) {
            let part = lacking.min(extent.count);
            let end = extent.start + extent.count;
            put_between(&mut found, disk, extent.start + part, end)?;
            lacking -= part;
        } else {
            found.push(*extent)?;
        }
    }
    Ok(found)
}
