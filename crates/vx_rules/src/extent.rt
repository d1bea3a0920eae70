ghost use Rattle.std.specs.Prelude.{◌≡◌, IfOk};
ghost use Rattle.vx_rules.specs.Extents.{extents};

use std::alloc::Global;
use vx_base::OutOfMemory;
use vx_config_parts::{Object, Subdisk};
use vx_names::Name;

/// Where a subdisk lies on a disk.
#[derive(Clone, Copy)]
pub(crate) struct Extent {
    pub(crate) name: Name,
    pub(crate) disk: Name,
    pub(crate) off: u64,
    pub(crate) len: u64,
}

/// Where the subdisks among the records lie.
pub(crate) fn extents_of(alloc: Global, all: &[Object]) -> Result<Vec<Extent>, OutOfMemory>
    ensures { IfOk result (λ found. found.items ≡ extents all.now) }
{
    let mut found = Vec::new(alloc);
    for object in all {
        if let Object::SubdiskRecord(subdisk) = object {
            found.push(Extent {
                name: subdisk.name,
                disk: subdisk.disk,
                off: subdisk.off,
                len: subdisk.len,
            })?;
        }
    }
    Ok(found)
}
