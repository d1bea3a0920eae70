ghost use Rattle.std.specs.Prelude.{◌≡◌, IfOk, IsTrue};
ghost use Rattle.vx_image.specs.Lies.{columns_of, IsPlexOf, HoldsItsVolume, are_on_disks};

use crate::columns::columns_of;
use std::alloc::Global;
use vx_base::OutOfMemory;
use vx_layout::Layout;
use vx_objects::{Config, Plex};

/// How the blocks of a plex of the configuration lie on the disks of its group, by their slots: the sectors of a strip are
/// those of a disk's public region. For each column it sorts the column's subdisks by their first sectors.
pub fn layout_of(alloc: Global, config: &Config, plex: &Plex) -> Result<Layout, OutOfMemory>
    requires { IsPlexOf config.now plex.now }
    ensures unit { IfOk result (λ layout. layout.unit ≡ plex.now.unit) }
    ensures columns { IfOk result (λ layout. layout.columns ≡ columns_of config.now plex.now) }
    ensures holds { IfOk result (λ layout. HoldsItsVolume config.now plex.now layout.columns) }
    ensures inside { IfOk result (λ layout. IsTrue (are_on_disks config.now.disks layout.columns)) }
{
    let columns = columns_of(alloc, config, plex)?;
    Ok(Layout {
        unit: plex.unit,
        columns,
    })
}
