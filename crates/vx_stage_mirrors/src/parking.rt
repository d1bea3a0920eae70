//! The pieces of the plex of a mirror are taken before anything is recorded.
ghost use Rattle.std.specs.BTreeMap.{get};
ghost use Rattle.std.specs.Cmp.Lexicographic.{slice_cmp};
ghost use Rattle.std.specs.Ordering.{nat_cmp};
ghost use Rattle.std.specs.Prelude.{◌≡◌, true, IfOk, IsSome, IsSomeAnd};
ghost use Rattle.vx_image.specs.Bytes.{is_held};
ghost use Rattle.vx_lending.specs.Public.{running_at};
ghost use Rattle.vx_house.specs.View.{IsGroupKept};
ghost use Rattle.vx_stage_volumes.specs.Opening.{good_of};
ghost use Rattle.vx_stage_volumes.specs.Parting.{IsReadyToOpen};
ghost use Rattle.vx_stage_mirrors.specs.Parking.{LiesOtherwise};
ghost use Rattle.vx_stage_mirrors.specs.ParkedPieces.{IsAddition, IsParkedFor};

use crate::PlannedMirror;
use std::alloc::Global;
use std::collections::BTreeMap;
use vx_base::OutOfMemory;
use vx_block::Geometry;
use vx_house::Imported;
use vx_image::layout_of;
use vx_layout::Layout;
use vx_lending::Running;
use vx_names::Name;
use vx_piece::Piece;
use vx_plex_pieces::park_plex;
use vx_stage_volumes::{have_disks, numbers_of};

/// A plex whose pieces were taken out of the pool: how its blocks lie, and room for its pieces, region by region.
#[derive(Drop)]
pub(crate) struct ParkedPlex<P> {
    pub layout: Layout,
    pub room: Vec<Vec<P>>,
}

/// Takes the pieces of the planned plex for the running volume of the name out of the pool, and leaves them among what is left over. Where a
/// record of a good disk is not that of a disk of the group, memory is said to be wanting.
pub(crate) fn park<P: Piece + Drop>(
    alloc: Global,
    group: &mut Imported<P>,
    name: &Name,
    planned: &PlannedMirror,
) -> Result<ParkedPlex<P>, OutOfMemory>
    requires kept { IsGroupKept P.seen group.old }
    requires ready { IsReadyToOpen P.seen group.old }
    requires there { IsSome (running_at group.old.public name.now) }
    requires addition { IsAddition group.old.config name.now planned.now }
    requires held { is_held planned.now.next.config (good_of P.seen group.old) planned.now.plex ≡ true }
    ensures parked { IfOk result (λ parked. IsParkedFor P.seen name.now planned.now parked group.old group.new) }
    ensures lies { LiesOtherwise P.seen group.old group.new }
{
    if !have_disks(
        group.base.disks(),
        group.base.good(),
        group.config.disks.as_slice(),
    ) {
        return Err(OutOfMemory);
    }
    let numbers = numbers_of(alloc, group.base.disks())?;
    let layout = layout_of(alloc, &planned.next.config, &planned.plex)?;
    let geometry = geometry_of(&group.public.running, name);
    let room = Vec::with_capacity(alloc, geometry.regions() as usize)?;
    park_plex(
        alloc,
        &mut group.public,
        &numbers,
        planned.map,
        &layout,
        &geometry,
    )?;
    Ok(ParkedPlex { layout, room })
}

/// The blocks and regions of the running volume of the name.
fn geometry_of<P: Piece>(running: &BTreeMap<Name, Running<P>>, name: &Name) -> Geometry
    requires there { IsSome (get (slice_cmp nat_cmp) running.now name.now) }
    ensures { IsSomeAnd (get (slice_cmp nat_cmp) running.now name.now) (λ r. result ≡ r.form.shape.geometry) }
{
    match running.get(name) {
        Some(one) => one.form.shape.geometry,
        None => unreachable!(),
    }
}
