//! The masks of a volume.

ghost use Rattle.std.specs.Prelude.{◌≡◌, ◌<◌, IfOk, IfSome};
ghost use Rattle.std.specs.List.{All, filter_map};
ghost use Rattle.vx_image.specs.Bytes.{relation_maps};
ghost use Rattle.vx_lending.specs.Form.{IsMaskOf, IsShapeOf};
ghost use Rattle.vx_image.specs.UsedPlexes.{IsVolOf, maps_of, off_plexes, on_plexes, relation_map};

use crate::plexes::{maps_of, off_plexes, on_plexes};
use std::alloc::{AllocError, Global};
use vx_base::OutOfMemory;
use vx_block::Geometry;
use vx_config_parts::same;
use vx_names::Name;
use vx_objects::{Config, Snap, Vol};
use vx_volume::VolumeShape;

/// The blocks and regions of a volume, and the masks of its plexes and relations.
pub(crate) fn shape_of(
    alloc: Global,
    config: &Config,
    good: u32,
    vol: &Vol,
) -> Result<VolumeShape, OutOfMemory>
    requires { IsVolOf config.now vol.now }
    ensures { IfOk result (λ shape. IsShapeOf config.now good vol.now shape) }
{
    let on = on_plexes(alloc, config, good, &vol.name)?;
    let off = off_plexes(alloc, config, good, &vol.name)?;
    let on = maps_of(alloc, &on)?;
    let off = maps_of(alloc, &off)?;
    let snaps = relation_maps(alloc, config, &vol.name)?;
    Ok(VolumeShape {
        geometry: geometry_of(config, vol),
        on: mask_of(&on),
        off: mask_of(&off),
        snaps: mask_of(&snaps),
    })
}

/// How a volume of the configuration is cut into regions.
fn geometry_of(config: &Config, vol: &Vol) -> Geometry
    requires { IsVolOf config.now vol.now }
    ensures length { result.length ≡ vol.now.len }
    ensures region { result.region ≡ vol.now.region }
{
    Geometry {
        length: vol.len,
        region: vol.region,
    }
}

/// The maps of a volume's relations in its own log.
fn relation_maps(alloc: Global, config: &Config, vol: &Name) -> Result<Vec<u8>, OutOfMemory>
    ensures { IfOk result (λ v. v.items ≡ relation_maps config.now.snaps vol.now) }
{
    let maps = maps_among(alloc, config.snaps.as_slice(), vol)?;
    Ok(maps)
}

fn maps_among(alloc: Global, snaps: &[Snap], vol: &Name) -> Result<Vec<u8>, AllocError>
    ensures { IfOk result (λ v. v.items ≡ filter_map (relation_map vol.now) snaps.now) }
{
    snaps
        .iter()
        .filter_map(|snap| relation_map(snap, vol))
        .collect(alloc)
}

/// The map of a relation in the log of the volume, if it is in it.
fn relation_map(snap: &Snap, vol: &Name) -> Option<u8>
    ensures { result ≡ relation_map vol.now snap.now }
{
    if same(&snap.vol, vol) {
        Some(snap.map)
    } else if same(&snap.of, vol) {
        Some(snap.ofmap)
    } else {
        None
    }
}

/// The mask of these maps.
fn mask_of(maps: &[u8]) -> u64
    requires { All (λ m. m < 64) maps.now }
    ensures { IsMaskOf maps.now result }
{
    let mut mask = 0;
    for map in maps {
        mask = vx_mask::with(mask, vx_mask::of(u32::from(*map)));
    }
    mask
}
