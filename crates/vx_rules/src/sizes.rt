ghost use Rattle.std.specs.Prelude.{◌≡◌};
ghost use Rattle.vx_rules.specs.Sizes.{log_length, holds, layout_fits_kind};

use vx_block::Geometry;
use vx_config_parts::{PlexKind, PlexLayout, Vol};
use vx_mapfmt::DcoShape;

/// A plex of that kind and so many sectors is long enough for the volume.
pub fn holds(kind: PlexKind, size: u128, vol: &Vol) -> bool
    ensures { result ≡ holds kind size vol.now }
{
    match kind {
        PlexKind::Data => vol.len as u128 <= size,
        PlexKind::Log => match Geometry::new(vol.len, vol.region) {
            Some(geometry) => log_length(&geometry) as u128 <= size,
            None => false,
        },
    }
}

/// The sectors of a log plex, which holds 32 change maps.
fn log_length(geometry: &Geometry) -> u64
    ensures { result ≡ log_length geometry.now.length geometry.now.region }
{
    DcoShape::of(geometry, 32).unwrap().plex_bytes / 512
}

/// A log plex has one column.
pub fn layout_fits_kind(kind: PlexKind, layout: PlexLayout) -> bool
    ensures { result ≡ layout_fits_kind kind layout }
{
    match (kind, layout) {
        (PlexKind::Log, PlexLayout::Stripe) => false,
        _ => true,
    }
}
