ghost use Rattle.std.specs.Prelude.{◌≡◌, List};
ghost use Rattle.vx_config_parts.specs.declared.object.Object.{Object};
ghost use Rattle.vx_rules.specs.Columns.{column_length, layout_is_good};

use vx_config_parts::{Plex, PlexLayout};

/// The plex has the columns and the unit that its layout wants, where its first column has so many sectors.
pub(crate) fn layout_fits(plex: &Plex, length: u128) -> bool
    ensures { (all : List Object) → length ≡ column_length all plex.now.name 0 → result ≡ layout_is_good all plex.now plex.now.layout }
{
    match plex.layout {
        PlexLayout::Concat => plex.ncol == 1 && plex.unit == 128,
        PlexLayout::Stripe => {
            plex.ncol >= 2 && plex.ncol <= 16 && plex.unit > 0 && length % (plex.unit as u128) == 0
        }
    }
}
