ghost use Rattle.std.specs.Prelude.{◌≡◌};
ghost use Rattle.std.specs.Option.{option_copied};
ghost use Rattle.vx_hierarchy.specs.Rows.{is_asked, row_piece, row_plex, row_volume};

use crate::kernel::Kernel;
use vx_config_parts::same;
use vx_names::Name;
use vx_objects::{Plex, Subdisk, Vol};

/// What a line shows.
#[derive(Clone, Copy)]
pub(crate) enum Row {
    VolumeRow(Vol, Kernel),
    /// A plex, its volume, its kernel state, and its sectors.
    PlexRow(Plex, Name, Kernel, u128),
    /// A subdisk, its plex, and the plex's volume.
    SubdiskRow(Subdisk, Name, Name),
}

impl Row {
    /// The volume that the row is of.
    pub(crate) fn volume(&self) -> Name
        ensures { result ≡ row_volume self.now }
    {
        match self {
            Row::VolumeRow(vol, _) => vol.name,
            Row::PlexRow(_, vol, _, _) => *vol,
            Row::SubdiskRow(_, _, vol) => *vol,
        }
    }

    /// The plex that the row is of.
    pub(crate) fn plex(&self) -> Option<Name>
        ensures { result ≡ row_plex self.now }
    {
        match self {
            Row::VolumeRow(_, _) => None,
            Row::PlexRow(plex, _, _, _) => Some(plex.name),
            Row::SubdiskRow(_, plex, _) => Some(*plex),
        }
    }

    /// The column and the first sector in it that the row is of.
    pub(crate) fn piece(&self) -> Option<(u32, u64)>
        ensures { result ≡ row_piece self.now }
    {
        match self {
            Row::SubdiskRow(subdisk, _, _) => Some((subdisk.col, subdisk.at)),
            _ => None,
        }
    }

    /// The row is of the volume that is asked for, if one is.
    pub(crate) fn is_asked(&self, only: Option<&Name>) -> bool
        ensures { result ≡ is_asked (option_copied only.entry) self.now }
    {
        match only {
            None => true,
            Some(vol) => same(&self.volume(), vol),
        }
    }
}
