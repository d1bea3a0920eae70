ghost use Rattle.std.specs.Prelude.{◌≡◌, codes};
ghost use Rattle.vx_config_parts.specs.Words.{plex_kind_word, layout_word};

use crate::PlexState;
use vx_names::Name;

/// What a plex holds.
#[derive(Clone, Copy, Debug, PartialEq, Eq)]
pub enum PlexKind {
    /// A copy of its volume.
    Data,
    /// A copy of its volume's change maps.
    Log,
}

/// How the sectors of a plex lie in its columns.
#[derive(Clone, Copy, Debug, PartialEq, Eq)]
pub enum PlexLayout {
    /// One column, from its first sector to its last.
    Concat,
    /// Units that go round the columns.
    Stripe,
}

/// A copy of a volume or of its change maps, made of subdisks.
#[derive(Clone, Copy)]
pub struct Plex {
    pub name: Name,
    pub vol: Option<Name>,
    pub kind: PlexKind,
    pub layout: PlexLayout,
    pub ncol: u32,
    /// The sectors of a stripe unit.
    pub unit: u64,
    pub state: PlexState,
    /// Its change map in the volume's DCO.
    pub map: Option<u8>,
}

impl PlexKind {
    /// The word of a record.
    pub fn word(self) -> &'static [u8]
        ensures { result.now ≡ plex_kind_word self }
    {
        match self {
            PlexKind::Data => b"data",
            PlexKind::Log => b"log",
        }
    }
}

impl PlexLayout {
    /// The word of a record.
    pub fn word(self) -> &'static [u8]
        ensures { result.now ≡ layout_word self }
    {
        match self {
            PlexLayout::Concat => b"concat",
            PlexLayout::Stripe => b"stripe",
        }
    }
}
