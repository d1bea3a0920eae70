ghost use Rattle.std.specs.Prelude.{◌≡◌, codes};
ghost use Rattle.vx_config_parts.specs.Words.{policy_word};

use crate::VolState;
use vx_names::Name;

/// How the plex of a read is picked.
#[derive(Clone, Copy, Debug, PartialEq, Eq)]
pub enum PolicyKind {
    Round,
    Prefer,
    Select,
}

/// A policy, with the plex that it prefers.
#[derive(Clone, Copy)]
pub enum PolicyName {
    Round,
    Prefer(Name),
    Select,
}

/// A volume.
#[derive(Clone, Copy)]
pub struct Vol {
    pub name: Name,
    /// Its sectors.
    pub len: u64,
    /// The sectors of a region.
    pub region: u64,
    pub rdpol: PolicyKind,
    /// The preferred plex.
    pub prefer: Option<Name>,
    pub state: VolState,
    /// Its DCO, where it is prepared.
    pub dco: Option<Name>,
}

impl PolicyKind {
    /// The word of a record.
    pub fn word(self) -> &'static [u8]
        ensures { result.now ≡ policy_word self }
    {
        match self {
            PolicyKind::Round => b"round",
            PolicyKind::Prefer => b"prefer",
            PolicyKind::Select => b"select",
        }
    }
}
