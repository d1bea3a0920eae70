//! What commands change of a volume beside its states: whether it has a mirror, whether it has logs, and how large its regions are.
use crate::finding::Finding;
use crate::record::{figure, read};
use std::alloc::Global;

/// Whether something is so.
#[derive(Clone, Copy, PartialEq, Eq)]
pub(crate) enum Is {
    So,
    Not,
    Unsure,
}

impl Is {
    pub(crate) fn of(so: bool) -> Is {
        if so { Is::So } else { Is::Not }
    }

    /// Whether it may be so, or may not be so.
    pub(crate) fn may_be(self, so: bool) -> bool {
        if so { self != Is::Not } else { self != Is::So }
    }
}

/// How a volume is recorded, but for its states.
#[derive(Clone, Copy)]
pub struct Form {
    /// Whether it has several data plexes: one has come as a mirror, where it began with one.
    pub mirrored: bool,
    /// Whether it has log plexes.
    pub logged: bool,
    /// The blocks of a region.
    pub region: u64,
}

impl Form {
    /// The form of the volume that has these records.
    pub fn read(alloc: Global, records: &str) -> Result<Form, Finding> {
        let attributes = read(alloc, records.as_bytes())?;
        let mut plexes = 0u64;
        let mut logged = false;
        for one in &attributes {
            if one.says("plex", "kind", "data") {
                plexes = plexes.saturating_add(1);
            }
            logged = logged || one.says("plex", "kind", "log");
        }
        Ok(Form {
            mirrored: 1 < plexes,
            logged,
            region: figure(attributes.as_slice(), "vol", "v", "region")?,
        })
    }
}
