ghost use Rattle.std.specs.Prelude.{◌≡◌};
ghost use Rattle.vx_rules.specs.Whole.{has_volume_within, holds_volume, is_whole, whole_fault};

use crate::index::Index;
use crate::{holds, layout_fits_kind};
use vx_config_parts::{Object, ObjectFault, Plex, PlexKind};
use vx_names::Name;

/// The plex has columns without holes and of one length, which hold what it is for.
pub(crate) fn whole_fault(index: &Index, object: &Object) -> Option<ObjectFault>
    ensures { result ≡ whole_fault index.now.all.now object.now }
{
    match object {
        Object::PlexRecord(plex) if !is_whole(index, plex) => Some(ObjectFault::NotWhole(
            plex.name,
        )),
        _ => None,
    }
}

fn is_whole(index: &Index, plex: &Plex) -> bool
    ensures { result ≡ is_whole index.now.all.now plex.now }
{
    layout_fits_kind(plex.kind, plex.layout)
        && index.pieces.are_good(plex)
        && holds_volume(index, plex)
}

fn holds_volume(index: &Index, plex: &Plex) -> bool
    ensures { result ≡ holds_volume index.now.all.now plex.now plex.now.vol }
{
    match &plex.vol {
        None => true,
        Some(vol) => has_volume_within(index, vol, plex.kind, index.pieces.plex_length(plex)),
    }
}

#[tactic(auto, using(crate::proofs::Lookups::has_volume_within_is))]
fn has_volume_within(index: &Index, vol: &Name, kind: PlexKind, size: u128) -> bool
    ensures { result ≡ has_volume_within index.now.all.now vol.now kind size }
{
    match index.vol(vol) {
        Some(vol) => holds(kind, size, vol),
        None => false,
    }
}
