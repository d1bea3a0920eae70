//! The records that a source adds to a group.
ghost use Rattle.std.specs.Prelude.{◌≡◌, ◌^◌, ◌<◌, IfOk, IfErr};
ghost use Rattle.std.specs.List.{count_by};
ghost use Rattle.vx_added_records.specs.Started.{is_either};
ghost use Rattle.vx_house.specs.View.{IsGroupKept};
ghost use Rattle.vx_stages.specs.Sources.{AddsFrom, Denies, growth, is_raised};
ghost use Rattle.vx_stage_changes.specs.Judging.{StopsAs, group_now};

use crate::adding::added_by;
use crate::laying::laid;
use std::alloc::Global;
use std::collections::BTreeMap;
use vx_house::{Imported, Stop};
use vx_names::Name;
use vx_objects::Object;
use vx_piece::Piece;
use vx_stages::Source;

/// The records that the source adds to the group.
pub(crate) fn added_from<P: Piece, T>(
    alloc: Global,
    volumes: &BTreeMap<Name, T>,
    group: &Imported<P>,
    source: &Source,
) -> Result<Vec<Object>, Stop>
    requires kept { IsGroupKept P.seen group.now }
    ensures adds { IfOk result (λ added. AddsFrom source.now (is_either volumes.now group.now.public.running) (group_now P.seen group.now) added.items) }
    ensures denied { IfErr result (StopsAs (Denies source.now (is_either volumes.now group.now.public.running) (group_now P.seen group.now))) }
{
    match source {
        Source::Text(text) => added_by(alloc, text.as_slice()),
        Source::Volume(new) => laid(alloc, volumes, group, new),
    }
}

/// By how many bytes the text grows until the command is over.
pub(crate) fn growth(source: &Source, added: &[Object]) -> u64
    ensures bytes { result ≡ growth source.now added.now }
    ensures few { result < 2 ^ 63 }
{
    match source {
        Source::Text(_) => 0,
        Source::Volume(_) => raised(added),
    }
}

fn raised(added: &[Object]) -> u64
    ensures count { result ≡ count_by is_raised added.now }
    ensures few { result < 2 ^ 63 }
{
    added.iter().filter(|object| is_raised(object)).count() as u64
}

/// Whether the first start of a volume makes the word of the record's state longer.
fn is_raised(object: &Object) -> bool
    ensures { result ≡ is_raised object.now }
{
    matches!(object, Object::PlexRecord(_) | Object::VolRecord(_))
}
