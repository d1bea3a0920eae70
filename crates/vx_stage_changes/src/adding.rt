//! The records that a text adds.
ghost use Rattle.std.specs.Prelude.{◌≡◌, IfOk, IfErr};
ghost use Rattle.std.specs.List.{filter_map};
ghost use Rattle.vx_stages.specs.Making.{Adds, made, made_state};
ghost use Rattle.vx_stage_changes.specs.Judging.{AddedOf, IsBad, StopsAs};

use std::alloc::{AllocError, Global};
use vx_answers::Refusal;
use vx_base::OutOfMemory;
use vx_house::{Stop, refused};
use vx_objects::{Object, Plex, PlexKind, PlexState, Vol, VolState, objects_of};
use vx_record::{Record, RecordFault, read};

/// The records that the text adds to a group.
pub(crate) fn added_by(alloc: Global, text: &[u8]) -> Result<Vec<Object>, Stop>
    ensures adds { IfOk result (λ added. Adds text.now added.items) }
    ensures bad { IfErr result (StopsAs (IsBad text.now)) }
{
    match read(alloc, text) {
        Ok(records) => match added_of(alloc, records.as_slice()) {
            Ok(added) => Ok(added),
            Err(_) => Err(Stop::OutOfMemory),
        },
        Err(RecordFault::BadRecord(line)) => refused(Refusal::BadRecord(line)),
        Err(RecordFault::OutOfMemory) => Err(Stop::OutOfMemory),
    }
}

fn added_of(alloc: Global, records: &[Record]) -> Result<Vec<Object>, OutOfMemory>
    ensures { IfOk result (λ added. AddedOf records.now added.items) }
{
    let all = objects_of(alloc, records)?;
    Ok(made_of(alloc, &all)?)
}

/// What becomes of the records, those that are passed over left out.
fn made_of(alloc: Global, all: &[Object]) -> Result<Vec<Object>, AllocError>
    ensures { IfOk result (λ added. added.items ≡ filter_map made all.now) }
{
    all.iter().filter_map(|object| made(object)).collect(alloc)
}

fn made(object: &Object) -> Option<Object>
    ensures { result ≡ made object.now }
{
    match object {
        Object::GroupRecord(_) | Object::DiskRecord(_) | Object::SnapRecord(_) => None,
        Object::SubdiskRecord(_) | Object::DcoRecord(_) => Some(*object),
        Object::PlexRecord(plex) => Some(Object::PlexRecord(Plex {
            state: made_state(plex.kind, plex.state),
            ..*plex
        })),
        Object::VolRecord(vol) => Some(Object::VolRecord(Vol {
            state: VolState::Empty,
            ..*vol
        })),
    }
}

fn made_state(kind: PlexKind, state: PlexState) -> PlexState
    ensures { result ≡ made_state kind state }
{
    match (kind, state) {
        (PlexKind::Log, PlexState::DcoSnp) => PlexState::DcoSnp,
        _ => PlexState::Empty,
    }
}
