ghost use Rattle.std.specs.Prelude.{◌≡◌, map, IfOk};
ghost use Rattle.vx_stages.specs.Finding.{needs_sync, needs_sync_state};
ghost use Rattle.vx_stage_import.specs.Judging.{labels_of, is_started, BadIs, RefusedBy, SizeJudged, CommitJudged, PrintJudged, ConfigJudged, RecordsJudged, TextJudged};

use crate::checking::{first_started, first_stray};
use std::alloc::Global;
use std::collections::BTreeMap;
use vx_answers::Refusal;
use vx_base::OutOfMemory;
use vx_config_parts::same;
use vx_header::MOST_TEXT;
use vx_import::GroupDevice;
use vx_names::Name;
use vx_objects::{Config, Object, ObjectFault, Vol, VolState};
use vx_piece::Piece;
use vx_print::print_m;
use vx_record::{Record, RecordFault, read};
use vx_stages::refusal_by;
use vx_started::Started;

/// What becomes of a configuration's text.
#[derive(Drop)]
pub(crate) enum Judged {
    Refused(Refusal),
    /// The configuration to be committed, and its text.
    Ready(Config, Vec<u8>),
}

/// Reads the text of a configuration, and tells whether it can be that of the devices.
pub(crate) fn judge<P: Piece>(
    alloc: Global,
    dg: &Name,
    text: &[u8],
    good: u32,
    found: &[GroupDevice<P>],
    volumes: &BTreeMap<Name, Started<P>>,
) -> Result<Judged, OutOfMemory>
    ensures { IfOk result (TextJudged dg.now text.now good (labels_of found.now) (is_started volumes.now)) }
{
    match read(alloc, text) {
        Ok(records) => judge_records(alloc, dg, records.as_slice(), good, found, volumes),
        Err(fault) => bad_record(&fault),
    }
}

fn bad_record(fault: &RecordFault) -> Result<Judged, OutOfMemory>
    ensures { IfOk result (BadIs fault.now) }
{
    match fault {
        RecordFault::BadRecord(line) => Ok(Judged::Refused(Refusal::BadRecord(*line))),
        RecordFault::OutOfMemory => Err(OutOfMemory),
    }
}

fn judge_records<P: Piece>(
    alloc: Global,
    dg: &Name,
    records: &[Record],
    good: u32,
    found: &[GroupDevice<P>],
    volumes: &BTreeMap<Name, Started<P>>,
) -> Result<Judged, OutOfMemory>
    ensures { IfOk result (RecordsJudged dg.now records.now good (labels_of found.now) (is_started volumes.now)) }
{
    match Config::read(alloc, records) {
        Ok(config) => judge_config(alloc, dg, &config, good, found, volumes),
        Err(fault) => refused_by(&fault),
    }
}

fn refused_by(fault: &ObjectFault) -> Result<Judged, OutOfMemory>
    ensures { IfOk result (RefusedBy fault.now) }
{
    match refusal_by(fault) {
        Some(refusal) => Ok(Judged::Refused(refusal)),
        None => Err(OutOfMemory),
    }
}

fn judge_config<P: Piece>(
    alloc: Global,
    dg: &Name,
    config: &Config,
    good: u32,
    found: &[GroupDevice<P>],
    volumes: &BTreeMap<Name, Started<P>>,
) -> Result<Judged, OutOfMemory>
    ensures { IfOk result (ConfigJudged dg.now config.now good (labels_of found.now) (is_started volumes.now)) }
{
    if !same(&config.group, dg) {
        return Ok(Judged::Refused(Refusal::NoObject(*dg)));
    }
    match first_stray(found, good, config.disks.as_slice()) {
        Some(disk) => return Ok(Judged::Refused(Refusal::NoObject(disk))),
        None => {}
    }
    match first_started(config.volumes.as_slice(), volumes) {
        Some(vol) => Ok(Judged::Refused(Refusal::Exists(vol))),
        None => judge_commit(alloc, config),
    }
}

/// The configuration as it is committed, where it keeps the rules and its text is short enough.
fn judge_commit(alloc: Global, config: &Config) -> Result<Judged, OutOfMemory>
    ensures { IfOk result (CommitJudged config.now) }
{
    let all = config.objects(alloc)?;
    let synced = all_synced(alloc, &all)?;
    match Config::from_objects(alloc, &synced) {
        Ok(after) => print_config(alloc, after),
        Err(fault) => refused_by(&fault),
    }
}

fn print_config(alloc: Global, after: Config) -> Result<Judged, OutOfMemory>
    ensures { IfOk result (PrintJudged after) }
{
    let mut text = Vec::new(alloc);
    match print_m(alloc, &after, None, &mut text) {
        Ok(()) => Ok(sized(after, text)),
        Err(_) => Err(OutOfMemory),
    }
}

fn sized(after: Config, text: Vec<u8>) -> Judged
    ensures { SizeJudged after text.items result }
{
    if text.len() > MOST_TEXT as usize {
        Judged::Refused(Refusal::TooLong(text.len() as u64))
    } else {
        Judged::Ready(after, text)
    }
}

fn all_synced(alloc: Global, all: &[Object]) -> Result<Vec<Object>, OutOfMemory>
    ensures { IfOk result (λ v. v.items ≡ map needs_sync all.now) }
{
    let mut out = Vec::new(alloc);
    for object in all {
        out.push(synced(object))?;
    }
    Ok(out)
}

fn synced(object: &Object) -> Object
    ensures { result ≡ needs_sync object.now }
{
    match object {
        Object::GroupRecord(group) => Object::GroupRecord(*group),
        Object::DiskRecord(disk) => Object::DiskRecord(*disk),
        Object::SubdiskRecord(subdisk) => Object::SubdiskRecord(*subdisk),
        Object::PlexRecord(plex) => Object::PlexRecord(*plex),
        Object::VolRecord(vol) => Object::VolRecord(Vol {
            state: synced_state(vol.state),
            ..*vol
        }),
        Object::DcoRecord(dco) => Object::DcoRecord(*dco),
        Object::SnapRecord(snap) => Object::SnapRecord(*snap),
    }
}

fn synced_state(state: VolState) -> VolState
    ensures { result ≡ needs_sync_state state }
{
    match state {
        VolState::Active => VolState::NeedSync,
        VolState::Sync => VolState::NeedSync,
        VolState::Empty => VolState::Empty,
        VolState::Clean => VolState::Clean,
        VolState::NeedSync => VolState::NeedSync,
    }
}
