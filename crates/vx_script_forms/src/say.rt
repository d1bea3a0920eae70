ghost use Rattle.std.specs.Prelude.{◌≡◌, IfOk};
ghost use Rattle.vx_script_forms.specs.FormOf.{concat_of, with_mirrors, concat_attrs, stripe_attrs, assist_make, form_of};

use crate::values::{byte, maybe_named, maybe_numbered, maybe_small, small};
use crate::{
    Act, Block, Boxed, Bytes, Call, Form, Kind, Lines, MakeAttrs, WordLayout, WordPolicy,
    maybe_boxed,
};
use std::alloc::Global;
use vx_base::OutOfMemory;
use vx_names::Name;
use vx_script_words::Value::{Blocks, BreakOff, Named, Number, Pair, Pairs};
use vx_script_words::{Names, Value};

/// The form that the values of a line say. There is none where they are not those of the kind. Those of calls stand
/// apart, since a script may have a million, and a function pays for all the forms that it may make.
pub fn form_of(alloc: Global, kind: Kind, values: &[Value]) -> Result<Option<Form>, OutOfMemory>
    ensures { IfOk result (λ found. found ≡ form_of kind values.now) }
{
    match kind {
        Kind::Read => read_form(values),
        Kind::Fill => fill_form(values),
        Kind::Data => data_form(alloc, values),
        _ => any_form(alloc, kind, values),
    }
}

/// What is said; where nothing is, there is no form.
macro_rules! said {
    ($value:expr) => {
        match $value {
            Some(value) => value,
            None => return Ok(None),
        }
    };
}

/// What is found where the values are these; for others there is no form.
macro_rules! found {
    ($values:expr; $pattern:pat => $found:expr) => {
        match $values {
            $pattern => $found,
            _ => Ok(None),
        }
    };
}

/// The form where the values are these.
macro_rules! form {
    ($values:expr; $pattern:pat => $form:expr) => {
        found!($values; $pattern => Ok(Some($form)))
    };
}

#[inline(never)]
fn any_form(alloc: Global, kind: Kind, values: &[Value]) -> Result<Option<Form>, OutOfMemory>
    ensures { IfOk result (λ found. found ≡ form_of kind values.now) }
{
    match kind {
        Kind::MkImage => form!(*values; [_, _, Named(device), Number(length), ..] =>
            Form::MkImage { device, length }),
        Kind::Bare => form!(*values; [_, _, Named(vol), Named(device), ..] =>
            Form::Bare { vol, device }),
        Kind::DgInit => form!(*values; [_, _, _, Named(dg), Pairs(ref disks), ..] =>
            Form::DgInit { dg, disks: disks.copy(alloc)? }),
        Kind::DgAddDisk => form!(*values; [_, _, _, Named(dg), _, Pair(disk), ..] =>
            Form::DgAddDisk { dg, disk: Boxed::new(alloc, disk)? }),
        Kind::DgImport => form!(*values; [_, _, _, Named(dg), ..] => Form::DgImport { dg }),
        Kind::DgDeport => form!(*values; [_, _, _, Named(dg), ..] => Form::DgDeport { dg }),
        Kind::DiskUnsetup => form!(*values; [_, _, Named(device), ..] =>
            Form::DiskUnsetup { device }),
        Kind::VxMake => Ok(Some(Form::VxMake {
            text: Bytes::from_vec(Vec::new(alloc)),
        })),
        Kind::PrintM => form!(values; [_, _, _, vol, ..] =>
            Form::PrintM { vol: said!(maybe_named(vol)) }),
        Kind::PrintHt => form!(values; [_, _, _, vol, ..] =>
            Form::PrintHt { vol: said!(maybe_named(vol)) }),
        Kind::MakeConcat =>
            found!(values; [_, _, _, Named(vol), Number(length), words, mirrors, size, logs, Value::Names(disks), ..] =>
            assist_make(alloc, *vol, *length, concat_attrs(words, mirrors, size, logs), disks)),
        Kind::MakeStripe =>
            found!(values; [_, _, _, Named(vol), Number(length), _, columns, unit, mirrors, size, logs, Value::Names(disks), ..] =>
            assist_make(alloc, *vol, *length, stripe_attrs(columns, unit, mirrors, size, logs), disks)),
        Kind::Mirror => form!(*values; [_, _, _, Named(vol), Value::Names(ref disks), ..] =>
            Form::Mirror { vol, disks: disks.copy(alloc)? }),
        Kind::RemoveVolume => form!(*values; [_, _, _, _, Named(vol), ..] =>
            Form::RemoveVolume { vol }),
        Kind::Start => form!(*values; [_, _, _, Named(vol), ..] => Form::Start { vol }),
        Kind::Stop => form!(*values; [_, _, _, Named(vol), ..] => Form::Stop { vol }),
        Kind::RdpolRound => form!(*values; [_, _, _, _, Named(vol), ..] =>
            Form::Rdpol { vol, policy: WordPolicy::Round }),
        Kind::RdpolSelect => form!(*values; [_, _, _, _, Named(vol), ..] =>
            Form::Rdpol { vol, policy: WordPolicy::Select }),
        Kind::RdpolPrefer => form!(*values; [_, _, _, _, Named(vol), Named(plex), ..] =>
            Form::Rdpol { vol, policy: WordPolicy::Prefer(plex) }),
        Kind::PlexDis => form!(*values; [_, _, _, Named(plex), ..] =>
            Form::PlexDis { plex, rm: false }),
        Kind::PlexDisRm => form!(*values; [_, _, _, _, _, Named(plex), ..] =>
            Form::PlexDis { plex, rm: true }),
        Kind::Prepare => form!(*values; [_, _, _, Named(vol), ref logs, ref size, ..] =>
            Form::Prepare { vol, ndcomirs: said!(maybe_numbered(logs)), region: said!(maybe_numbered(size)) }),
        Kind::Unprepare => form!(*values; [_, _, _, Named(vol), ..] => Form::Unprepare { vol }),
        Kind::AddMir => form!(*values; [_, _, _, Named(vol), Value::Names(ref disks), ..] =>
            Form::AddMir { vol, disks: disks.copy(alloc)? }),
        Kind::Dis => form!(*values; [_, _, _, Named(snap), ..] => Form::Dis { snap }),
        Kind::Split => form!(*values; [_, _, _, Named(snap), ..] => Form::Split { snap }),
        Kind::PrintSnaps => form!(values; [_, _, _, vol, ..] =>
            Form::PrintSnaps { vol: said!(maybe_named(vol)) }),
        Kind::Recover => form!(values; [_, _, _, vol, ..] =>
            Form::Recover { vol: said!(maybe_named(vol)) }),
        Kind::SnapMake => form!(*values; [_, _, _, BreakOff { vol, snap, plex }, ..] =>
            Form::Acting(Act::SnapMake {
                vol: Boxed::new(alloc, vol)?,
                snap: Boxed::new(alloc, snap)?,
                plex: maybe_boxed(alloc, plex)?,
            })),
        Kind::Reattach => form!(*values; [_, _, _, Named(snap), Named(vol), ..] =>
            Form::Acting(Act::Reattach { snap, vol: Boxed::new(alloc, vol)? })),
        Kind::Restore => form!(*values; [_, _, _, Named(vol), Named(snap), ..] =>
            Form::Acting(Act::Restore { vol, snap: Boxed::new(alloc, snap)? })),
        Kind::Snapback => form!(*values; [_, _, _, Named(snap), ..] =>
            Form::Acting(Act::Snapback { snap, from_replica: false })),
        Kind::SnapbackFromReplica => form!(*values; [_, _, _, _, _, Named(snap), ..] =>
            Form::Acting(Act::Snapback { snap, from_replica: true })),
        Kind::PlexDet => form!(*values; [_, _, _, Named(plex), ..] =>
            Form::Acting(Act::PlexDet { plex })),
        Kind::PlexAtt => form!(*values; [_, _, _, Named(vol), Named(plex), ..] =>
            Form::Acting(Act::PlexAtt { vol, plex: Boxed::new(alloc, plex)? })),
        Kind::Read => read_form(values),
        Kind::Fill => fill_form(values),
        Kind::Data => data_form(alloc, values),
        Kind::Sessions => form!(values; [_, _, count, ..] =>
            Form::Sessions(Block { sessions: said!(small(count)), lines: Lines::from_vec(Vec::new(alloc)) })),
    }
}

fn read_form(values: &[Value]) -> Result<Option<Form>, OutOfMemory>
    ensures { IfOk result (λ found. found ≡ form_of Kind.Read values.now) }
{
    form!(*values; [_, _, Named(vol), Number(start), Number(count), ..] =>
        Form::Calling(Call::Read { vol, start, count }))
}

fn fill_form(values: &[Value]) -> Result<Option<Form>, OutOfMemory>
    ensures { IfOk result (λ found. found ≡ form_of Kind.Fill values.now) }
{
    form!(*values; [_, _, Named(vol), Number(start), Number(count), _, ref filling, ..] =>
        Form::Calling(Call::Fill { vol, start, count, byte: said!(byte(filling)) }))
}

fn data_form(alloc: Global, values: &[Value]) -> Result<Option<Form>, OutOfMemory>
    ensures { IfOk result (λ found. found ≡ form_of Kind.Data values.now) }
{
    form!(*values; [_, _, Named(vol), Number(start), _, Blocks(ref blocks), ..] =>
        Form::Calling(Call::Data { vol, start, blocks: blocks.copy(alloc)? }))
}

fn concat_of(value: &Value) -> Option<Option<WordLayout>>
    ensures { result ≡ concat_of value.now }
{
    match value {
        Value::Nothing => Some(None),
        Value::Word => Some(Some(WordLayout::Concat)),
        _ => None,
    }
}

fn concat_attrs(words: &Value, mirrors: &Value, size: &Value, logs: &Value) -> Option<MakeAttrs>
    ensures { result ≡ concat_attrs words.now mirrors.now size.now logs.now }
{
    let layout = concat_of(words)?;
    with_mirrors(layout, None, None, mirrors, size, logs)
}

fn stripe_attrs(
    columns: &Value,
    unit: &Value,
    mirrors: &Value,
    size: &Value,
    logs: &Value,
) -> Option<MakeAttrs>
    ensures { result ≡ stripe_attrs columns.now unit.now mirrors.now size.now logs.now }
{
    let (ncol, unit) = (maybe_small(columns)?, maybe_numbered(unit)?);
    with_mirrors(Some(WordLayout::Stripe), ncol, unit, mirrors, size, logs)
}

fn with_mirrors(
    layout: Option<WordLayout>,
    ncol: Option<u32>,
    unit: Option<u64>,
    mirrors: &Value,
    size: &Value,
    logs: &Value,
) -> Option<MakeAttrs>
    ensures { result ≡ with_mirrors layout ncol unit mirrors.now size.now logs.now }
{
    let nmirror = maybe_small(mirrors)?;
    let region = maybe_numbered(size)?;
    let ndcomirror = maybe_small(logs)?;
    Some(MakeAttrs {
        layout,
        ncol,
        unit,
        nmirror,
        region,
        ndcomirror,
    })
}

fn assist_make(
    alloc: Global,
    vol: Name,
    length: u64,
    attrs: Option<MakeAttrs>,
    disks: &Names,
) -> Result<Option<Form>, OutOfMemory>
    ensures { IfOk result (λ found. found ≡ assist_make vol length attrs disks.now) }
{
    let attrs = Boxed::new(alloc, said!(attrs))?;
    let disks = disks.copy(alloc)?;
    Ok(Some(Form::AssistMake {
        vol,
        length,
        attrs,
        disks,
    }))
}
