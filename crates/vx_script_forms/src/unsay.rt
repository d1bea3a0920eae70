ghost use Rattle.std.specs.Prelude.{◌≡◌, ◌∷◌, IfOk};
ghost use Rattle.vx_script_forms.specs.ValuesOf.{maybe_value, count_value, stripe_value, act_kind, call_kind, make_kind, policy_kind, kind_of, act_values, call_values, attr_values, policy_values, values_of};

use crate::{Act, Call, Form, Kind, MakeAttrs, WordLayout, WordPolicy, name_in};
use std::alloc::Global;
use vx_base::OutOfMemory;
use vx_names::Name;
use vx_script_words::{Names, Value};

/// The kind of the line that says the form.
pub fn kind_of(form: &Form) -> Kind
    ensures { result ≡ kind_of form.now }
{
    match form {
        Form::MkImage { .. } => Kind::MkImage,
        Form::Bare { .. } => Kind::Bare,
        Form::DgInit { .. } => Kind::DgInit,
        Form::DgAddDisk { .. } => Kind::DgAddDisk,
        Form::DgImport { .. } => Kind::DgImport,
        Form::DgDeport { .. } => Kind::DgDeport,
        Form::DiskUnsetup { .. } => Kind::DiskUnsetup,
        Form::VxMake { .. } => Kind::VxMake,
        Form::PrintM { .. } => Kind::PrintM,
        Form::PrintHt { .. } => Kind::PrintHt,
        Form::AssistMake { attrs, .. } => make_kind(*attrs.get()),
        Form::Mirror { .. } => Kind::Mirror,
        Form::RemoveVolume { .. } => Kind::RemoveVolume,
        Form::Start { .. } => Kind::Start,
        Form::Stop { .. } => Kind::Stop,
        Form::Rdpol { policy, .. } => policy_kind(*policy),
        Form::PlexDis { rm: false, .. } => Kind::PlexDis,
        Form::PlexDis { rm: true, .. } => Kind::PlexDisRm,
        Form::Prepare { .. } => Kind::Prepare,
        Form::Unprepare { .. } => Kind::Unprepare,
        Form::AddMir { .. } => Kind::AddMir,
        Form::Dis { .. } => Kind::Dis,
        Form::Split { .. } => Kind::Split,
        Form::PrintSnaps { .. } => Kind::PrintSnaps,
        Form::Recover { .. } => Kind::Recover,
        Form::Acting(act) => act_kind(act),
        Form::Calling(call) => call_kind(call),
        Form::Sessions(_) => Kind::Sessions,
    }
}

fn make_kind(attrs: MakeAttrs) -> Kind
    ensures { result ≡ make_kind attrs.layout attrs.ncol attrs.unit }
{
    match (attrs.layout, attrs.ncol, attrs.unit) {
        (Some(WordLayout::Stripe), _, _) => Kind::MakeStripe,
        (_, None, None) => Kind::MakeConcat,
        _ => Kind::MakeStripe,
    }
}

fn policy_kind(policy: WordPolicy) -> Kind
    ensures { result ≡ policy_kind policy }
{
    match policy {
        WordPolicy::Round => Kind::RdpolRound,
        WordPolicy::Select => Kind::RdpolSelect,
        WordPolicy::Prefer(_) => Kind::RdpolPrefer,
    }
}

pub fn act_kind(act: &Act) -> Kind
    ensures { result ≡ act_kind act.now }
{
    match act {
        Act::SnapMake { .. } => Kind::SnapMake,
        Act::Reattach { .. } => Kind::Reattach,
        Act::Restore { .. } => Kind::Restore,
        Act::Snapback {
            from_replica: false,
            ..
        } => Kind::Snapback,
        Act::Snapback {
            from_replica: true,
            ..
        } => Kind::SnapbackFromReplica,
        Act::PlexDet { .. } => Kind::PlexDet,
        Act::PlexAtt { .. } => Kind::PlexAtt,
    }
}

pub fn call_kind(call: &Call) -> Kind
    ensures { result ≡ call_kind call.now }
{
    match call {
        Call::Read { .. } => Kind::Read,
        Call::Fill { .. } => Kind::Fill,
        Call::Data { .. } => Kind::Data,
    }
}

fn maybe_value(name: Option<Name>) -> Value
    ensures { result ≡ maybe_value name }
{
    match name {
        None => Value::Nothing,
        Some(name) => Value::Named(name),
    }
}

fn count_value(count: Option<u64>) -> Value
    ensures { result ≡ count_value count }
{
    match count {
        None => Value::Nothing,
        Some(n) => Value::Number(n),
    }
}

fn small_value(count: Option<u32>) -> Value
    ensures { result ≡ count_value count }
{
    match count {
        None => Value::Nothing,
        Some(n) => Value::Number(n as u64),
    }
}

/// A line's values: those of its first word and of the group, and the others.
macro_rules! line {
    ($alloc:expr, $group:expr; $($value:expr),*) => {
        Ok(vec![in $alloc; Value::Word, maybe_value($group), $($value),*]?)
    };
}

/// The values of an act's line, with those of the group.
pub fn act_values(alloc: Global, group: Option<Name>, act: &Act) -> Result<Vec<Value>, OutOfMemory>
    ensures { IfOk result (λ values. values.items ≡ act_values group act.now) }
{
    let word = Value::Word;
    match act {
        Act::SnapMake { vol, snap, plex } => {
            let (vol, snap, plex) = (*vol.get(), *snap.get(), name_in(plex));
            line!(alloc, group; word, Value::BreakOff { vol, snap, plex })
        }
        Act::Reattach { snap, vol } => {
            line!(alloc, group; word, Value::Named(*snap), Value::Named(*vol.get()))
        }
        Act::Restore { vol, snap } => {
            line!(alloc, group; word, Value::Named(*vol), Value::Named(*snap.get()))
        }
        Act::Snapback { snap, from_replica } => {
            if *from_replica {
                line!(alloc, group; word, Value::Word, Value::Word, Value::Named(*snap))
            } else {
                line!(alloc, group; word, Value::Named(*snap))
            }
        }
        Act::PlexDet { plex } => line!(alloc, group; word, Value::Named(*plex)),
        Act::PlexAtt { vol, plex } => {
            line!(alloc, group; word, Value::Named(*vol), Value::Named(*plex.get()))
        }
    }
}

/// The values of a call's line, with those of the group.
pub fn call_values(
    alloc: Global,
    group: Option<Name>,
    call: &Call,
) -> Result<Vec<Value>, OutOfMemory>
    ensures { IfOk result (λ values. values.items ≡ call_values group call.now) }
{
    match call {
        Call::Read { vol, start, count } => {
            line!(alloc, group; Value::Named(*vol), Value::Number(*start), Value::Number(*count))
        }
        Call::Fill {
            vol,
            start,
            count,
            byte,
        } => {
            let byte = Value::Number(*byte as u64);
            line!(alloc, group; Value::Named(*vol), Value::Number(*start), Value::Number(*count), Value::Word, byte)
        }
        Call::Data { vol, start, blocks } => {
            let blocks = Value::Blocks(blocks.copy(alloc)?);
            line!(alloc, group; Value::Named(*vol), Value::Number(*start), Value::Word, blocks)
        }
    }
}

fn policy_values(
    alloc: Global,
    group: Option<Name>,
    vol: Name,
    policy: WordPolicy,
) -> Result<Vec<Value>, OutOfMemory>
    ensures { IfOk result (λ values. values.items ≡ policy_values group vol policy) }
{
    let (word, vol) = (Value::Word, Value::Named(vol));
    match policy {
        WordPolicy::Round | WordPolicy::Select => line!(alloc, group; word, Value::Word, vol),
        WordPolicy::Prefer(plex) => {
            line!(alloc, group; word, Value::Word, vol, Value::Named(plex))
        }
    }
}

fn make_values(
    alloc: Global,
    group: Option<Name>,
    vol: Name,
    length: u64,
    attrs: MakeAttrs,
    disks: &Names,
) -> Result<Vec<Value>, OutOfMemory>
    ensures { IfOk result (λ values. values.items ≡ Value.Word ∷ maybe_value group ∷ Value.Word ∷ Value.Named vol ∷ Value.Number length ∷ attr_values attrs disks.now) }
{
    let (word, vol, length) = (Value::Word, Value::Named(vol), Value::Number(length));
    let (nmirror, region) = (small_value(attrs.nmirror), count_value(attrs.region));
    let ndcomirror = small_value(attrs.ndcomirror);
    let disks = Value::Names(disks.copy(alloc)?);
    match (attrs.layout, attrs.ncol, attrs.unit) {
        (None, None, None) => {
            line!(alloc, group; word, vol, length, Value::Nothing, nmirror, region, ndcomirror, disks)
        }
        (Some(WordLayout::Concat), None, None) => {
            line!(alloc, group; word, vol, length, Value::Word, nmirror, region, ndcomirror, disks)
        }
        (layout, ncol, unit) => {
            let (layout, ncol, unit) = (stripe_value(layout), small_value(ncol), count_value(unit));
            line!(alloc, group; word, vol, length, layout, ncol, unit, nmirror, region, ndcomirror, disks)
        }
    }
}

fn stripe_value(layout: Option<WordLayout>) -> Value
    ensures { result ≡ stripe_value layout }
{
    match layout {
        Some(WordLayout::Stripe) => Value::Word,
        _ => Value::Nothing,
    }
}

/// The values of the form's first line, with those of the group.
pub fn values_of(alloc: Global, group: Option<Name>, form: &Form) -> Result<Vec<Value>, OutOfMemory>
    ensures { IfOk result (λ values. values.items ≡ values_of group form.now) }
{
    let word = Value::Word;
    match form {
        Form::MkImage { device, length } => {
            line!(alloc, group; Value::Named(*device), Value::Number(*length))
        }
        Form::Bare { vol, device } =>
            line!(alloc, group; Value::Named(*vol), Value::Named(*device)),
        Form::DgInit { dg, disks } => {
            let disks = Value::Pairs(disks.copy(alloc)?);
            line!(alloc, group; word, Value::Named(*dg), disks)
        }
        Form::DgAddDisk { dg, disk } => {
            line!(alloc, group; word, Value::Named(*dg), Value::Word, Value::Pair(*disk.get()))
        }
        Form::DiskUnsetup { device } => line!(alloc, group; Value::Named(*device)),
        Form::VxMake { .. } => line!(alloc, group; word),
        Form::PrintM { vol }
        | Form::PrintHt { vol }
        | Form::PrintSnaps { vol }
        | Form::Recover { vol } => line!(alloc, group; word, maybe_value(*vol)),
        Form::AssistMake {
            vol,
            length,
            attrs,
            disks,
        } => make_values(alloc, group, *vol, *length, *attrs.get(), disks),
        Form::Mirror { vol, disks } | Form::AddMir { vol, disks } => {
            let disks = Value::Names(disks.copy(alloc)?);
            line!(alloc, group; word, Value::Named(*vol), disks)
        }
        Form::RemoveVolume { vol } => line!(alloc, group; word, Value::Word, Value::Named(*vol)),
        Form::DgImport { dg: name }
        | Form::DgDeport { dg: name }
        | Form::Start { vol: name }
        | Form::Stop { vol: name }
        | Form::Unprepare { vol: name }
        | Form::Dis { snap: name }
        | Form::Split { snap: name } => line!(alloc, group; word, Value::Named(*name)),
        Form::Rdpol { vol, policy } => policy_values(alloc, group, *vol, *policy),
        Form::PlexDis { plex, rm } => {
            if *rm {
                line!(alloc, group; word, Value::Word, Value::Word, Value::Named(*plex))
            } else {
                line!(alloc, group; word, Value::Named(*plex))
            }
        }
        Form::Prepare {
            vol,
            ndcomirs,
            region,
        } => {
            let (ndcomirs, region) = (count_value(*ndcomirs), count_value(*region));
            line!(alloc, group; word, Value::Named(*vol), ndcomirs, region)
        }
        Form::Acting(act) => act_values(alloc, group, act),
        Form::Calling(call) => call_values(alloc, group, call),
        Form::Sessions(block) => line!(alloc, group; Value::Number(block.sessions as u64)),
    }
}
