//! The object that a record says.
ghost use Rattle.std.specs.Prelude.{◌≡◌, ◌<◌, ◌∷◌, ◌↔◌, [], ℕ, IsTrue, Some, codes, length, min, decimal};
ghost use Rattle.std.specs.Str.{bytes_eq};
ghost use Rattle.vx_names.specs.Number.{is_number};
ghost use Rattle.vx_record.specs.Content.{HasForm};
ghost use Rattle.vx_record.specs.Table.{columns, value_fits, is_one_of, plex_states, volume_states};
ghost use Rattle.vx_record.specs.declared.column.Form.TheVariants as forms;
ghost use Rattle.vx_config_parts.specs.Words.{plex_kind_word, layout_word, plex_state_word, vol_state_word, policy_word};
ghost use Rattle.vx_objects.specs.Fields.{HasValue, column_at};
ghost use Rattle.vx_rules.specs.Limits.{is_short};
ghost use Rattle.vx_objects.specs.Printed.{IsReadAs, map_is_short, cut_byte, cut_word, cut_map, numeral, numeral_or_none};

use crate::{
    Dco, Disk, Group, Object, Plex, PlexKind, PlexLayout, PlexState, PolicyKind, Snap, Subdisk,
    Vol, VolState,
};
use vx_names::{Attr, Name, read_number};
use vx_record::{Kind, Record};

/// The object that the record says; a number that its field cannot hold is the field's greatest.
pub(crate) fn object_of(entry: &Record) -> Object
    ensures { IsReadAs entry.now result }
{
    let attrs = entry.attrs.as_slice();
    match entry.kind {
        Kind::Dg => Object::GroupRecord(group_of(entry.name)),
        Kind::Dm => Object::DiskRecord(disk_of(entry.name, attrs)),
        Kind::Sd => Object::SubdiskRecord(subdisk_of(entry.name, attrs)),
        Kind::Plex => Object::PlexRecord(plex_of(entry.name, attrs)),
        Kind::Vol => Object::VolRecord(vol_of(entry.name, attrs)),
        Kind::Dco => Object::DcoRecord(dco_of(entry.name, attrs)),
        Kind::Snap => Object::SnapRecord(snap_of(entry.name, attrs)),
    }
}

/// The version of each group is 1.
fn group_of(name: Name) -> Group
    ensures { result ≡ record { name = name; version = 1 } }
{
    Group { name, version: 1 }
}

fn disk_of(name: Name, attrs: &[Attr]) -> Disk
    requires { HasForm Kind.Dm attrs.now }
    ensures { IsReadAs (record { kind = Kind.Dm; name = name; attrs = attrs.now }) (Object.DiskRecord result) }
{
    let device = referred(Kind::Dm, attrs, 0);
    let slot = number(Kind::Dm, attrs, 1);
    let publen = number(Kind::Dm, attrs, 2);
    Disk {
        name,
        device,
        slot: as_byte(slot),
        publen,
    }
}

fn subdisk_of(name: Name, attrs: &[Attr]) -> Subdisk
    requires { HasForm Kind.Sd attrs.now }
    ensures { IsReadAs (record { kind = Kind.Sd; name = name; attrs = attrs.now }) (Object.SubdiskRecord result) }
{
    let disk = referred(Kind::Sd, attrs, 0);
    let off = number(Kind::Sd, attrs, 1);
    let len = number(Kind::Sd, attrs, 2);
    let plex = referred_or_none(Kind::Sd, attrs, 3);
    let col = number(Kind::Sd, attrs, 4);
    let at = number(Kind::Sd, attrs, 5);
    Subdisk {
        name,
        disk,
        off,
        len,
        plex,
        col: as_word(col),
        at,
    }
}

fn plex_of(name: Name, attrs: &[Attr]) -> Plex
    requires { HasForm Kind.Plex attrs.now }
    ensures { IsReadAs (record { kind = Kind.Plex; name = name; attrs = attrs.now }) (Object.PlexRecord result) }
{
    let vol = referred_or_none(Kind::Plex, attrs, 0);
    let kind = plex_kind(Kind::Plex, attrs, 1);
    let layout = layout(Kind::Plex, attrs, 2);
    let ncol = number(Kind::Plex, attrs, 3);
    let unit = number(Kind::Plex, attrs, 4);
    let state = plex_state(Kind::Plex, attrs, 5);
    let map = number_or_none(Kind::Plex, attrs, 6);
    Plex {
        name,
        vol,
        kind,
        layout,
        ncol: as_word(ncol),
        unit,
        state,
        map: as_map(map),
    }
}

fn vol_of(name: Name, attrs: &[Attr]) -> Vol
    requires { HasForm Kind.Vol attrs.now }
    ensures { IsReadAs (record { kind = Kind.Vol; name = name; attrs = attrs.now }) (Object.VolRecord result) }
{
    let len = number(Kind::Vol, attrs, 0);
    let region = number(Kind::Vol, attrs, 1);
    let rdpol = policy(Kind::Vol, attrs, 2);
    let prefer = referred_or_none(Kind::Vol, attrs, 3);
    let state = vol_state(Kind::Vol, attrs, 4);
    let dco = referred_or_none(Kind::Vol, attrs, 5);
    Vol {
        name,
        len,
        region,
        rdpol,
        prefer,
        state,
        dco,
    }
}

/// Each DCO has 32 maps.
fn dco_of(name: Name, attrs: &[Attr]) -> Dco
    requires { HasForm Kind.Dco attrs.now }
    ensures { IsReadAs (record { kind = Kind.Dco; name = name; attrs = attrs.now }) (Object.DcoRecord result) }
{
    let vol = referred(Kind::Dco, attrs, 0);
    Dco {
        name,
        vol,
        maps: 32,
    }
}

fn snap_of(name: Name, attrs: &[Attr]) -> Snap
    requires { HasForm Kind.Snap attrs.now }
    ensures { IsReadAs (record { kind = Kind.Snap; name = name; attrs = attrs.now }) (Object.SnapRecord result) }
{
    let vol = referred(Kind::Snap, attrs, 0);
    let of = referred(Kind::Snap, attrs, 1);
    let map = number(Kind::Snap, attrs, 2);
    let ofmap = number(Kind::Snap, attrs, 3);
    Snap {
        name,
        vol,
        of,
        map: as_byte(map),
        ofmap: as_byte(ofmap),
    }
}

fn as_byte(number: u64) -> u8
    ensures { result ≡ cut_byte number }
{
    number.min(255) as u8
}

fn as_word(number: u64) -> u32
    ensures { result ≡ cut_word number }
{
    number.min(4_294_967_295) as u32
}

fn as_map(map: Option<u64>) -> Option<u8>
    ensures { result ≡ cut_map map }
{
    match map {
        None => None,
        Some(map) => Some(as_byte(map)),
    }
}

/// The value of the attribute at the place.
fn value(kind: Kind, attrs: &[Attr], index: usize) -> Option<Name>
    requires form { HasForm kind attrs.now }
    requires inside { index < length (columns kind) }
    ensures there { HasValue kind attrs.now index result }
    ensures fits { IsTrue (value_fits (column_at kind index).form result) }
{
    attrs[index].value
}

fn referred_or_none(kind: Kind, attrs: &[Attr], index: usize) -> Option<Name>
    requires form { HasForm kind attrs.now }
    requires inside { index < length (columns kind) }
    ensures { HasValue kind attrs.now index result }
{
    value(kind, attrs, index)
}

fn referred(kind: Kind, attrs: &[Attr], index: usize) -> Name
    requires form { HasForm kind attrs.now }
    requires inside { index < length (columns kind) }
    requires column { (column_at kind index).form ≡ forms.Name }
    ensures { HasValue kind attrs.now index (Some result) }
{
    value(kind, attrs, index).unwrap()
}

fn number(kind: Kind, attrs: &[Attr], index: usize) -> u64
    requires form { HasForm kind attrs.now }
    requires inside { index < length (columns kind) }
    requires column { (column_at kind index).form ≡ forms.Number }
    ensures there { HasValue kind attrs.now index (numeral result) }
    ensures short { IsTrue (is_short result) }
{
    number_in(&value(kind, attrs, index).unwrap())
}

fn number_or_none(kind: Kind, attrs: &[Attr], index: usize) -> Option<u64>
    requires form { HasForm kind attrs.now }
    requires inside { index < length (columns kind) }
    requires column { (column_at kind index).form ≡ forms.NumberOrNone }
    ensures there { HasValue kind attrs.now index (numeral_or_none result) }
    ensures short { IsTrue (map_is_short result) }
{
    match value(kind, attrs, index) {
        None => None,
        Some(word) => Some(number_in(&word)),
    }
}

fn number_in(word: &Name) -> u64
    requires { IsTrue (is_number word.now) }
    ensures spelled { word.now ≡ decimal result }
    ensures short { IsTrue (is_short result) }
{
    read_number(word.as_bytes()).unwrap()
}

fn plex_kind(kind: Kind, attrs: &[Attr], index: usize) -> PlexKind
    requires form { HasForm kind attrs.now }
    requires inside { index < length (columns kind) }
    requires column { (column_at kind index).form ≡ forms.PlexKind }
    ensures { HasValue kind attrs.now index (Some (plex_kind_word result)) }
{
    plex_kind_in(&value(kind, attrs, index).unwrap())
}

fn plex_kind_in(word: &Name) -> PlexKind
    requires { IsTrue (is_one_of (codes "data" ∷ codes "log" ∷ []) word.now) }
    ensures { word.now ≡ plex_kind_word result }
{
    if is(b"data", word) {
        PlexKind::Data
    } else {
        PlexKind::Log
    }
}

fn layout(kind: Kind, attrs: &[Attr], index: usize) -> PlexLayout
    requires form { HasForm kind attrs.now }
    requires inside { index < length (columns kind) }
    requires column { (column_at kind index).form ≡ forms.Layout }
    ensures { HasValue kind attrs.now index (Some (layout_word result)) }
{
    layout_in(&value(kind, attrs, index).unwrap())
}

fn layout_in(word: &Name) -> PlexLayout
    requires { IsTrue (is_one_of (codes "concat" ∷ codes "stripe" ∷ []) word.now) }
    ensures { word.now ≡ layout_word result }
{
    if is(b"concat", word) {
        PlexLayout::Concat
    } else {
        PlexLayout::Stripe
    }
}

fn policy(kind: Kind, attrs: &[Attr], index: usize) -> PolicyKind
    requires form { HasForm kind attrs.now }
    requires inside { index < length (columns kind) }
    requires column { (column_at kind index).form ≡ forms.Policy }
    ensures { HasValue kind attrs.now index (Some (policy_word result)) }
{
    policy_in(&value(kind, attrs, index).unwrap())
}

fn policy_in(word: &Name) -> PolicyKind
    requires { IsTrue (is_one_of (codes "round" ∷ codes "prefer" ∷ codes "select" ∷ []) word.now) }
    ensures { word.now ≡ policy_word result }
{
    if is(b"round", word) {
        PolicyKind::Round
    } else if is(b"prefer", word) {
        PolicyKind::Prefer
    } else {
        PolicyKind::Select
    }
}

fn plex_state(kind: Kind, attrs: &[Attr], index: usize) -> PlexState
    requires form { HasForm kind attrs.now }
    requires inside { index < length (columns kind) }
    requires column { (column_at kind index).form ≡ forms.PlexState }
    ensures { HasValue kind attrs.now index (Some (plex_state_word result)) }
{
    plex_state_in(&value(kind, attrs, index).unwrap())
}

fn plex_state_in(word: &Name) -> PlexState
    requires { IsTrue (is_one_of plex_states word.now) }
    ensures { word.now ≡ plex_state_word result }
{
    if is(b"EMPTY", word) {
        PlexState::Empty
    } else if is(b"CLEAN", word) {
        PlexState::Clean
    } else if is(b"ACTIVE", word) {
        PlexState::Active
    } else if is(b"IOFAIL", word) {
        PlexState::IoFail
    } else if is(b"STALE", word) {
        PlexState::Stale
    } else if is(b"SNAPATT", word) {
        PlexState::SnapAtt
    } else if is(b"SNAPDONE", word) {
        PlexState::SnapDone
    } else {
        PlexState::DcoSnp
    }
}

fn vol_state(kind: Kind, attrs: &[Attr], index: usize) -> VolState
    requires form { HasForm kind attrs.now }
    requires inside { index < length (columns kind) }
    requires column { (column_at kind index).form ≡ forms.VolState }
    ensures { HasValue kind attrs.now index (Some (vol_state_word result)) }
{
    vol_state_in(&value(kind, attrs, index).unwrap())
}

fn vol_state_in(word: &Name) -> VolState
    requires { IsTrue (is_one_of volume_states word.now) }
    ensures { word.now ≡ vol_state_word result }
{
    if is(b"EMPTY", word) {
        VolState::Empty
    } else if is(b"CLEAN", word) {
        VolState::Clean
    } else if is(b"ACTIVE", word) {
        VolState::Active
    } else if is(b"NEEDSYNC", word) {
        VolState::NeedSync
    } else {
        VolState::Sync
    }
}

fn is(text: &[u8], word: &Name) -> bool
    ensures { result ≡ bytes_eq text.now word.now }
{
    text == word.as_bytes()
}
