ghost use Rattle.std.specs.Prelude.{◌≡◌, List, ℕ, Option, Bool};
ghost use Rattle.std.specs.Str.{bytes_eq};
ghost use Rattle.vx_record.specs.Table.{columns, value_fits, none_fits, word_fits, attr_fits, is_one_of, plex_states, volume_states};

use crate::kind::Kind;
use crate::label::Label;
use vx_names::{Attr, Name, read_number};

/// What the value of an attribute may be.
#[derive(Clone, Copy, Debug, PartialEq, Eq)]
pub enum Form {
    /// A number below 2^40.
    Number,
    NumberOrNone,
    Name,
    NameOrNone,
    /// `1`
    Version,
    /// `32`
    Maps,
    /// `data` or `log`
    PlexKind,
    /// `concat` or `stripe`
    Layout,
    /// `round`, `prefer` or `select`
    Policy,
    PlexState,
    VolState,
}

/// An attribute of a kind of record: how it is called, and what it may say.
#[derive(Clone, Copy, Debug, PartialEq, Eq)]
pub struct Column {
    pub label: Label,
    pub form: Form,
}

/// The attributes of a record of the kind, in order.
pub fn columns(kind: Kind) -> &'static [Column]
    ensures { result.now ≡ columns kind }
{
    match kind {
        Kind::Dg => &GROUP,
        Kind::Dm => &DISK,
        Kind::Sd => &SUBDISK,
        Kind::Plex => &PLEX,
        Kind::Vol => &VOLUME,
        Kind::Dco => &DATA_CHANGE,
        Kind::Snap => &SNAPSHOT,
    }
}

static GROUP: [Column; 1] = [Column {
    label: Label::Version,
    form: Form::Version,
}];

static DISK: [Column; 3] = [
    Column {
        label: Label::Device,
        form: Form::Name,
    },
    Column {
        label: Label::Slot,
        form: Form::Number,
    },
    Column {
        label: Label::Publen,
        form: Form::Number,
    },
];

static SUBDISK: [Column; 6] = [
    Column {
        label: Label::Disk,
        form: Form::Name,
    },
    Column {
        label: Label::Off,
        form: Form::Number,
    },
    Column {
        label: Label::Len,
        form: Form::Number,
    },
    Column {
        label: Label::Plex,
        form: Form::NameOrNone,
    },
    Column {
        label: Label::Col,
        form: Form::Number,
    },
    Column {
        label: Label::At,
        form: Form::Number,
    },
];

static PLEX: [Column; 7] = [
    Column {
        label: Label::Vol,
        form: Form::NameOrNone,
    },
    Column {
        label: Label::Kind,
        form: Form::PlexKind,
    },
    Column {
        label: Label::Layout,
        form: Form::Layout,
    },
    Column {
        label: Label::Ncol,
        form: Form::Number,
    },
    Column {
        label: Label::Unit,
        form: Form::Number,
    },
    Column {
        label: Label::State,
        form: Form::PlexState,
    },
    Column {
        label: Label::Map,
        form: Form::NumberOrNone,
    },
];

static VOLUME: [Column; 6] = [
    Column {
        label: Label::Len,
        form: Form::Number,
    },
    Column {
        label: Label::Region,
        form: Form::Number,
    },
    Column {
        label: Label::Rdpol,
        form: Form::Policy,
    },
    Column {
        label: Label::Prefer,
        form: Form::NameOrNone,
    },
    Column {
        label: Label::State,
        form: Form::VolState,
    },
    Column {
        label: Label::Dco,
        form: Form::NameOrNone,
    },
];

static DATA_CHANGE: [Column; 2] = [
    Column {
        label: Label::Vol,
        form: Form::Name,
    },
    Column {
        label: Label::Maps,
        form: Form::Maps,
    },
];

static SNAPSHOT: [Column; 4] = [
    Column {
        label: Label::Vol,
        form: Form::Name,
    },
    Column {
        label: Label::Of,
        form: Form::Name,
    },
    Column {
        label: Label::Map,
        form: Form::Number,
    },
    Column {
        label: Label::Ofmap,
        form: Form::Number,
    },
];

/// Whether the attribute may stand in the column.
pub fn fits(column: Column, attr: &Attr) -> bool
    ensures { result ≡ attr_fits column attr.now }
{
    column.label.word() == attr.name.as_bytes() && value_fits(column.form, &attr.value)
}

fn value_fits(form: Form, value: &Option<Name>) -> bool
    ensures { result ≡ value_fits form value.now }
{
    match value {
        None => none_fits(form),
        Some(word) => word_fits(form, word.as_bytes()),
    }
}

fn none_fits(form: Form) -> bool
    ensures { result ≡ none_fits form }
{
    matches!(form, Form::NumberOrNone | Form::NameOrNone)
}

fn word_fits(form: Form, word: &[u8]) -> bool
    ensures { result ≡ word_fits form word.now }
{
    match form {
        Form::Number | Form::NumberOrNone => read_number(word).is_some(),
        Form::Name | Form::NameOrNone => true,
        Form::Version => is(b"1", word),
        Form::Maps => is(b"32", word),
        Form::PlexKind => is(b"data", word) || is(b"log", word),
        Form::Layout => is(b"concat", word) || is(b"stripe", word),
        Form::Policy => is(b"round", word) || is(b"prefer", word) || is(b"select", word),
        Form::PlexState => is_plex_state(word),
        Form::VolState => is_volume_state(word),
    }
}

fn is_plex_state(word: &[u8]) -> bool
    ensures { result ≡ is_one_of plex_states word.now }
{
    is(b"EMPTY", word)
        || is(b"CLEAN", word)
        || is(b"ACTIVE", word)
        || is(b"IOFAIL", word)
        || is(b"STALE", word)
        || is(b"SNAPATT", word)
        || is(b"SNAPDONE", word)
        || is(b"DCOSNP", word)
}

fn is_volume_state(word: &[u8]) -> bool
    ensures { result ≡ is_one_of volume_states word.now }
{
    is(b"EMPTY", word)
        || is(b"CLEAN", word)
        || is(b"ACTIVE", word)
        || is(b"NEEDSYNC", word)
        || is(b"SYNC", word)
}

pub(crate) fn is(text: &[u8], word: &[u8]) -> bool
    ensures { result ≡ bytes_eq text.now word.now }
{
    text == word
}
