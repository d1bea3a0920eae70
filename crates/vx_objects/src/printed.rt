//! The record that an object is printed as.
ghost use Rattle.std.specs.Prelude.{◌≡◌, ◌<◌, ◌^◌, codes, map, IfOk, IsTrue, Some};
ghost use Rattle.std.specs.List.{list_all};
ghost use Rattle.vx_names.specs.Form.{is_name};
ghost use Rattle.vx_record.specs.Table.{column, attr_fits};
ghost use Rattle.vx_record.specs.Words.{label_word};
ghost use Rattle.vx_record.specs.declared.column.Form.TheVariants as forms;
ghost use Rattle.vx_rules.specs.Limits.{map_fits};
ghost use Rattle.vx_objects.specs.Printed.{attr, numeral, numeral_or_none, record_of, has_record};

use crate::{Dco, Disk, Group, Object, Plex, Snap, Subdisk, Vol};
use std::alloc::Global;
use vx_base::OutOfMemory;
use vx_names::{Attr, Name};
use vx_record::{Attrs, Kind, Label, Record};

/// The record that the object is printed as.
pub fn record_of(alloc: Global, object: &Object) -> Result<Record, OutOfMemory>
    requires { IsTrue (has_record object.now) }
    ensures { IfOk result (λ r. r ≡ record_of object.now) }
{
    match object {
        Object::GroupRecord(group) => of_group(alloc, group),
        Object::DiskRecord(disk) => of_disk(alloc, disk),
        Object::SubdiskRecord(subdisk) => of_subdisk(alloc, subdisk),
        Object::PlexRecord(plex) => of_plex(alloc, plex),
        Object::VolRecord(vol) => of_vol(alloc, vol),
        Object::DcoRecord(dco) => of_dco(alloc, dco),
        Object::SnapRecord(snap) => of_snap(alloc, snap),
    }
}

fn of_group(alloc: Global, group: &Group) -> Result<Record, OutOfMemory>
    requires { IsTrue (has_record (Object.GroupRecord group.now)) }
    ensures { IfOk result (λ r. r ≡ record_of (Object.GroupRecord group.now)) }
{
    let attrs = listed(alloc, &[word(Label::Version, b"1")])?;
    Ok(Record {
        kind: Kind::Dg,
        name: group.name,
        attrs,
    })
}

fn of_disk(alloc: Global, disk: &Disk) -> Result<Record, OutOfMemory>
    requires { IsTrue (has_record (Object.DiskRecord disk.now)) }
    ensures { IfOk result (λ r. r ≡ record_of (Object.DiskRecord disk.now)) }
{
    let attrs = listed(
        alloc,
        &[
            value(Label::Device, Some(disk.device)),
            number(Label::Slot, disk.slot as u64),
            number(Label::Publen, disk.publen),
        ],
    )?;
    Ok(Record {
        kind: Kind::Dm,
        name: disk.name,
        attrs,
    })
}

fn of_subdisk(alloc: Global, subdisk: &Subdisk) -> Result<Record, OutOfMemory>
    requires { IsTrue (has_record (Object.SubdiskRecord subdisk.now)) }
    ensures { IfOk result (λ r. r ≡ record_of (Object.SubdiskRecord subdisk.now)) }
{
    let attrs = listed(
        alloc,
        &[
            value(Label::Disk, Some(subdisk.disk)),
            number(Label::Off, subdisk.off),
            number(Label::Len, subdisk.len),
            value(Label::Plex, subdisk.plex),
            number(Label::Col, subdisk.col as u64),
            number(Label::At, subdisk.at),
        ],
    )?;
    Ok(Record {
        kind: Kind::Sd,
        name: subdisk.name,
        attrs,
    })
}

fn of_plex(alloc: Global, plex: &Plex) -> Result<Record, OutOfMemory>
    requires { IsTrue (has_record (Object.PlexRecord plex.now)) }
    ensures { IfOk result (λ r. r ≡ record_of (Object.PlexRecord plex.now)) }
{
    let attrs = listed(
        alloc,
        &[
            value(Label::Vol, plex.vol),
            word(Label::Kind, plex.kind.word()),
            word(Label::Layout, plex.layout.word()),
            number(Label::Ncol, plex.ncol as u64),
            number(Label::Unit, plex.unit),
            word(Label::State, plex.state.word()),
            map_or_none(plex.map),
        ],
    )?;
    Ok(Record {
        kind: Kind::Plex,
        name: plex.name,
        attrs,
    })
}

fn of_vol(alloc: Global, vol: &Vol) -> Result<Record, OutOfMemory>
    requires { IsTrue (has_record (Object.VolRecord vol.now)) }
    ensures { IfOk result (λ r. r ≡ record_of (Object.VolRecord vol.now)) }
{
    let attrs = listed(
        alloc,
        &[
            number(Label::Len, vol.len),
            number(Label::Region, vol.region),
            word(Label::Rdpol, vol.rdpol.word()),
            value(Label::Prefer, vol.prefer),
            word(Label::State, vol.state.word()),
            value(Label::Dco, vol.dco),
        ],
    )?;
    Ok(Record {
        kind: Kind::Vol,
        name: vol.name,
        attrs,
    })
}

fn of_dco(alloc: Global, dco: &Dco) -> Result<Record, OutOfMemory>
    requires { IsTrue (has_record (Object.DcoRecord dco.now)) }
    ensures { IfOk result (λ r. r ≡ record_of (Object.DcoRecord dco.now)) }
{
    let attrs = listed(
        alloc,
        &[value(Label::Vol, Some(dco.vol)), word(Label::Maps, b"32")],
    )?;
    Ok(Record {
        kind: Kind::Dco,
        name: dco.name,
        attrs,
    })
}

fn of_snap(alloc: Global, snap: &Snap) -> Result<Record, OutOfMemory>
    requires { IsTrue (has_record (Object.SnapRecord snap.now)) }
    ensures { IfOk result (λ r. r ≡ record_of (Object.SnapRecord snap.now)) }
{
    let attrs = listed(
        alloc,
        &[
            value(Label::Vol, Some(snap.vol)),
            value(Label::Of, Some(snap.of)),
            number(Label::Map, snap.map as u64),
            number(Label::Ofmap, snap.ofmap as u64),
        ],
    )?;
    Ok(Record {
        kind: Kind::Snap,
        name: snap.name,
        attrs,
    })
}

fn listed(alloc: Global, items: &[Attr]) -> Result<Attrs, OutOfMemory>
    ensures { IfOk result (λ attrs. attrs ≡ items.now) }
{
    let mut attrs = Vec::new(alloc);
    attrs.extend_from_slice(items)?;
    Ok(Attrs::from_vec(attrs))
}

fn number(label: Label, number: u64) -> Attr
    requires { number < 2 ^ 40 }
    ensures attr { result ≡ attr label (numeral number) }
    ensures fits { IsTrue (attr_fits (column label forms.Number) result) }
{
    value(label, Some(Name::number(number)))
}

fn map_or_none(map: Option<u8>) -> Attr
    ensures attr { result ≡ attr Label.Map (numeral_or_none map) }
    ensures fits { IsTrue (attr_fits (column Label.Map forms.NumberOrNone) result) }
{
    match map {
        None => value(Label::Map, None),
        Some(map) => number(Label::Map, map as u64),
    }
}

fn word(label: Label, word: &[u8]) -> Attr
    requires { IsTrue (is_name word.now) }
    ensures { result ≡ attr label (Some word.now) }
{
    value(label, Some(name(word)))
}

fn value(label: Label, value: Option<Name>) -> Attr
    ensures { result ≡ attr label value }
{
    Attr {
        name: label_name(label),
        value,
    }
}

fn label_name(label: Label) -> Name
    ensures { result ≡ label_word label }
{
    name(label.word())
}

fn name(word: &[u8]) -> Name
    requires { IsTrue (is_name word.now) }
    ensures { result ≡ word.now }
{
    Name::read(word).unwrap()
}
