ghost use Rattle.std.specs.Prelude.{◌≡◌, IfOk, decimal, codes};
ghost use Rattle.vx_stages.specs.Finding.{IsDiskOf, name_in, first_that, has_slot, is_value, attr_value, is_disk_kind};

use std::alloc::Global;
use vx_base::OutOfMemory;
use vx_config_parts::same;
use vx_names::{Attr, Name};
use vx_record::{Kind, Record, RecordFault, read};

/// The name of the slot's disk in a configuration's text; None where the text spells no records, or none of such a disk.
pub(crate) fn missing_disk(
    alloc: Global,
    text: &[u8],
    slot: u8,
) -> Result<Option<Name>, OutOfMemory>
    ensures { IfOk result (IsDiskOf text.now slot) }
{
    match read(alloc, text) {
        Ok(records) => Ok(disk_with(records.as_slice(), slot)),
        Err(RecordFault::BadRecord(_)) => Ok(None),
        Err(RecordFault::OutOfMemory) => Err(OutOfMemory),
    }
}

fn disk_with(records: &[Record], slot: u8) -> Option<Name>
    ensures { result ≡ name_in (first_that (has_slot slot) records.now) }
{
    let digits = Name::number(slot as u64);
    disk_named(records, slot, &digits)
}

fn disk_named(records: &[Record], slot: u8, digits: &Name) -> Option<Name>
    requires { digits.now ≡ decimal slot }
    ensures { result ≡ name_in (first_that (has_slot slot) records.now) }
{
    match records {
        [] => None,
        [first, rest @ ..] => {
            if is_disk(first, slot, digits) {
                Some(first.name)
            } else {
                disk_named(rest, slot, digits)
            }
        }
    }
}

/// Whether the record is that of a disk with the slot.
fn is_disk(entry: &Record, slot: u8, digits: &Name) -> bool
    requires { digits.now ≡ decimal slot }
    ensures { result ≡ has_slot slot entry.now }
{
    is_dm(entry.kind) && says_slot(entry.attrs.as_slice(), digits)
}

fn is_dm(kind: Kind) -> bool
    ensures { result ≡ is_disk_kind kind }
{
    match kind {
        Kind::Dm => true,
        Kind::Dg => false,
        Kind::Sd => false,
        Kind::Plex => false,
        Kind::Vol => false,
        Kind::Dco => false,
        Kind::Snap => false,
    }
}

fn says_slot(attrs: &[Attr], digits: &Name) -> bool
    ensures { result ≡ is_value digits.now (attr_value (codes "slot") attrs.now) }
{
    match attrs {
        [] => false,
        [first, rest @ ..] => {
            if first.name.as_bytes() == b"slot".as_slice() {
                is_digits(&first.value, digits)
            } else {
                says_slot(rest, digits)
            }
        }
    }
}

fn is_digits(value: &Option<Name>, digits: &Name) -> bool
    ensures { result ≡ is_value digits.now value.now }
{
    match value {
        None => false,
        Some(value) => same(digits, value),
    }
}
