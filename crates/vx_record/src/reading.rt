ghost use Rattle.std.specs.Prelude.{◌≡◌, ◌+◌, ◌^◌, ◌<◌, ◌≤◌, ◌∷◌, ◌++◌, ℕ, List, length, map, drop, [], IsTrue, IfOk, IfErr, OnOk};
ghost use Rattle.std.specs.List.{list_all};
ghost use Rattle.vx_names.specs.Attribute.{is_attr};
ghost use Rattle.vx_record.specs.Content.{Content};
ghost use Rattle.vx_record.specs.Grammar.{IsRecord, Spells, IsReadFault, IsReadAs, attr_line, lines, record_lines};
ghost use Rattle.vx_record.specs.Reading.{AddsAttr, IsLineFault, IsAttrsFault, IsRecordFault};
ghost use Rattle.vx_record.specs.Table.{attrs_fit};
ghost use Rattle.vx_record.specs.declared.fault.RecordFault.TheVariants.{OutOfMemory};

use crate::column::{Column, columns};
use crate::fault::RecordFault;
use crate::line::{line_len, read_attr, read_head};
use crate::lists::{Attrs, Records};
use crate::record::Record;
use std::alloc::Global;
use vx_names::{Attr, Name};

/// A record, the bytes of its lines, and how many lines these are.
#[derive(Drop)]
struct Found {
    record: Record,
    used: usize,
    lines: u64,
}

/// Attributes, and the bytes of their lines.
#[derive(Drop)]
struct FoundAttrs {
    attrs: Attrs,
    used: usize,
}

/// The records that the text is.
pub fn read(alloc: Global, text: &[u8]) -> Result<Records, RecordFault>
    ensures spelled { IfOk result (Spells text.now) }
    ensures only { (records : List Content) → Spells text.now records → IsReadAs records result }
    ensures fault { IfErr result (IsReadFault text.now) }
{
    let mut records = Vec::new(alloc);
    let mut at = 0;
    let mut line = 1;
    while at < text.len() {
        let found = read_record(alloc, text.split_at(at).1, line)?;
        let Found {
            record,
            used,
            lines,
        } = found;
        records.push(record)?;
        at += used;
        line += lines;
    }
    Ok(Records::from_vec(records))
}

/// The record at the front of the text, whose first line has the number.
fn read_record(alloc: Global, text: &[u8], line: u64) -> Result<Found, RecordFault>
    requires some { 0 < length text.now }
    requires room { line + 8 < 2 ^ 64 }
    ensures lines { IfOk result (λ f. lines text.now ≡ record_lines f.record ++ lines (drop f.used text.now)) }
    ensures valid { IfOk result (λ f. IsRecord f.record) }
    ensures used { IfOk result (λ f. (0 < f.used) × (f.used ≤ length text.now)) }
    ensures count { IfOk result (λ f. f.lines ≡ length (record_lines f.record)) }
    ensures fault { IfErr result (IsRecordFault line (lines text.now)) }
{
    let head_len = line_len(text);
    let (first, rest) = text.split_at(head_len);
    let Some(head) = read_head(first) else {
        return Err(RecordFault::BadRecord(line));
    };
    let found = read_attrs(alloc, columns(head.kind), rest, line + 1)?;
    let lines = 1 + found.attrs.as_slice().len() as u64;
    let record = Record {
        kind: head.kind,
        name: head.name,
        attrs: found.attrs,
    };
    Ok(Found {
        record,
        used: head_len + found.used,
        lines,
    })
}

/// The attributes of the columns at the front of the text, whose first line has the number.
fn read_attrs(
    alloc: Global,
    columns: &[Column],
    text: &[u8],
    line: u64,
) -> Result<FoundAttrs, RecordFault>
    requires { line + length columns.now < 2 ^ 64 }
    ensures lines { IfOk result (λ f. lines text.now ≡ map attr_line f.attrs ++ lines (drop f.used text.now)) }
    ensures names { IfOk result (λ f. IsTrue (list_all is_attr f.attrs)) }
    ensures fit { IfOk result (λ f. IsTrue (attrs_fit columns.now f.attrs)) }
    ensures used { IfOk result (λ f. f.used ≤ length text.now) }
    ensures fault { IfErr result (IsAttrsFault line columns.now (lines text.now)) }
{
    let mut attrs = Vec::new(alloc);
    let mut used = 0;
    for (index, column) in columns.iter().enumerate() {
        let rest = text.split_at(used).1;
        used += take_attr(&mut attrs, rest, *column, line + index as u64)?;
    }
    Ok(FoundAttrs {
        attrs: Attrs::from_vec(attrs),
        used,
    })
}

/// Adds the attribute of the column at the front of the text, and answers the bytes of its line.
fn take_attr(
    attrs: &mut Vec<Attr>,
    text: &[u8],
    column: Column,
    line: u64,
) -> Result<usize, RecordFault>
    ensures ok { IfOk result (AddsAttr attrs.old.items attrs.new.items column text.now) }
    ensures inside { IfOk result (λ used. used ≤ length text.now) }
    ensures fault { IfErr result (IsLineFault line column (lines text.now)) }
{
    let len = line_len(text);
    match read_attr(text.split_at(len).0, column) {
        Some(attr) => {
            push_attr(attrs, attr.name, attr.value)?;
            Ok(len)
        }
        None => Err(RecordFault::BadRecord(line)),
    }
}

/// Adds an attribute; its parts stand apart, since the prover wants to see their types here.
fn push_attr(attrs: &mut Vec<Attr>, name: Name, value: Option<Name>) -> Result<(), RecordFault>
    ensures ok { OnOk result (attrs.new.items ≡ attrs.old.items ++ record { name = name; value = value } ∷ []) }
    ensures err { IfErr result (λ e. e ≡ OutOfMemory) }
{
    match attrs.push(Attr { name, value }) {
        Ok(()) => Ok(()),
        Err(_) => Err(RecordFault::OutOfMemory),
    }
}
