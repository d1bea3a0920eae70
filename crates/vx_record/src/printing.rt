ghost use Rattle.std.specs.Prelude.{◌≡◌, ◌++◌, OnOk, IsTrue};
ghost use Rattle.std.specs.List.{list_all, flat_map};
ghost use Rattle.vx_names.specs.Attribute.{is_attr};
ghost use Rattle.vx_names.specs.Form.{is_name};
ghost use Rattle.vx_record.specs.Grammar.{AreRecords, IsRecord, head_line, attr_line, record_text, records_text};

use crate::kind::Kind;
use crate::record::Record;
use vx_base::OutOfMemory;
use vx_names::{Attr, Name};

/// Appends the text of the records. After an error a part of it may be appended.
pub fn print(records: &[Record], out: &mut Vec<u8>) -> Result<(), OutOfMemory>
    ensures text { OnOk result (out.new.items ≡ out.old.items ++ records_text records.now) }
    ensures form { OnOk result (AreRecords records.now) }
{
    for record in records {
        put_record(record, out)?;
    }
    Ok(())
}

fn put_record(entry: &Record, out: &mut Vec<u8>) -> Result<(), OutOfMemory>
    ensures text { OnOk result (out.new.items ≡ out.old.items ++ record_text entry.now) }
    ensures form { OnOk result (IsRecord entry.now) }
{
    put_head(entry.kind, &entry.name, out)?;
    put_attrs(entry.attrs.as_slice(), out)
}

fn put_head(kind: Kind, name: &Name, out: &mut Vec<u8>) -> Result<(), OutOfMemory>
    ensures text { OnOk result (out.new.items ≡ out.old.items ++ head_line kind name.now) }
    ensures form { OnOk result (IsTrue (is_name name.now)) }
{
    out.extend_from_slice(kind.word())?;
    out.push(b' ')?;
    name.put(out)?;
    out.push(b'\n')?;
    Ok(())
}

fn put_attrs(attrs: &[Attr], out: &mut Vec<u8>) -> Result<(), OutOfMemory>
    ensures text { OnOk result (out.new.items ≡ out.old.items ++ flat_map attr_line attrs.now) }
    ensures form { OnOk result (IsTrue (list_all is_attr attrs.now)) }
{
    for attr in attrs {
        put_attr_line(attr, out)?;
    }
    Ok(())
}

fn put_attr_line(attr: &Attr, out: &mut Vec<u8>) -> Result<(), OutOfMemory>
    ensures text { OnOk result (out.new.items ≡ out.old.items ++ attr_line attr.now) }
    ensures form { OnOk result (IsTrue (is_attr attr.now)) }
{
    out.push(b'\t')?;
    attr.put(out)?;
    out.push(b'\n')?;
    Ok(())
}
