//! The line of each row. After an error a part of a line may be appended.
ghost use Rattle.std.specs.Prelude.{◌≡◌, ◌++◌, OnOk, decimal};
ghost use Rattle.std.specs.List.{flat_map};
ghost use Rattle.vx_hierarchy.specs.Lines.{ended, head, last_pair, plex_line, row_line, subdisk_line, volume_line, word};

use crate::kernel::Kernel;
use crate::row::Row;
use itoa::Buffer;
use vx_base::OutOfMemory;
use vx_names::Name;
use vx_objects::{Plex, Subdisk, Vol};

/// Appends the lines of the rows.
pub(crate) fn put_rows(rows: &[Row], out: &mut Vec<u8>) -> Result<(), OutOfMemory>
    ensures { OnOk result (out.new.items ≡ out.old.items ++ flat_map row_line rows.now) }
{
    for row in rows {
        put_row(row, out)?;
    }
    Ok(())
}

fn put_row(row: &Row, out: &mut Vec<u8>) -> Result<(), OutOfMemory>
    ensures { OnOk result (out.new.items ≡ out.old.items ++ row_line row.now) }
{
    match row {
        Row::VolumeRow(vol, kernel) => put_volume(vol, *kernel, out),
        Row::PlexRow(plex, vol, kernel, len) => put_plex(plex, vol, *kernel, *len, out),
        Row::SubdiskRow(subdisk, plex, _) => put_subdisk(subdisk, plex, out),
    }
}

fn put_volume(vol: &Vol, kernel: Kernel, out: &mut Vec<u8>) -> Result<(), OutOfMemory>
    ensures { OnOk result (out.new.items ≡ out.old.items ++ volume_line vol.now kernel) }
{
    put_word(b"v", out)?;
    put_word(vol.name.as_bytes(), out)?;
    put_word(kernel.word(), out)?;
    put_word(vol.state.word(), out)?;
    put_count(vol.len, out)?;
    put_ended(vol.rdpol.word(), b'\n', out)
}

fn put_plex(
    plex: &Plex,
    vol: &Name,
    kernel: Kernel,
    len: u128,
    out: &mut Vec<u8>,
) -> Result<(), OutOfMemory>
    ensures { OnOk result (out.new.items ≡ out.old.items ++ plex_line plex.now vol.now kernel len) }
{
    put_head(b"pl", &plex.name, vol, out)?;
    put_word(kernel.word(), out)?;
    put_word(plex.state.word(), out)?;
    put_number(len, b' ', out)?;
    put_word(plex.layout.word(), out)?;
    put_last_pair(plex.ncol, plex.unit, out)
}

fn put_subdisk(subdisk: &Subdisk, plex: &Name, out: &mut Vec<u8>) -> Result<(), OutOfMemory>
    ensures { OnOk result (out.new.items ≡ out.old.items ++ subdisk_line subdisk.now plex.now) }
{
    put_head(b"sd", &subdisk.name, plex, out)?;
    put_word(subdisk.disk.as_bytes(), out)?;
    put_count(subdisk.off, out)?;
    put_count(subdisk.len, out)?;
    put_last_pair(subdisk.col, subdisk.at, out)
}

/// Appends the kind of what a line shows, its name, and the name of what it is in.
fn put_head(kind: &[u8], name: &Name, above: &Name, out: &mut Vec<u8>) -> Result<(), OutOfMemory>
    ensures { OnOk result (out.new.items ≡ out.old.items ++ head kind.now name.now above.now) }
{
    put_word(kind, out)?;
    put_word(name.as_bytes(), out)?;
    put_word(above.as_bytes(), out)
}

/// Appends two numbers with a stroke between them, as the last word of a line.
fn put_last_pair(a: u32, b: u64, out: &mut Vec<u8>) -> Result<(), OutOfMemory>
    ensures { OnOk result (out.new.items ≡ out.old.items ++ last_pair a b) }
{
    put_number(a as u128, b'/', out)?;
    put_number(b as u128, b'\n', out)
}

/// Appends a number, and a blank.
fn put_count(number: u64, out: &mut Vec<u8>) -> Result<(), OutOfMemory>
    ensures { OnOk result (out.new.items ≡ out.old.items ++ word (decimal number)) }
{
    put_number(number as u128, b' ', out)
}

/// Appends a number, and what ends it.
fn put_number(number: u128, end: u8, out: &mut Vec<u8>) -> Result<(), OutOfMemory>
    ensures { OnOk result (out.new.items ≡ out.old.items ++ ended (decimal number) end) }
{
    let mut buffer = Buffer::new();
    put_ended(buffer.format(number).as_bytes(), end, out)
}

/// Appends a word, and a blank.
fn put_word(bytes: &[u8], out: &mut Vec<u8>) -> Result<(), OutOfMemory>
    ensures { OnOk result (out.new.items ≡ out.old.items ++ word bytes.now) }
{
    put_ended(bytes, b' ', out)
}

/// Appends a word, and what ends it.
fn put_ended(bytes: &[u8], end: u8, out: &mut Vec<u8>) -> Result<(), OutOfMemory>
    ensures { OnOk result (out.new.items ≡ out.old.items ++ ended bytes.now end) }
{
    out.extend_from_slice(bytes)?;
    out.push(end)?;
    Ok(())
}
