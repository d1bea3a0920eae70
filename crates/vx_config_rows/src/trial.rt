//! What a row answers.
use crate::answer::{joined, named, refusal, unprinted};
use crate::edits::edits_of;
use crate::lies::lies;
use crate::plans::planned;
use crate::row::Row;
use crate::text::{edited, is, parted};
use crate::torn::{bytes, fronts};
use std::alloc::Global;
use vx_base::OutOfMemory;
use vx_names::Name;
use vx_objects::Config;
use vx_print::print_m;
use vx_record::{RecordFault, print, read};

pub fn answer_to(alloc: Global, row: &Row, base: &[u8]) -> Result<Vec<u8>, OutOfMemory> {
    if is(row.kind, b"config") {
        let text = edited(alloc, base, row.edit)?;
        return said(alloc, &text);
    }
    if is(row.kind, b"lies") {
        let text = edited(alloc, base, row.edit)?;
        return match config_of(alloc, &text) {
            Ok(config) => lies(alloc, &config),
            Err(said) => said,
        };
    }
    if is(row.kind, b"plan") {
        return plan(alloc, row, base);
    }
    if is(row.kind, b"fronts") {
        return fronts(alloc, base);
    }
    if is(row.kind, b"bytes") {
        return bytes(alloc, base, row.edit);
    }
    match config_of(alloc, base) {
        Ok(mut config) => answer_of(alloc, row, base, &mut config),
        Err(said) => said,
    }
}

/// Where plexes and logs go on the text after the edits, which stand behind the words of the request.
fn plan(alloc: Global, row: &Row, base: &[u8]) -> Result<Vec<u8>, OutOfMemory> {
    let (words, edits) = match parted(row.edit, b" ;; ") {
        Some(parts) => parts,
        None => (row.edit, b"".as_slice()),
    };
    let text = edited(alloc, base, edits)?;
    match config_of(alloc, &text) {
        Ok(config) => planned(alloc, words, &config),
        Err(said) => said,
    }
}

fn answer_of(
    alloc: Global,
    row: &Row,
    base: &[u8],
    config: &mut Config,
) -> Result<Vec<u8>, OutOfMemory> {
    if is(row.kind, b"back") {
        back(alloc, base, config)
    } else if is(row.kind, b"view") {
        view(alloc, row.edit, config)
    } else if is(row.kind, b"apply") {
        applied(alloc, row.edit, config)
    } else {
        joined(alloc, b"no kind of row", b"")
    }
}

/// What is answered to the text of a configuration.
fn said(alloc: Global, text: &[u8]) -> Result<Vec<u8>, OutOfMemory> {
    match config_of(alloc, text) {
        Ok(_) => joined(alloc, b"read", b""),
        Err(said) => said,
    }
}

/// The configuration that the text says, or the answer where it says none.
fn config_of(alloc: Global, text: &[u8]) -> Result<Config, Result<Vec<u8>, OutOfMemory>> {
    let records = match read(alloc, text) {
        Ok(records) => records,
        Err(RecordFault::BadRecord(line)) => {
            return Err(named(alloc, b"line ", &Name::number(line)));
        }
        Err(RecordFault::OutOfMemory) => return Err(Err(OutOfMemory)),
    };
    match Config::read(alloc, records.as_slice()) {
        Ok(config) => Ok(config),
        Err(fault) => Err(refusal(alloc, &fault)),
    }
}

/// The records that the configuration gives are those of its objects, print as the text, and are read as it.
fn back(alloc: Global, text: &[u8], config: &Config) -> Result<Vec<u8>, OutOfMemory> {
    let records = config.records(alloc)?;
    let mut printed = Vec::new(alloc);
    print(records.as_slice(), &mut printed)?;
    let objects = config.objects(alloc)?;
    let made = match Config::from_objects(alloc, &objects) {
        Ok(made) => made,
        Err(fault) => return refusal(alloc, &fault),
    };
    let again = match Config::read(alloc, records.as_slice()) {
        Ok(again) => again,
        Err(fault) => return refusal(alloc, &fault),
    };
    let is_back = printed.as_slice() == text
        && gives(alloc, &made, text)?
        && gives(alloc, &again, text)?;
    joined(alloc, if is_back { b"back" } else { b"another text" }, b"")
}

fn gives(alloc: Global, config: &Config, text: &[u8]) -> Result<bool, OutOfMemory> {
    let mut printed = Vec::new(alloc);
    print(config.records(alloc)?.as_slice(), &mut printed)?;
    Ok(printed.as_slice() == text)
}

/// The text that is printed of the volume, or of all where none is named.
fn view(alloc: Global, vol: &[u8], config: &Config) -> Result<Vec<u8>, OutOfMemory> {
    match Name::read(vol) {
        Ok(name) => printed(alloc, Some(&name), config),
        Err(_) => printed(alloc, None, config),
    }
}

fn printed(alloc: Global, only: Option<&Name>, config: &Config) -> Result<Vec<u8>, OutOfMemory> {
    let mut text = Vec::new(alloc);
    match print_m(alloc, config, only, &mut text) {
        Ok(()) => Ok(text),
        Err(fault) => unprinted(alloc, &fault),
    }
}

/// The text of the configuration after the edits, or why they were refused. After a refusal the configuration is as it
/// was.
fn applied(alloc: Global, words: &[u8], config: &mut Config) -> Result<Vec<u8>, OutOfMemory> {
    let Some(edits) = edits_of(alloc, words)? else {
        return joined(alloc, b"no edit", b"");
    };
    let before = view(alloc, b"", config)?;
    let answer = config.apply(alloc, &edits);
    let after = view(alloc, b"", config)?;
    match answer {
        Ok(()) => Ok(after),
        Err(_) if after.as_slice() != before.as_slice() => joined(alloc, b"half changed", b""),
        Err(fault) => refusal(alloc, &fault),
    }
}
