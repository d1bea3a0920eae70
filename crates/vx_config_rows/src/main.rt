//! A table of configurations, to be read beside the rules of a disk group. Each line of the input is a row:
//! `KIND | what it shows | BASE | EDIT | WANTED`, where BASE is a file with the text of a configuration. In the texts of a
//! row ` / ` stands for a newline and a tab, and ` // ` for a newline; an edit of a text is `OLD => NEW`, and several are
//! parted by ` ;; `. A row is
//! - `config`: what is answered to the edited text: `read`, the refusal, or the line that does not fit;
//! - `back`: whether a configuration that is read gives the records and the text back;
//! - `view`: whether what is printed of the volume EDIT is the text of the file WANTED;
//! - `lies`: where the plexes of the edited text lie: the strips of each column, each as `SLOT:FIRST+COUNT`;
//! - `plan`: where plexes and logs go on the edited text. Before its edits EDIT has the request, parted from them by ` ;; `: the
//!   mask of the good slots, the sectors of the volume and of its regions, how many columns, the stripe unit, how many
//!   plexes, how many logs, and the names of disks, those to be avoided behind a `-`. The answer has the extents of each
//!   column, each as `DISK:FIRST+COUNT`, or the refusal;
//! - `apply`: what becomes of the configuration by edits: the text of BASE under the edits WANTED, or the refusal;
//! - `fronts`: each front of the text is read or refused at its last line;
//! - `bytes`: the text with each byte in turn replaced by that of EDIT is read or refused at the line of that byte.
//! The stored output was worked out by hand from the rules.
#![tactic(auto)]

mod answer;
mod edits;
mod lies;
mod plans;
mod row;
mod text;
mod torn;
mod trial;

use row::Row;
use std::alloc::AllocError;
use std::rt::Files;
use std::{fs, io, str};
use text::is;
use trial::answer_to;

fn main(rt: HostRuntime) -> io::Result<()> {
    for line in rt.lines(rt.alloc()) {
        let line = line?;
        if !line.as_bytes().is_empty() {
            try_line(&rt, line.as_bytes())?;
        }
    }
    Ok(())
}

fn try_line<R: Files + AllocGlobal + Print>(rt: &R, line: &[u8]) -> io::Result<()> {
    let Some(row) = Row::read(line) else {
        return println!(rt; "a line is no row");
    };
    let base = file(rt, row.base)?;
    let wanted = wanted(rt, &row, &base)?;
    let Ok(answer) = answer_to(rt.alloc(), &row, &base) else {
        return Err(AllocError.into());
    };
    if answer.as_slice() == wanted.as_slice() {
        println!(rt; "{}: ok", shown(row.title))
    } else {
        println!(rt; "{}: answered '{}'", shown(row.title), shown(&answer))
    }
}

fn file<R: Files + AllocGlobal>(rt: &R, name: &[u8]) -> io::Result<Vec<u8>> {
    fs::read(rt, shown(name))
}

/// The answer that is wanted: for a view the text of a file, for edits that are made the edited text.
fn wanted<R: Files + AllocGlobal>(rt: &R, row: &Row, base: &[u8]) -> io::Result<Vec<u8>> {
    if is(row.kind, b"view") && row.wanted.starts_with(b"file ") {
        return file(rt, row.wanted.split_at(5).1);
    }
    let Ok(wanted) = row.wanted_answer(rt.alloc(), base) else {
        return Err(AllocError.into());
    };
    Ok(wanted)
}

fn shown(bytes: &[u8]) -> &str {
    match str::from_utf8(bytes) {
        Ok(text) => text,
        Err(_) => "no text",
    }
}
