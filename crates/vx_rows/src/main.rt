//! Worked rows, kept as data: each is a script over devices in memory, with the answers and the status that are wanted.
//! A run of each is compared with them, and a line tells `ok`, or the first thing that differs.
#![tactic(auto)]

mod build;
mod compare;
mod difference;
mod line;
mod row;
mod trial;

use row::{Row, RowFault};
use std::io::{self, ErrorKind};
use std::rt::Files;
use std::{env, fs};
use trial::try_row;

/// Tries the rows of the files that the words name, in order.
fn main(rt: HostRuntime) -> io::Result<()> {
    for file in env::args(&rt)?.skip(1) {
        try_file(&rt, file.as_str())?;
    }
    Ok(())
}

fn try_file<R: Files + AllocGlobal + Print>(rt: &R, file: &str) -> io::Result<()> {
    let text = fs::read_to_string(rt, file)?;
    match Row::read(rt.alloc(), text.as_str()) {
        Ok(row) => tell(rt, &row),
        Err(RowFault::Unknown(place)) => println!(rt; "{file}: line {place} is no line of a row"),
        Err(RowFault::OutOfMemory) => Err(io::Error::from(ErrorKind::OutOfMemory)),
    }
}

fn tell<R: AllocGlobal + Print>(rt: &R, row: &Row) -> io::Result<()> {
    match try_row(rt.alloc(), row) {
        Ok(None) => println!(rt; "{}: ok", row.title),
        Ok(Some(difference)) => println!(rt; "{}: {difference}", row.title),
        Err(_) => Err(io::Error::from(ErrorKind::OutOfMemory)),
    }
}
