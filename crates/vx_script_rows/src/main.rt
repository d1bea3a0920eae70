//! A table of scripts to be read beside the forms of the language. Each line of the input is a script, in which `\n`,
//! `\t`, `\r`, `\b` and `\d` stand for a newline, a tab, a carriage return, a byte 1 and a byte 127. For a script that
//! is read its number of commands is printed, and behind it the script in the one spelling; for another the line and the
//! column of the first word that does not fit. Where a line begins with `\p`, all prefixes of its script are read, and
//! each that is a script is printed and read back: each line of the output then names the lengths, and the commands or
//! the place. The stored output was worked out by hand from the forms.
#![tactic(auto)]

mod prefixes;
mod row;

use row::answer;
use std::alloc::AllocError;
use std::{io, str};

fn main(rt: HostRuntime) -> io::Result<()> {
    for line in rt.lines(rt.alloc()) {
        let mut out = Vec::new(rt.alloc());
        if answer(rt.alloc(), line?.as_bytes(), &mut out).is_err() {
            return Err(AllocError.into());
        }
        match str::from_utf8(out.as_slice()) {
            Ok(text) => print!(rt; "{text}")?,
            Err(_) => println!(rt; "no text")?,
        }
    }
    Ok(())
}
