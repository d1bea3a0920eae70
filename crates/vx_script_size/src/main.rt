//! Reads scripts that it makes itself, to show what a script of a size costs to read. Each line of the input is a kind
//! and a number of bytes: `calls 4096` stands for reads and writes in turn that take so many bytes at most, `blocks 4096`
//! for the same calls in blocks of 16 sessions with 65,536 lines; the other kinds, `reads`, `shortest`, `equal`, .., are
//! told at `Kind`. Printed are the bytes, and how many lines are of the kind and how many commands were read.
#![tactic(auto)]

mod made;

use made::{Kind, made};
use std::alloc::{AllocError, Global};
use std::io;
use vx_base::OutOfMemory;
use vx_script::read;

fn main(rt: HostRuntime) -> io::Result<()> {
    for line in rt.lines(rt.alloc()) {
        match answer(rt.alloc(), line?.as_str()) {
            Ok(text) => println!(rt; "{text}")?,
            Err(_) => return Err(AllocError.into()),
        }
    }
    Ok(())
}

fn answer(alloc: Global, row: &str) -> Result<String, OutOfMemory> {
    let Some((kind, bytes)) = asked(row) else {
        return Ok(format!(in alloc; "no kind and size")?);
    };
    let (script, calls) = made(alloc, kind, bytes)?;
    let bytes = script.len();
    match read(alloc, script.as_slice()) {
        Ok(script) => {
            let commands = script.commands.as_slice().len();
            Ok(format!(in alloc; "bytes {bytes} calls {calls} commands {commands}")?)
        }
        Err(_) => Ok(format!(in alloc; "not read")?),
    }
}

/// The kind and the size that a row asks for.
fn asked(row: &str) -> Option<(Kind, usize)> {
    let (kind, bytes) = row.split_once(' ')?;
    let bytes = bytes.parse::<usize>().ok()?;
    match kind {
        "calls" => Some((Kind::Calls, bytes)),
        "blocks" => Some((Kind::Blocks, bytes)),
        "reads" => Some((Kind::Reads, bytes)),
        "shortest" => Some((Kind::Shortest, bytes)),
        "equal" => Some((Kind::Equal, bytes)),
        "digits" => Some((Kind::Digits, bytes)),
        "pairs" => Some((Kind::Pairs, bytes)),
        "names" => Some((Kind::Names, bytes)),
        "records" => Some((Kind::Records, bytes)),
        "acts" => Some((Kind::Acts, bytes)),
        _ => None,
    }
}
