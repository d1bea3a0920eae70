use crate::prefixes::prefixes;
use std::alloc::Global;
use vx_base::OutOfMemory;
use vx_script::{Script, ScriptFault, read};
use vx_script_print::print;

/// What is printed of a row: of its script, or of all prefixes of its script.
pub fn answer(alloc: Global, row: &[u8], out: &mut Vec<u8>) -> Result<(), OutOfMemory> {
    match row {
        [b'\\', b'p', row @ ..] => prefixes(alloc, script_of(alloc, row)?.as_slice(), out),
        _ => whole(alloc, script_of(alloc, row)?.as_slice(), out),
    }
}

fn whole(alloc: Global, script: &[u8], out: &mut Vec<u8>) -> Result<(), OutOfMemory> {
    match read(alloc, script) {
        Ok(script) => spelled(alloc, &script, out),
        Err(ScriptFault::Script(line, column)) => {
            let place = format!(in alloc; "place {line} {column}\n")?;
            out.extend_from_slice(place.as_bytes())?;
            Ok(())
        }
        Err(ScriptFault::OutOfMemory) => Err(OutOfMemory),
    }
}

fn spelled(alloc: Global, script: &Script, out: &mut Vec<u8>) -> Result<(), OutOfMemory> {
    let count = script.commands.as_slice().len();
    let head = format!(in alloc; "commands {count}\n")?;
    out.extend_from_slice(head.as_bytes())?;
    print(alloc, script, out)
}

/// The script that a row stands for.
fn script_of(alloc: Global, row: &[u8]) -> Result<Vec<u8>, OutOfMemory> {
    let mut script = Vec::new(alloc);
    let mut is_escaped = false;
    for byte in row {
        if is_escaped {
            script.push(escaped(*byte))?;
            is_escaped = false;
        } else if *byte == b'\\' {
            is_escaped = true;
        } else {
            script.push(*byte)?;
        }
    }
    Ok(script)
}

fn escaped(byte: u8) -> u8 {
    match byte {
        b'n' => b'\n',
        b't' => b'\t',
        b'r' => b'\r',
        b'b' => 1,
        b'd' => 127,
        other => other,
    }
}
