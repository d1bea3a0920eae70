use std::alloc::{AllocError, Global};
use vx_base::OutOfMemory;

/// What the lines of a script are.
#[derive(Clone, Copy, PartialEq, Eq)]
pub enum Kind {
    /// Reads and writes in turn, each a command.
    Calls,
    /// The same in blocks of 16 sessions.
    Blocks,
    /// Reads of one block, whose number has six digits.
    Reads,
    /// `read v 0 1`, the shortest call.
    Shortest,
    /// Writes of 64 blocks `=00`.
    Equal,
    /// Writes of a block of 1,024 digits.
    Digits,
    /// Groups of 1,000 disks with names of one letter.
    Pairs,
    /// Mirrors on 1,000 disks with names of one letter.
    Names,
    /// Record texts of 1,000 lines.
    Records,
    /// Acts of the administering session, in one block.
    Acts,
}

/// The calls of a block, as many as it may have.
const IN_BLOCK: usize = 65_536;

/// A script of at most so many bytes, and how many lines of its kind it has.
pub fn made(alloc: Global, kind: Kind, bytes: usize) -> Result<(Vec<u8>, usize), OutOfMemory> {
    let mut script = Vec::with_capacity(alloc, bytes)?;
    for n in 0..bytes {
        let line = line(alloc, kind, n)?;
        let front = front(kind, n);
        let back = back(kind);
        let whole = front
            .len()
            .saturating_add(line.len())
            .saturating_add(back.len());
        if script.len().saturating_add(whole) > bytes {
            if n > 0 {
                script.extend_from_slice(back)?;
            }
            return Ok((script, n));
        }
        script.extend_from_slice(front)?;
        script.extend_from_slice(line.as_bytes())?;
    }
    Ok((script, 0))
}

/// What stands before a line: the block before it ends, and the next one begins.
fn front(kind: Kind, n: usize) -> &'static [u8] {
    match kind {
        Kind::Blocks if n == 0 => b"sessions 16\n",
        Kind::Blocks if n % IN_BLOCK == 0 => b"end\nsessions 16\n",
        Kind::Acts if n == 0 => b"sessions 1\n",
        _ => b"",
    }
}

/// What ends the script.
fn back(kind: Kind) -> &'static [u8] {
    match kind {
        Kind::Blocks | Kind::Acts => b"end\n",
        _ => b"",
    }
}

fn line(alloc: Global, kind: Kind, n: usize) -> Result<String, AllocError> {
    let block = 100_000 + n % 900_000;
    match kind {
        Kind::Calls => call(alloc, n),
        Kind::Blocks => {
            let call = call(alloc, n)?;
            format!(in alloc; "{} {call}", n % 16 + 1)
        }
        Kind::Reads => format!(in alloc; "read v {block} 1\n"),
        Kind::Shortest => format!(in alloc; "read v 0 1\n"),
        Kind::Equal => repeated(alloc, "write v 0 data", " =00", 64, "\n"),
        Kind::Digits => repeated(alloc, "write v 0 data ", "0123456789abcdef", 64, "\n"),
        Kind::Pairs => repeated(alloc, "vxdg init g", " a=b", 1_000, "\n"),
        Kind::Names => repeated(alloc, "vxassist mirror v", " a", 1_000, "\n"),
        Kind::Records => repeated(alloc, "vxmake -d\n", "dm a device=b\n", 1_000, "end\n"),
        Kind::Acts => format!(in alloc; "0 vxplex det p\n"),
    }
}

/// A read or a write of a block whose number has six digits. In a block each session has every 16th.
fn call(alloc: Global, n: usize) -> Result<String, AllocError> {
    let block = 100_000 + n % 900_000;
    let byte = n / 2 % 256;
    if n % 2 == 0 {
        format!(in alloc; "read v {block} 1\n")
    } else {
        format!(in alloc; "write v {block} 1 fill {byte:02x}\n")
    }
}

fn repeated(
    alloc: Global,
    head: &str,
    word: &str,
    times: usize,
    tail: &str,
) -> Result<String, AllocError> {
    let mut text = String::new(alloc);
    text.push_str(head)?;
    for _ in 0..times {
        text.push_str(word)?;
    }
    text.push_str(tail)?;
    Ok(text)
}
