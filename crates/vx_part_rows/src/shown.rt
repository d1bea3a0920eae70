//! Bytes of a sector as they are printed.
ghost use Rattle.std.specs.Prelude.{◌≤◌};

use std::io;

/// Prints the bytes of a part of a sector in hexadecimal digits, behind a title.
pub fn put_bytes<R: AllocGlobal + Print>(
    rt: &R,
    title: &str,
    sector: &[u8; 512],
    start: usize,
    end: usize,
) -> io::Result<()>
    requires order { start ≤ end }
    requires inside { end ≤ 512 }
{
    let digits = hex::encode(rt.alloc(), &sector[start..end])?;
    println!(rt; "{title}: {}", digits.as_str())
}

pub fn text(bytes: &[u8]) -> &str {
    match std::str::from_utf8(bytes) {
        Ok(text) => text,
        Err(_) => "no text",
    }
}
