//! The line that names the place of a script's fault.
ghost use Rattle.std.specs.Prelude.{◌≡◌, ◌++◌, OnOk, IfOk};
ghost use Rattle.std.specs.Fmt.{decimal};
ghost use Rattle.vx_run.specs.Top.{place_line};

use itoa::Buffer;
use std::alloc::Global;
use vx_base::OutOfMemory;

/// `script LINE COLUMN` and a newline.
pub fn line_of_place(alloc: Global, line: u64, column: u64) -> Result<Vec<u8>, OutOfMemory>
    ensures { IfOk result (λ text. text.items ≡ place_line (record { line = line; column = column })) }
{
    let mut text = Vec::from_slice(alloc, b"script ")?;
    put_number(line, &mut text)?;
    text.extend_from_slice(b" ")?;
    put_number(column, &mut text)?;
    text.extend_from_slice(b"\n")?;
    Ok(text)
}

fn put_number(number: u64, out: &mut Vec<u8>) -> Result<(), OutOfMemory>
    ensures ok { OnOk result (out.new.items ≡ out.old.items ++ decimal number) }
{
    let mut buffer = Buffer::new();
    out.extend_from_slice(buffer.format(number).as_bytes())?;
    Ok(())
}
