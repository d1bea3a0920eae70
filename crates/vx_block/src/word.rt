ghost use Rattle.std.specs.Prelude.{◌≡◌, ◌++◌, ◌<◌, ◌==◌, ◌&&◌, true, length, OnOk};
ghost use Rattle.std.specs.List.{flat_map, list_all, fold};
ghost use Rattle.vx_block.specs.Word.{block_word, hex, hex_digit};

use vx_base::OutOfMemory;

/// Appends the word of a block: `=XX` where all bytes are equal, else all hexadecimal digits.
pub fn put_block(block: &[u8], out: &mut Vec<u8>) -> Result<(), OutOfMemory>
    requires { length block.now ≡ 512 }
    ensures ok { OnOk result (out.new.items ≡ out.old.items ++ block_word block.now) }
{
    let first = block[0];
    if is_all(block, first) {
        out.push(b'=')?;
        put_hex(first, out)?;
        return Ok(());
    }
    put_hexes(block, out)
}

fn is_all(bytes: &[u8], byte: u8) -> bool
    ensures { result ≡ list_all (λ x. x == byte) bytes.now }
{
    are_all(bytes, byte)
}

/// Goes over all bytes, also where an early one differs, so that many are compared at a time.
fn are_all(bytes: &[u8], byte: u8) -> bool
    ensures { result ≡ fold (λ same x. same && (x == byte)) true bytes.now }
{
    bytes.iter().fold(true, |same, b| same & (*b == byte))
}

fn put_hexes(bytes: &[u8], out: &mut Vec<u8>) -> Result<(), OutOfMemory>
    ensures ok { OnOk result (out.new.items ≡ out.old.items ++ flat_map hex bytes.now) }
{
    for b in bytes {
        put_hex(*b, out)?;
    }
    Ok(())
}

/// Appends two lower-case hexadecimal digits.
pub fn put_hex(byte: u8, out: &mut Vec<u8>) -> Result<(), OutOfMemory>
    ensures ok { OnOk result (out.new.items ≡ out.old.items ++ hex byte) }
{
    out.push(digit(byte / 16))?;
    out.push(digit(byte % 16))?;
    Ok(())
}

fn digit(value: u8) -> u8
    requires { value < 16 }
    ensures { result ≡ hex_digit value }
{
    if value < 10 {
        b'0' + value
    } else {
        b'a' - 10 + value
    }
}
