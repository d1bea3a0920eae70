ghost use Rattle.std.specs.Prelude.{◌≡◌, ◌+◌, ◌++◌, ◌≤◌, ◌*◌, IfOk, OnOk, length, replicate, take};
ghost use Rattle.vx_copies.specs.Pass.{IsPadded};
ghost use Rattle.vx_copies.specs.Image.{sectors_for};

use std::alloc::Global;
use vx_base::OutOfMemory;

const ZEROS: [u8; 512] = [0; 512];

/// A configuration text with the zeros that fill its last sector.
#[derive(Drop)]
pub struct Text {
    bytes: Vec<u8>,
    size: usize,
    ghost padded: { IsPadded (take size bytes.items) bytes.items },
    ghost inside: { size ≤ length bytes.items },
}

impl Text {
    ghost use Rattle.vx_confdb.specs.Texts.{text_of};

    /// A text of at most 522,240 bytes.
    pub fn of(alloc: Global, text: &[u8]) -> Result<Text, OutOfMemory>
        requires { length text.now ≤ 522240 }
        ensures { IfOk result (λ t. text_of t ≡ text.now) }
    {
        let size = text.len();
        let rest = 512 * sectors_for(size) - size;
        let bytes = with_zeros(alloc, text, rest)?;
        Ok(Text { bytes, size })
    }

    pub fn text(&self) -> &[u8]
        ensures { result.now ≡ text_of self.now }
    {
        &self.bytes[..self.size]
    }

    /// The whole sectors.
    pub fn sectors(&self) -> &[u8]
        ensures { IsPadded (text_of self.now) result.now }
    {
        &self.bytes
    }
}

/// The sectors that a text needs, at least one.
#[tactic(auto, unfolding(vx_copies::specs::Image::sectors_for))]
pub fn sectors_for(bytes: usize) -> usize
    requires { bytes ≤ 522240 }
    ensures sectors { result ≡ sectors_for bytes }
    ensures enough { bytes ≤ 512 * result }
    ensures few { 512 * result ≤ bytes + 512 }
{
    ((bytes + 511) / 512).max(1)
}

fn with_zeros(alloc: Global, text: &[u8], rest: usize) -> Result<Vec<u8>, OutOfMemory>
    requires { rest ≤ 512 }
    ensures { IfOk result (λ v. v.items ≡ text.now ++ take rest (replicate 512 0)) }
{
    let mut bytes = Vec::new(alloc);
    put(text, &mut bytes)?;
    put(&ZEROS[..rest], &mut bytes)?;
    Ok(bytes)
}

fn put(more: &[u8], out: &mut Vec<u8>) -> Result<(), OutOfMemory>
    ensures { OnOk result (out.new.items ≡ out.old.items ++ more.now) }
{
    out.extend_from_slice(more)?;
    Ok(())
}
