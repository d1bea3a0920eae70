//! The bytes that a write hands over.
ghost use Rattle.std.specs.Prelude.{◌≡◌, ◌≤◌, IfOk, length, replicate};

use std::alloc::Global;
use vx_base::{BLOCK, OutOfMemory};
use vx_script_words::Blocks;

/// So many of one byte.
pub fn filled(alloc: Global, length: usize, byte: u8) -> Result<Vec<u8>, OutOfMemory>
    ensures { IfOk result (λ bytes. bytes.items ≡ replicate length byte) }
{
    let bytes = vec![in alloc; byte; length]?;
    Ok(bytes)
}

/// The bytes of blocks.
pub fn bytes_of(alloc: Global, blocks: &Blocks) -> Result<Vec<u8>, OutOfMemory>
    requires { length blocks.now ≤ 32768 }
    ensures { IfOk result (λ bytes. bytes.items ≡ blocks.now) }
{
    let count = blocks.count();
    let mut bytes = Vec::with_capacity(alloc, BLOCK * count)?;
    let mut block = [0u8; BLOCK];
    for index in 0..count {
        blocks.copy_block(index, &mut block);
        bytes.extend_from_slice(&block)?;
    }
    Ok(bytes)
}
