ghost use Rattle.std.specs.Prelude.{◌≡◌, ◌++◌, ◌*◌, ◌<◌, [], length, true, IfOk};
ghost use Rattle.vx_script_words.specs.Blocks.{block_bytes, is_whole, block_at};

use crate::BlockOf;
use std::alloc::Global;
use std::marker::Model;
use vx_base::{BLOCK, OutOfMemory};

/// Blocks of 512 bytes one behind the other, of which those of equal bytes are kept as the byte. Contracts see all bytes.
#[derive(Drop)]
pub struct Blocks {
    items: Vec<BlockOf>,
}

impl Model for Blocks {
    ghost use Rattle.std.specs.Prelude.{◌≡◌, List, ℕ, true};
    ghost use Rattle.std.specs.List.{list_all, flat_map};
    ghost use Rattle.vx_script_words.specs.Blocks.{block_bytes, is_whole};

    ghost Value = { List ℕ };

    ghost view = { λ b. flat_map block_bytes b.items.items };

    ghost invariant = { λ b. list_all is_whole b.items.items ≡ true };
}

impl Blocks {
    pub fn new(alloc: Global) -> Blocks
        ensures { result ≡ [] }
    {
        let items = Vec::new(alloc);
        Blocks { items }
    }

    /// The blocks with one more behind them.
    pub fn with(self, block: BlockOf) -> Result<Blocks, OutOfMemory>
        requires { is_whole block ≡ true }
        ensures { IfOk result (λ blocks. blocks ≡ self ++ block_bytes block) }
    {
        let Blocks { mut items } = self;
        items.push(block)?;
        Ok(Blocks { items })
    }

    /// How many blocks there are.
    pub fn count(&self) -> usize
        ensures { 512 * result ≡ length self.now }
    {
        self.items.as_slice().len()
    }

    /// Copies the block at the index, from 0.
    pub fn copy_block(&self, index: usize, into: &mut [u8])
        requires inside { 512 * index < length self.now }
        requires size { length into.old ≡ 512 }
        ensures { into.new ≡ block_at index self.now }
    {
        let items = self.items.as_slice();
        copy_kept(&items[index], into);
    }

    /// The same blocks in as little memory as they take.
    pub fn copy(&self, alloc: Global) -> Result<Blocks, OutOfMemory>
        ensures { IfOk result (λ blocks. blocks ≡ self.now) }
    {
        let mut items = Vec::with_capacity(alloc, self.items.len())?;
        for block in &self.items {
            items.push(copied(alloc, block)?)?;
        }
        Ok(Blocks { items })
    }
}

fn copy_kept(block: &BlockOf, into: &mut [u8])
    requires whole { is_whole block.now ≡ true }
    requires size { length into.old ≡ 512 }
    ensures { into.new ≡ block_bytes block.now }
{
    match block {
        BlockOf::Equal(byte) => into.copy_from_slice(&[*byte; BLOCK]),
        BlockOf::Whole(bytes) => into.copy_from_slice(bytes.as_slice()),
    }
}

fn copied(alloc: Global, block: &BlockOf) -> Result<BlockOf, OutOfMemory>
    ensures { IfOk result (λ copy. block_bytes copy ≡ block_bytes block.now) }
{
    match block {
        BlockOf::Equal(byte) => Ok(BlockOf::Equal(*byte)),
        BlockOf::Whole(bytes) => Ok(BlockOf::Whole(Box::new(alloc, **bytes)?)),
    }
}
