ghost use Rattle.std.specs.Prelude.{◌≡◌, ◌≤◌, IfOk, [], length};
ghost use Rattle.vx_script_words.specs.Parts.{name_of, pair_of};
ghost use Rattle.vx_script_words.specs.Hex.{block_of};
ghost use Rattle.vx_script_words.specs.Row.{gather, pushed, joined, Gathered};

use crate::parts::{name_of, pair_of};
use crate::words::{first_word, from_word, past_word};
use crate::{Blocks, Disks, Names, block_of};
use std::alloc::Global;
use vx_base::OutOfMemory;

/// Names as long as there are some, and what is left.
pub fn some_names(alloc: Global, text: &[u8]) -> Result<(Names, &[u8]), OutOfMemory>
    ensures { IfOk result (λ found. gather name_of pushed (length text.now) [] text.now ≡ record { list = found.0; rest = found.1.now }) }
{
    let mut names = Names::new(alloc);
    let mut rest = text;
    for n in 0..text.len() {
        let word = from_word(rest);
        let Some(name) = name_of(first_word(word)) else {
            return Ok((names, rest));
        };
        names = names.with(name)?;
        rest = past_word(word);
    }
    Ok((names, rest))
}

/// More disks behind those that there are, as long as there are some, and what is left.
pub fn more_pairs(disks: Disks, text: &[u8]) -> Result<(Disks, &[u8]), OutOfMemory>
    ensures { IfOk result (λ found. gather pair_of pushed (length text.now) disks text.now ≡ record { list = found.0; rest = found.1.now }) }
{
    let mut disks = disks;
    let mut rest = text;
    for n in 0..text.len() {
        let word = from_word(rest);
        let Some(pair) = pair_of(first_word(word)) else {
            return Ok((disks, rest));
        };
        disks = disks.with(pair)?;
        rest = past_word(word);
    }
    Ok((disks, rest))
}

/// At most 63 more blocks behind those that there are, and what is left.
pub fn more_blocks(
    alloc: Global,
    blocks: Blocks,
    text: &[u8],
) -> Result<(Blocks, &[u8]), OutOfMemory>
    ensures { IfOk result (λ found. gather block_of joined 63 blocks text.now ≡ record { list = found.0; rest = found.1.now }) }
{
    let mut blocks = blocks;
    let mut rest = text;
    for n in 0..63_usize {
        let word = from_word(rest);
        let Some(block) = block_of(alloc, first_word(word))? else {
            return Ok((blocks, rest));
        };
        blocks = blocks.with(block)?;
        rest = past_word(word);
    }
    Ok((blocks, rest))
}
