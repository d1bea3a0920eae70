//! Words, each behind a blank.
ghost use Rattle.std.specs.Prelude.{◌≡◌, ◌++◌, ◌-◌, ◌*◌, ◌/◌, ◌∷◌, ◌≤◌, ◌<◌, [], length, map, drop, OnOk};
ghost use Rattle.std.specs.Fmt.{decimal};
ghost use Rattle.vx_block.specs.Word.{block_word};
ghost use Rattle.vx_script_print.specs.Text.{plex_text, number_text, value_text, class_word, cut_blocks, words_of, row_words};
ghost use Rattle.vx_script_words.specs.Fits.{pair_word};
ghost use Rattle.vx_script_words.specs.Spelling.{spelled};

use std::alloc::Global;
use vx_base::{BLOCK, OutOfMemory};
use vx_block::{put_block, put_hex};
use vx_names::Name;
use vx_script_words::{Blocks, Class, DiskAt, Item, Sort, Value, key_text};

/// The words of a line, part by part.
#[tactic(auto, using(crate::proofs::Spelling::row_steps))]
pub fn put_row(
    alloc: Global,
    items: &[Item],
    values: &[Value],
    out: &mut Vec<u8>,
) -> Result<(), OutOfMemory>
    ensures { OnOk result (out.new.items ≡ out.old.items ++ spelled (row_words items.now values.now)) }
{
    for n in 0..items.len().min(values.len()) {
        put_part(alloc, items[n], &values[n], out)?;
    }
    Ok(())
}

fn put_part(alloc: Global, item: Item, value: &Value, out: &mut Vec<u8>) -> Result<(), OutOfMemory>
    ensures { OnOk result (out.new.items ≡ out.old.items ++ spelled (words_of item value.now)) }
{
    match (item, value) {
        (Item::Maybe(_), Value::Nothing) => Ok(()),
        (Item::One(class) | Item::Maybe(class), _) => put_word(alloc, class, value, out),
        (Item::Group, Value::Named(name)) => put_two(b"-g", name.as_bytes(), out),
        (Item::Names, Value::Names(names)) => put_names(names.to_vec(alloc)?.as_slice(), out),
        (Item::Pairs, Value::Pairs(pairs)) => put_pairs(pairs.to_vec(alloc)?.as_slice(), out),
        (Item::Blocks, Value::Blocks(blocks)) => put_blocks(blocks, out),
        _ => Ok(()),
    }
}

fn put_word(
    alloc: Global,
    class: Class,
    value: &Value,
    out: &mut Vec<u8>,
) -> Result<(), OutOfMemory>
    ensures { OnOk result (out.new.items ≡ out.old.items ++ spelled (class_word class value.now ∷ [])) }
{
    out.push(b' ')?;
    out.extend_from_slice(key_text(class.front))?;
    put_value(alloc, class.sort, value, out)
}

fn put_value(alloc: Global, sort: Sort, value: &Value, out: &mut Vec<u8>) -> Result<(), OutOfMemory>
    ensures { OnOk result (out.new.items ≡ out.old.items ++ value_text sort value.now) }
{
    match value {
        Value::Named(name) => put_text(name.as_bytes(), out),
        Value::Number(n) => put_number(alloc, sort, *n, out),
        Value::Pair(pair) => put_pair(*pair, out),
        Value::BreakOff { vol, snap, plex } => put_break_off(*vol, *snap, *plex, out),
        _ => Ok(()),
    }
}

fn put_number(alloc: Global, sort: Sort, n: u64, out: &mut Vec<u8>) -> Result<(), OutOfMemory>
    ensures { OnOk result (out.new.items ≡ out.old.items ++ number_text sort n) }
{
    match sort {
        Sort::Byte => put_hex((n % 256) as u8, out),
        _ => put_decimal(alloc, n, out),
    }
}

pub fn put_decimal(alloc: Global, n: u64, out: &mut Vec<u8>) -> Result<(), OutOfMemory>
    ensures { OnOk result (out.new.items ≡ out.old.items ++ decimal n) }
{
    let text = n.to_string(alloc)?;
    put_text(text.as_bytes(), out)
}

pub fn put_text(text: &[u8], out: &mut Vec<u8>) -> Result<(), OutOfMemory>
    ensures { OnOk result (out.new.items ≡ out.old.items ++ text.now) }
{
    out.extend_from_slice(text)?;
    Ok(())
}

fn put_two(first: &[u8], second: &[u8], out: &mut Vec<u8>) -> Result<(), OutOfMemory>
    ensures { OnOk result (out.new.items ≡ out.old.items ++ spelled (first.now ∷ second.now ∷ [])) }
{
    put_one(first, out)?;
    put_one(second, out)
}

pub fn put_one(word: &[u8], out: &mut Vec<u8>) -> Result<(), OutOfMemory>
    ensures { OnOk result (out.new.items ≡ out.old.items ++ spelled (word.now ∷ [])) }
{
    out.push(b' ')?;
    put_text(word, out)
}

fn put_pair(pair: DiskAt, out: &mut Vec<u8>) -> Result<(), OutOfMemory>
    ensures { OnOk result (out.new.items ≡ out.old.items ++ pair_word pair) }
{
    put_text(pair.disk.as_bytes(), out)?;
    put_text(b"=", out)?;
    put_text(pair.device.as_bytes(), out)
}

fn put_break_off(
    vol: Name,
    snap: Name,
    plex: Option<Name>,
    out: &mut Vec<u8>,
) -> Result<(), OutOfMemory>
    ensures { OnOk result (out.new.items ≡ out.old.items ++ value_text Sort.BreakOff (Value.BreakOff vol snap plex)) }
{
    put_text(vol.as_bytes(), out)?;
    put_text(b"/newvol=", out)?;
    put_text(snap.as_bytes(), out)?;
    put_plex(plex, out)
}

fn put_plex(plex: Option<Name>, out: &mut Vec<u8>) -> Result<(), OutOfMemory>
    ensures { OnOk result (out.new.items ≡ out.old.items ++ plex_text plex) }
{
    match plex {
        None => put_text(b"/nmirror=1", out),
        Some(plex) => {
            put_text(b"/plex=", out)?;
            put_text(plex.as_bytes(), out)
        }
    }
}

#[tactic(auto, using(crate::proofs::Spelling::word_steps))]
fn put_names(names: &[Name], out: &mut Vec<u8>) -> Result<(), OutOfMemory>
    ensures { OnOk result (out.new.items ≡ out.old.items ++ spelled names.now) }
{
    for name in names {
        put_one(name.as_bytes(), out)?;
    }
    Ok(())
}

#[tactic(auto, using(crate::proofs::Spelling::word_steps))]
fn put_pairs(pairs: &[DiskAt], out: &mut Vec<u8>) -> Result<(), OutOfMemory>
    ensures { OnOk result (out.new.items ≡ out.old.items ++ spelled (map pair_word pairs.now)) }
{
    for pair in pairs {
        out.push(b' ')?;
        put_pair(*pair, out)?;
    }
    Ok(())
}

#[tactic(auto, using(crate::proofs::Spelling::block_steps))]
fn put_blocks(blocks: &Blocks, out: &mut Vec<u8>) -> Result<(), OutOfMemory>
    ensures { OnOk result (out.new.items ≡ out.old.items ++ spelled (map block_word (cut_blocks (length blocks.now / 512) blocks.now))) }
{
    let mut block = [0; BLOCK];
    for n in 0..blocks.count() {
        blocks.copy_block(n, &mut block);
        out.push(b' ')?;
        put_block(&block, out)?;
    }
    Ok(())
}
