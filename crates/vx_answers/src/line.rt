//! The lines of an answer.
ghost use Rattle.std.specs.Prelude.{◌≡◌, ◌+◌, ◌*◌, ◌/◌, ◌%◌, ◌++◌, length, OnOk, take, codes};
ghost use Rattle.std.specs.List.{flat_map};
ghost use Rattle.std.specs.Fmt.{decimal};
ghost use Rattle.vx_answers.specs.Lines.{part_word, block_words, refusal_words, copied_words, end_words, view_lines, block_line, last_line, lines_of};

use crate::words::{put_counted, put_named, put_number, put_refusal, put_words};
use crate::{Answer, BlockLine, End, Refusal, View};
use vx_base::OutOfMemory;
use vx_block::put_block;
use vx_life::Part;
use vx_names::Name;

/// Appends the lines of an answer. After a refusal of memory some first bytes of them may stand there.
pub fn put_answer(answer: &Answer, out: &mut Vec<u8>) -> Result<(), OutOfMemory>
    ensures ok { OnOk result (out.new.items ≡ out.old.items ++ lines_of answer.now) }
{
    match answer {
        Answer::One { views, end } => put_one(views.as_slice(), end, out),
        Answer::Block { lines, lost } => put_lines(lines.as_slice(), *lost, out),
    }
}

fn put_one(views: &[View], end: &End, out: &mut Vec<u8>) -> Result<(), OutOfMemory>
    ensures ok { OnOk result (out.new.items ≡ out.old.items ++ (flat_map view_lines views.now ++ end_words end.now ++ codes "\n")) }
{
    put_views(views, out)?;
    put_end(end, out)?;
    put_words(b"\n", out)
}

fn put_lines(lines: &[BlockLine], lost: bool, out: &mut Vec<u8>) -> Result<(), OutOfMemory>
    ensures ok { OnOk result (out.new.items ≡ out.old.items ++ (flat_map block_line lines.now ++ last_line lost)) }
{
    put_each(lines, out)?;
    if lost {
        put_words(b"end lost\n", out)
    } else {
        put_words(b"end\n", out)
    }
}

fn put_each(lines: &[BlockLine], out: &mut Vec<u8>) -> Result<(), OutOfMemory>
    ensures ok { OnOk result (out.new.items ≡ out.old.items ++ flat_map block_line lines.now) }
{
    for line in lines {
        put_block_line(line, out)?;
    }
    Ok(())
}

fn put_block_line(line: &BlockLine, out: &mut Vec<u8>) -> Result<(), OutOfMemory>
    ensures ok { OnOk result (out.new.items ≡ out.old.items ++ block_line line.now) }
{
    put_number(line.session, out)?;
    out.extend_from_slice(b" ")?;
    put_end(&line.end, out)?;
    put_words(b"\n", out)
}

fn put_views(views: &[View], out: &mut Vec<u8>) -> Result<(), OutOfMemory>
    ensures ok { OnOk result (out.new.items ≡ out.old.items ++ flat_map view_lines views.now) }
{
    for view in views {
        put_view(view, out)?;
    }
    Ok(())
}

fn put_view(view: &View, out: &mut Vec<u8>) -> Result<(), OutOfMemory>
    ensures ok { OnOk result (out.new.items ≡ out.old.items ++ view_lines view.now) }
{
    match view {
        View::Text(text) => put_words(text.as_slice(), out),
        View::Recovered { vol, dirty, copied } => put_recovered(vol, *dirty, *copied, out),
        View::Snap {
            snap,
            source,
            changed,
            regions,
        } => put_snap(snap, source, *changed, *regions, out),
    }
}

fn put_recovered(vol: &Name, dirty: u64, copied: u64, out: &mut Vec<u8>) -> Result<(), OutOfMemory>
    ensures ok { OnOk result (out.new.items ≡ out.old.items ++ (codes "volume " ++ vol.now ++ codes " recovered " ++ decimal dirty ++ codes " copied " ++ decimal copied ++ codes "\n")) }
{
    put_named(b"volume ", vol, out)?;
    put_counted(b" recovered ", dirty, out)?;
    put_counted(b" copied ", copied, out)?;
    put_words(b"\n", out)
}

fn put_snap(
    snap: &Name,
    source: &Name,
    changed: u64,
    regions: u64,
    out: &mut Vec<u8>,
) -> Result<(), OutOfMemory>
    ensures ok { OnOk result (out.new.items ≡ out.old.items ++ (codes "snap " ++ snap.now ++ codes " source " ++ source.now ++ codes " changed " ++ decimal changed ++ codes " of " ++ decimal regions ++ codes "\n")) }
{
    put_named(b"snap ", snap, out)?;
    put_named(b" source ", source, out)?;
    put_counted(b" changed ", changed, out)?;
    put_counted(b" of ", regions, out)?;
    put_words(b"\n", out)
}

fn put_end(end: &End, out: &mut Vec<u8>) -> Result<(), OutOfMemory>
    ensures ok { OnOk result (out.new.items ≡ out.old.items ++ end_words end.now) }
{
    match end {
        End::Done {
            copied,
            parts,
            blocks,
        } => put_done(*copied, parts.as_slice(), blocks.as_slice(), out),
        End::Refused(refusal) => put_refused(refusal, out),
        End::Fault {
            told,
            device: _,
            parts,
        } => put_fault(told, parts.as_slice(), out),
        End::ShelfFailed => put_words(b"fault -", out),
        End::GroupLost => put_words(b"fault group", out),
        End::Lost { parts } => put_lost(parts.as_slice(), out),
    }
}

fn put_done(
    copied: Option<u64>,
    parts: &[Part],
    blocks: &[u8],
    out: &mut Vec<u8>,
) -> Result<(), OutOfMemory>
    ensures ok { OnOk result (out.new.items ≡ out.old.items ++ (codes "ok" ++ copied_words copied ++ flat_map part_word parts.now ++ block_words blocks.now)) }
{
    out.extend_from_slice(b"ok")?;
    put_copied(copied, out)?;
    put_parts(parts, out)?;
    put_blocks(blocks, out)
}

fn put_copied(copied: Option<u64>, out: &mut Vec<u8>) -> Result<(), OutOfMemory>
    ensures ok { OnOk result (out.new.items ≡ out.old.items ++ copied_words copied) }
{
    match copied {
        None => Ok(()),
        Some(regions) => put_counted(b" copied ", regions, out),
    }
}

fn put_refused(refusal: &Refusal, out: &mut Vec<u8>) -> Result<(), OutOfMemory>
    ensures ok { OnOk result (out.new.items ≡ out.old.items ++ (codes "refused " ++ refusal_words refusal.now)) }
{
    out.extend_from_slice(b"refused ")?;
    put_refusal(refusal, out)
}

fn put_fault(told: &Name, parts: &[Part], out: &mut Vec<u8>) -> Result<(), OutOfMemory>
    ensures ok { OnOk result (out.new.items ≡ out.old.items ++ (codes "fault " ++ told.now ++ flat_map part_word parts.now)) }
{
    put_named(b"fault ", told, out)?;
    put_parts(parts, out)
}

fn put_lost(parts: &[Part], out: &mut Vec<u8>) -> Result<(), OutOfMemory>
    ensures ok { OnOk result (out.new.items ≡ out.old.items ++ (codes "lost" ++ flat_map part_word parts.now)) }
{
    out.extend_from_slice(b"lost")?;
    put_parts(parts, out)
}

fn put_part(part: Part, out: &mut Vec<u8>) -> Result<(), OutOfMemory>
    ensures ok { OnOk result (out.new.items ≡ out.old.items ++ part_word part) }
{
    put_counted(b" ", part.region, out)?;
    put_counted(b":", part.epoch, out)?;
    put_counted(b".", part.number, out)
}

fn put_parts(parts: &[Part], out: &mut Vec<u8>) -> Result<(), OutOfMemory>
    ensures ok { OnOk result (out.new.items ≡ out.old.items ++ flat_map part_word parts.now) }
{
    for part in parts {
        put_part(*part, out)?;
    }
    Ok(())
}

fn put_blocks(blocks: &[u8], out: &mut Vec<u8>) -> Result<(), OutOfMemory>
    ensures ok { OnOk result (out.new.items ≡ out.old.items ++ block_words blocks.now) }
{
    for k in 0..blocks.len() / 512 {
        out.extend_from_slice(b" ")?;
        put_block(&blocks[512 * k..512 * k + 512], out)?;
    }
    Ok(())
}
