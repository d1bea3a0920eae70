//! Texts of the table.
use std::alloc::Global;
use vx_base::OutOfMemory;

/// The word is this one.
pub fn is(word: &[u8], text: &[u8]) -> bool {
    word == text
}

/// What stands before the mark, and what behind it.
pub fn parted<'a>(text: &'a [u8], mark: &[u8]) -> Option<(&'a [u8], &'a [u8])> {
    for at in 0..text.len() {
        let (front, rest) = text.split_at(at);
        if let Some(back) = rest.strip_prefix(mark) {
            return Some((front, back));
        }
    }
    None
}

/// The text after the edits, each of which stands where its old text first does.
pub fn edited(alloc: Global, text: &[u8], edits: &[u8]) -> Result<Vec<u8>, OutOfMemory> {
    let mut out = Vec::new(alloc);
    out.extend_from_slice(text)?;
    let mut rest = edits;
    for _ in 0..edits.len() {
        let (edit, behind) = match parted(rest, b" ;; ") {
            Some(parts) => parts,
            None => (rest, b"".as_slice()),
        };
        if let Some((old, new)) = parted(edit, b" => ") {
            out = replaced(alloc, &out, old, new)?;
        }
        if behind.is_empty() {
            break;
        }
        rest = behind;
    }
    Ok(out)
}

fn replaced(alloc: Global, text: &[u8], old: &[u8], new: &[u8]) -> Result<Vec<u8>, OutOfMemory> {
    let old = spelled(alloc, old)?;
    let new = spelled(alloc, new)?;
    let mut out = Vec::new(alloc);
    match parted(text, &old) {
        Some((front, back)) => {
            out.extend_from_slice(front)?;
            out.extend_from_slice(&new)?;
            out.extend_from_slice(back)?;
        }
        None => out.extend_from_slice(b"the old text is not there")?,
    }
    Ok(out)
}

/// The text with its newlines and tabs.
fn spelled(alloc: Global, text: &[u8]) -> Result<Vec<u8>, OutOfMemory> {
    let mut out = Vec::new(alloc);
    let mut rest = text;
    for _ in 0..text.len() {
        if let Some(behind) = rest.strip_prefix(b" // ") {
            out.push(b'\n')?;
            rest = behind;
        } else if let Some(behind) = rest.strip_prefix(b" / ") {
            out.extend_from_slice(b"\n\t")?;
            rest = behind;
        } else if let Some((first, behind)) = rest.split_first() {
            out.push(*first)?;
            rest = behind;
        }
    }
    Ok(out)
}
