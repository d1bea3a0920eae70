//! What was written beside what is wanted.
use crate::difference::Difference;
use std::alloc::{AllocError, Global};
use std::str;

/// The first difference between the bytes that were written and those that are wanted.
pub fn compare(
    alloc: Global,
    written: &[u8],
    wanted: &[u8],
) -> Result<Option<Difference>, AllocError> {
    if written == wanted {
        return Ok(None);
    }
    let (Ok(written), Ok(wanted)) = (str::from_utf8(written), str::from_utf8(wanted)) else {
        return Ok(Some(Difference::Ending));
    };
    first_difference(alloc, written, wanted)
}

/// The first line of two texts that differs, where some line does.
fn first_difference(
    alloc: Global,
    written: &str,
    wanted: &str,
) -> Result<Option<Difference>, AllocError> {
    let mut others = wanted.lines();
    let mut line = 0usize;
    for one in written.lines() {
        line = line.saturating_add(1);
        let other = others.next().unwrap_or("");
        if one != other {
            return Ok(Some(at_line(alloc, line, one, other)?));
        }
    }
    match others.next() {
        None => Ok(Some(Difference::Ending)),
        Some(other) => Ok(Some(at_line(alloc, line.saturating_add(1), "", other)?)),
    }
}

fn at_line(
    alloc: Global,
    line: usize,
    written: &str,
    wanted: &str,
) -> Result<Difference, AllocError> {
    Ok(Difference::Answer {
        line,
        written: String::from_str(alloc, written)?,
        wanted: String::from_str(alloc, wanted)?,
    })
}
