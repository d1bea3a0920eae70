//! Texts that were cut off, and texts of which one byte is another: each is read, or refused at the right line.
use crate::text::is;
use std::alloc::Global;
use vx_base::OutOfMemory;
use vx_record::{RecordFault, read};

/// How many texts were read, refused, and answered wrongly.
#[derive(Drop)]
struct Tally {
    read: u64,
    refused: u64,
    wrong: u64,
}

impl Tally {
    fn new() -> Tally {
        Tally {
            read: 0,
            refused: 0,
            wrong: 0,
        }
    }

    /// Counts the answer to a text: it may be read where it is whole, and is else refused at the line.
    fn add(&mut self, answer: Option<u64>, is_whole: bool, line: u64) {
        match answer {
            None => self.read = self.read.saturating_add(1),
            Some(_) => self.refused = self.refused.saturating_add(1),
        }
        let is_right = match answer {
            None => is_whole,
            Some(refused) => !is_whole && refused == line,
        };
        if !is_right {
            self.wrong = self.wrong.saturating_add(1);
        }
    }

    fn answer(&self, alloc: Global) -> Result<Vec<u8>, OutOfMemory> {
        let (read, refused, wrong) = (self.read, self.refused, self.wrong);
        let text = format!(in alloc; "read {read}, refused {refused}, wrong {wrong}")?;
        let mut out = Vec::new(alloc);
        out.extend_from_slice(text.as_bytes())?;
        Ok(out)
    }
}

/// The line that does not fit, or none where the text is read.
fn refused_line(alloc: Global, text: &[u8]) -> Result<Option<u64>, OutOfMemory> {
    match read(alloc, text) {
        Ok(_) => Ok(None),
        Err(RecordFault::BadRecord(line)) => Ok(Some(line)),
        Err(RecordFault::OutOfMemory) => Err(OutOfMemory),
    }
}

/// Each front of the text: whole where a record ends, and else refused at the line behind its last whole line.
pub fn fronts(alloc: Global, text: &[u8]) -> Result<Vec<u8>, OutOfMemory> {
    let mut tally = Tally::new();
    let mut line = 1u64;
    let mut ends_line = true;
    for at in 0..text.len() + 1 {
        let (front, rest) = text.split_at(at);
        let is_whole = ends_line && rest.first() != Some(&b'\t');
        tally.add(refused_line(alloc, front)?, is_whole, line);
        ends_line = rest.first() == Some(&b'\n');
        if ends_line {
            line = line.saturating_add(1);
        }
    }
    tally.answer(alloc)
}

/// The text with each byte in turn replaced: read, or refused at the line of the byte.
pub fn bytes(alloc: Global, text: &[u8], word: &[u8]) -> Result<Vec<u8>, OutOfMemory> {
    let byte = byte_of(word);
    let mut tally = Tally::new();
    let mut changed = Vec::new(alloc);
    changed.extend_from_slice(text)?;
    let mut line = 1u64;
    for (at, old) in text.iter().enumerate() {
        put(&mut changed, at, byte);
        let answer = refused_line(alloc, &changed)?;
        tally.add(answer, answer.is_none(), line);
        put(&mut changed, at, *old);
        if *old == b'\n' {
            line = line.saturating_add(1);
        }
    }
    tally.answer(alloc)
}

fn put(text: &mut Vec<u8>, at: usize, byte: u8) {
    if at < text.len() {
        text[at] = byte;
    }
}

fn byte_of(word: &[u8]) -> u8 {
    if is(word, b"blank") {
        b' '
    } else if is(word, b"nul") {
        0
    } else {
        b'x'
    }
}
