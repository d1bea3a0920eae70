//! A row, as its line says it.
use crate::text::{edited, is, parted};
use std::alloc::Global;
use vx_base::OutOfMemory;

/// The fields of a row.
#[derive(Clone, Copy)]
pub struct Row<'a> {
    pub kind: &'a [u8],
    pub title: &'a [u8],
    pub base: &'a [u8],
    pub edit: &'a [u8],
    pub wanted: &'a [u8],
}

impl<'a> Row<'a> {
    pub fn read(line: &'a [u8]) -> Option<Row<'a>> {
        let (kind, rest) = parted(line, b" | ")?;
        let (title, rest) = parted(rest, b" | ")?;
        let (base, rest) = parted(rest, b" | ")?;
        let (edit, wanted) = parted(rest, b" | ")?;
        Some(Row {
            kind,
            title,
            base,
            edit,
            wanted,
        })
    }

    /// The answer that is wanted: for edits that are made, the text of the base under them.
    pub fn wanted_answer(&self, alloc: Global, base: &[u8]) -> Result<Vec<u8>, OutOfMemory> {
        if is(self.kind, b"apply") && parted(self.wanted, b" => ").is_some() {
            return edited(alloc, base, self.wanted);
        }
        let mut wanted = Vec::new(alloc);
        wanted.extend_from_slice(self.wanted)?;
        Ok(wanted)
    }
}
