//! A volume that is made: what is asked for, and the answer that the disks want.
use crate::bytes::{decimal, has};
use crate::finding::Finding;
use crate::known::REGION;
use crate::private::{is_named, newest, slot_of};
use std::alloc::{AllocError, Global};

/// The words of a line `vxassist make v LENGTH [nmirror=N] [ndcomirror=N] DISK ..`: the plexes that it asks for have one column.
#[derive(Clone, Copy)]
pub struct Making<'a> {
    length: u64,
    plexes: u64,
    words: &'a str,
}

impl<'a> Making<'a> {
    pub fn read(line: &'a str) -> Option<Making<'a>> {
        let words = line.strip_prefix("vxassist make v ")?;
        let mut making = Making {
            length: decimal(words.split_whitespace().next()?)?,
            plexes: 1,
            words,
        };
        for word in words.split_whitespace() {
            if let Some(count) = word.strip_prefix("nmirror=") {
                making.plexes = decimal(count)?;
            }
        }
        Some(making)
    }

    /// The answer where nothing fails, of a group that has no volume and whose disks have room: each plex takes a good disk, and all but
    /// the lowest are copied to.
    fn answer(self, alloc: Global, images: &[&[u8]], good: u64) -> Result<String, AllocError> {
        if self.disks(images, good) < self.plexes {
            return format!(in alloc; "refused too few disks {}", self.plexes);
        }
        if self.plexes == 1 {
            return String::from_str(alloc, "ok copied 0");
        }
        format!(in alloc; "ok copied {}", self.length.div_ceil(REGION))
    }

    /// How many good disks may be used.
    fn disks(self, images: &[&[u8]], good: u64) -> u64 {
        let mut disks = 0u64;
        for image in images {
            if has(good, slot_of(image)) && self.may_use(image) {
                disks = disks.saturating_add(1);
            }
        }
        disks
    }

    /// Whether a disk may be used: one that is named, or each where none is.
    fn may_use(self, image: &[u8]) -> bool {
        let mut is_any_used = true;
        for word in self.words.split_whitespace().skip(1) {
            if !is_attribute(word) {
                if is_named(image, word, slot_of(image)) {
                    return true;
                }
                is_any_used = false;
            }
        }
        is_any_used
    }
}

fn is_attribute(word: &str) -> bool {
    word.strip_prefix("nmirror=").is_some() || word.strip_prefix("ndcomirror=").is_some()
}

/// The answer of a line that makes the volume, on a group that has none.
pub fn making_of(alloc: Global, images: &[&[u8]], line: &str) -> Result<String, Finding> {
    let good = newest(images)?.good;
    match Making::read(line) {
        Some(making) => Ok(making.answer(alloc, images, good)?),
        None => Err(Finding::NotRecorded),
    }
}
