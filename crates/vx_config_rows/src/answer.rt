//! Answers in words.
use std::alloc::Global;
use vx_base::OutOfMemory;
use vx_names::Name;
use vx_objects::{Limit, ObjectFault};
use vx_print::PrintFault;

/// The refusal in words.
pub fn refusal(alloc: Global, fault: &ObjectFault) -> Result<Vec<u8>, OutOfMemory> {
    match fault {
        ObjectFault::Exists(name) => named(alloc, b"exists ", name),
        ObjectFault::NoObject(name) => named(alloc, b"no object ", name),
        ObjectFault::InUse(name) => named(alloc, b"in use ", name),
        ObjectFault::Overlap(name) => named(alloc, b"overlap ", name),
        ObjectFault::Outside(name) => named(alloc, b"outside ", name),
        ObjectFault::NoMap(name) => named(alloc, b"no map ", name),
        ObjectFault::NotWhole(name) => named(alloc, b"not whole ", name),
        ObjectFault::NoLog(name) => named(alloc, b"no log ", name),
        ObjectFault::Limit(limit) => joined(alloc, b"limit ", limit_word(*limit)),
        ObjectFault::OutOfMemory => Err(OutOfMemory),
    }
}

/// Why a view was not printed, in words.
pub fn unprinted(alloc: Global, fault: &PrintFault) -> Result<Vec<u8>, OutOfMemory> {
    match fault {
        PrintFault::NoObject(name) => named(alloc, b"no object ", name),
        PrintFault::OutOfMemory => Err(OutOfMemory),
    }
}

pub fn named(alloc: Global, words: &[u8], name: &Name) -> Result<Vec<u8>, OutOfMemory> {
    joined(alloc, words, name.as_bytes())
}

pub fn joined(alloc: Global, words: &[u8], last: &[u8]) -> Result<Vec<u8>, OutOfMemory> {
    let mut out = Vec::new(alloc);
    out.extend_from_slice(words)?;
    out.extend_from_slice(last)?;
    Ok(out)
}

fn limit_word(limit: Limit) -> &'static [u8] {
    match limit {
        Limit::Group => b"dg",
        Limit::Number => b"number",
        Limit::Disks => b"disks",
        Limit::Volumes => b"volumes",
        Limit::Name => b"name",
        Limit::Region => b"region",
        Limit::Regions => b"regions",
        Limit::Plexes => b"plexes",
    }
}
