use crate::{Blocks, Disks, Names};
use vx_names::Name;

/// A disk name and the device that it stands for.
#[derive(Clone, Copy)]
pub struct DiskAt {
    pub disk: Name,
    pub device: Name,
}

/// What the words of a part say.
#[derive(Drop)]
pub enum Value {
    /// There is no word.
    Nothing,
    /// The word is there, and says no more.
    Word,
    Named(Name),
    /// A number, a length in sectors, or a byte.
    Number(u64),
    Pair(DiskAt),
    BreakOff {
        vol: Name,
        snap: Name,
        plex: Option<Name>,
    },
    Names(Names),
    Pairs(Disks),
    Blocks(Blocks),
}
