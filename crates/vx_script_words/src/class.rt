use crate::Key;

/// What stands in a word behind its fixed front.
#[derive(Clone, Copy)]
pub enum Sort {
    /// Nothing: the word is its front.
    Word,
    /// A name.
    Named,
    /// A decimal number without leading zeros, from `low` to `high`.
    Number { low: u64, high: u64 },
    /// A length word.
    Length,
    /// Two lower-case hexadecimal digits.
    Byte,
    /// A disk and its device, `DM=DEV`.
    Pair,
    /// The volume, the snapshot and its plex, `VOL/newvol=SNAP/plex=PLEX` or `VOL/newvol=SNAP/nmirror=1`.
    BreakOff,
}

/// What a word has to be: its fixed front, and what follows it.
#[derive(Clone, Copy)]
pub struct Class {
    pub front: Key,
    pub sort: Sort,
}

/// A part of a form.
#[derive(Clone, Copy)]
pub enum Item {
    /// One word.
    One(Class),
    /// One word that may be left out.
    Maybe(Class),
    /// `-g` and a name, which may be left out.
    Group,
    /// A place where `-g` and a name cannot stand.
    NoGroup,
    /// Any number of names.
    Names,
    /// One or more disks with their devices.
    Pairs,
    /// 1 to 64 block words.
    Blocks,
}
