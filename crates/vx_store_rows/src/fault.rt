/// How a device call goes wrong.
#[derive(Clone, Copy, Debug, PartialEq, Eq)]
pub enum Kind {
    /// It fails, and no other does.
    Once,
    /// It fails, and so does each later one on its device.
    Ever,
    /// The power goes at it.
    Cut,
}

/// What a write that goes wrong has written of its sectors.
#[derive(Clone, Copy, Debug, PartialEq, Eq)]
pub enum Torn {
    /// None of them.
    Old,
    /// The first.
    Front,
    /// Those behind the first; one that is alone.
    Back,
    /// All of them.
    New,
}

/// What goes wrong: the device call of this number, counted from 0.
#[derive(Clone, Copy)]
pub struct Fault {
    pub at: u64,
    pub kind: Kind,
    pub torn: Torn,
}

/// How a device call ended.
#[derive(Clone, Copy, PartialEq, Eq)]
pub enum End {
    Done,
    Failed,
    Lost,
}

/// One device call: its number, and which sectors of which device it was on.
#[derive(Clone, Copy)]
pub struct Step {
    pub number: u64,
    pub device: u32,
    pub is_write: bool,
    pub sector: u64,
    pub count: u64,
    pub end: End,
}
