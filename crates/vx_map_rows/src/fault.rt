/// How a device call goes wrong.
#[derive(Clone, Copy, PartialEq, Eq)]
pub enum Kind {
    /// It fails, and no other does.
    Fails,
    /// The power goes at it.
    Cut,
}

/// What goes wrong: the device call of this number, counted from 0. If it is a write, its sectors hold then what was to be
/// written, or what they held before.
#[derive(Clone, Copy)]
pub struct Fault {
    pub at: u64,
    pub kind: Kind,
    pub is_written: bool,
}

/// How a device call ends. One that goes wrong may have written its sectors.
#[derive(Clone, Copy)]
pub enum End {
    Done,
    Failed { is_written: bool },
    Lost { is_written: bool },
}

/// The device call that went wrong.
#[derive(Clone, Copy)]
pub struct Wrong {
    pub device: u32,
    pub is_write: bool,
}
