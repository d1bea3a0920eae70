use crate::Commands;
use vx_names::Name;
use vx_script_forms::{Boxed, Bytes, Lines};

/// A command that has lines of its own, as far as they are read.
#[derive(Drop)]
pub enum Open {
    Closed,
    Making {
        group: Option<Boxed<Name>>,
        cut: Option<u64>,
        text: Bytes,
    },
    Inside {
        cut: Option<u64>,
        sessions: u32,
        lines: Lines,
        calls: u64,
        sectors: u64,
    },
}

/// A script as far as it is read.
#[derive(Drop)]
pub struct Reader {
    pub done: Commands,
    pub begun: Open,
}
