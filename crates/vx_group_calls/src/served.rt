use vx_answers::{Bytes, Parts};

/// How a call on a running volume ended, with its parts in order.
#[derive(Drop)]
pub enum Served {
    /// A read gives its blocks, and a write none.
    Done { parts: Parts, blocks: Bytes },
    /// The device whose count rose first, by its number.
    Fault { device: u32, parts: Parts },
    Lost { parts: Parts },
}
