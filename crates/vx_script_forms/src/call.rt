use vx_names::Name;
use vx_script_words::Blocks;

/// A read or a write of a volume's blocks.
#[derive(Drop)]
pub enum Call {
    Read {
        vol: Name,
        start: u64,
        count: u64,
    },
    /// A write of blocks that all hold one byte.
    Fill {
        vol: Name,
        start: u64,
        count: u64,
        byte: u8,
    },
    /// A write of these blocks, 512 bytes each.
    Data {
        vol: Name,
        start: u64,
        blocks: Blocks,
    },
}
