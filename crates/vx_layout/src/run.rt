use std::marker::Model;

/// Blocks that lie one behind the other on a disk.
#[derive(Clone, Copy, Debug, PartialEq, Eq)]
pub struct Run {
    /// The slot of the disk.
    pub disk: u8,
    /// The sector of the first block.
    pub sector: u64,
    /// How many blocks.
    pub count: u64,
    /// The first block.
    pub block: u64,
}

/// Runs, in block order.
#[derive(Drop)]
pub struct Runs {
    items: Vec<Run>,
}

impl Model for Runs {
    ghost use Rattle.std.specs.Prelude.{List};
    ghost use Rattle.vx_layout.specs.declared.run.Run.{Run};

    ghost Value = { List Run };

    ghost view = { λ r. r.items.items };
}

impl Runs {
    ghost use Rattle.std.specs.Prelude.{◌≡◌};

    pub fn from_vec(items: Vec<Run>) -> Runs
        ensures { result ≡ items.items }
    {
        Runs { items }
    }

    pub fn as_slice(&self) -> &[Run]
        ensures { result.now ≡ self.now }
    {
        &self.items
    }
}
