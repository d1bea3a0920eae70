use crate::{Admin, Call};
use std::marker::Model;
use vx_base::OutOfMemory;

/// A line of a block: a session's call, or an act of the administering session.
#[derive(Drop)]
pub enum Line {
    Session { session: u32, call: Call },
    Administer(Admin),
}

/// The lines of a block in their order.
#[derive(Drop)]
pub struct Lines {
    items: Vec<Line>,
}

impl Model for Lines {
    ghost use Rattle.std.specs.Prelude.{List};
    ghost use Rattle.vx_script_forms.specs.declared.block.Line.{Line};

    ghost Value = { List Line };

    ghost view = { λ l. l.items.items };
}

impl Lines {
    ghost use Rattle.std.specs.Prelude.{◌≡◌, ◌++◌, ◌∷◌, [], OnOk};

    /// Appends a line.
    pub fn push(&mut self, line: Line) -> Result<(), OutOfMemory>
        ensures { OnOk result (self.new ≡ self.old ++ line ∷ []) }
    {
        self.items.push(line)?;
        Ok(())
    }

    pub fn from_vec(items: Vec<Line>) -> Lines
        ensures { result ≡ items.items }
    {
        Lines { items }
    }

    pub fn into_vec(self) -> Vec<Line>
        ensures { result.items ≡ self }
    {
        self.items
    }

    pub fn as_slice(&self) -> &[Line]
        ensures { result.now ≡ self.now }
    {
        self.items.as_slice()
    }
}

/// A block of so many sessions.
#[derive(Drop)]
pub struct Block {
    pub sessions: u32,
    pub lines: Lines,
}
