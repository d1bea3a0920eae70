ghost use Rattle.std.specs.Prelude.{◌≡◌, ◌<◌, length};
ghost use Rattle.vx_layout.specs.Columns.{column_at};

use crate::column::Column;
use crate::strip::Strip;
use std::marker::Model;

/// The columns of a layout.
#[derive(Drop)]
pub struct Columns {
    columns: Vec<Column>,
}

impl Model for Columns {
    ghost use Rattle.std.specs.Prelude.{List};
    ghost use Rattle.vx_layout.specs.declared.strip.Strip.{Strip};

    ghost Value = { List (List Strip) };

    ghost view = { λ c. c.columns.items };
}

impl Columns {
    pub fn from_vec(columns: Vec<Column>) -> Columns
        ensures { result ≡ columns.items }
    {
        Columns { columns }
    }

    pub fn len(&self) -> usize
        ensures { result ≡ length self.now }
    {
        self.columns.len()
    }

    /// A column, by its number.
    pub fn at(&self, column: usize) -> &Column
        requires { column < length self.now }
        ensures { result.now ≡ column_at self.now column }
    {
        &self.columns[column]
    }

    /// The strips of a column.
    pub fn strips(&self, column: usize) -> &[Strip]
        requires { column < length self.now }
        ensures { result.now ≡ column_at self.now column }
    {
        self.columns[column].as_slice()
    }
}
