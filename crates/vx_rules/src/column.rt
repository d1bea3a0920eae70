ghost use Rattle.std.specs.Prelude.{◌≡◌, ◌<◌, None};
ghost use Rattle.vx_rules.specs.Pieces.{grow, or_new};

use crate::piece::Piece;

/// What is found of a column, when its pieces are taken in the order of their places.
#[derive(Clone, Copy)]
pub(crate) struct Column {
    /// Where the last of them ends.
    pub(crate) end: u128,
    /// Each begins where the one before ends, and the first at 0.
    pub(crate) whole: bool,
}

impl Column {
    pub(crate) fn new() -> Column
        ensures { result ≡ or_new None }
    {
        Column {
            end: 0,
            whole: true,
        }
    }

    /// The column with one more piece.
    pub(crate) fn with(&self, piece: &Piece) -> Column
        requires { self.now.end < 36893488147419103232 }
        ensures column { result ≡ grow self.now piece.now }
        ensures small { result.end < 36893488147419103232 }
    {
        let end = piece.at as u128 + piece.len as u128;
        Column {
            end: if self.end < end { end } else { self.end },
            whole: self.whole && piece.at as u128 == self.end,
        }
    }
}
