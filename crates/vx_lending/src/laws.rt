//! Laws that callers need, each a function that does nothing and promises them.

ghost use Rattle.vx_lending.specs.Laws.{PiecesGoBeside, PiecesGoOn, SamePiecesGo};

/// Pieces go on together through one call after another, and beside others: so what is known of a log's pieces is known of all
/// pieces of the group.
pub fn pieces_go_on()
    ensures same { SamePiecesGo }
    ensures then { PiecesGoOn }
    ensures beside { PiecesGoBeside }
{}
