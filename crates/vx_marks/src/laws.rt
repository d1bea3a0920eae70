//! Laws of marks, each a function with an empty body whose contract states it.

ghost use Rattle.vx_marks.specs.Laws.{MarkStaysHonest, OthersStayHonest, UnmarkStaysHonest};

/// A log that is honest stays so: through a mark of what it does not claim yet, an unmark of what it claims, and calls on
/// other regions.
pub fn each_log_stays_honest()
    ensures marked { MarkStaysHonest }
    ensures unmarked { UnmarkStaysHonest }
    ensures others { OthersStayHonest }
{}
