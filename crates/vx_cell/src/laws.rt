//! Laws of calls on cells, each a function with an empty body whose contract states it.

ghost use Rattle.std.specs.Prelude.{ℕ, Bool};
ghost use Rattle.vx_cell.specs.Laws.{EachCallStands, EachKillStands, EachOtherStands};

/// After a call the region stands for each history that it stood for, with the entry of the call.
pub fn each_call_stands()
    ensures number { EachCallStands ℕ }
    ensures copied { EachCallStands Bool }
    ensures plain { EachCallStands (Unit {0}) }
{}

/// A call on one region leaves what the others of its log stand for.
pub fn each_other_stands()
    ensures { EachOtherStands }
{}

/// A cell that is killed between calls leaves what its region stands for.
pub fn each_kill_stands()
    ensures { EachKillStands }
{}
