//! Laws of shelves: each is a function that does nothing.

ghost use Rattle.vx_run.specs.Told.{EachToldShelfIsAMoment};

/// A shelf that tells its devices, and what each holds, is a moment of the world. So what `run_commands` says of each
/// moment that the shelf was, it says of one at least.
pub fn each_told_shelf_is_a_moment()
    ensures { EachToldShelfIsAMoment }
{}
