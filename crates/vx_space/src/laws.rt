//! Laws, each a function with an empty body whose contract states it.

ghost use Rattle.vx_space.specs.Free.{EachHasOneFreeList};
ghost use Rattle.vx_space.specs.Taking.{EachTakesTheFirst};

/// A configuration and a mask of good slots have one list of free extents.
pub fn each_has_one_free_list()
    ensures { EachHasOneFreeList }
{}

/// What is taken of a disk are its first free sectors, and all others stay.
pub fn each_takes_the_first()
    ensures { EachTakesTheFirst }
{}
