//! Laws that callers need, each a function that does nothing and promises it.

ghost use Rattle.vx_group_stop.specs.Laws.{EachClearLeavesRest, EachRestIsSettled, EachSettlingSettles};

/// Once a pass that settles is done all regions are settled.
pub fn each_settling_settles()
    ensures { EachSettlingSettles }
{}

/// A clear of settled regions takes away no mark of a plex, and leaves all regions settled but one in which the power went.
pub fn each_clear_leaves_rest()
    ensures { EachClearLeavesRest }
{}

/// A volume that has come to rest is settled; the mask tells the marks of its plexes.
pub fn each_rest_is_settled()
    ensures { EachRestIsSettled }
{}
