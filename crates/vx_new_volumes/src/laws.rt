//! Laws, each a function that does nothing and whose contract states it.

ghost use Rattle.vx_new_volumes.specs.Planned.{EachRequestHasOneAnswer};

use vx_space::laws::each_has_one_free_list;

/// A request over a configuration and a mask of good slots has one answer.
pub fn each_request_has_one_answer()
    ensures { EachRequestHasOneAnswer }
{
    each_has_one_free_list()
}
