//! Laws of plans: each is a function that does nothing.

ghost use Rattle.vx_plans.specs.Laws.{EachPlanIsComplete};

/// Where no device call failed and the power stayed, a command does all that it is asked, or a test has refused it.
pub fn each_plan_is_complete()
    ensures { EachPlanIsComplete }
{}
