//! No rule of a configuration refuses what the tests of a command have let through: laws, as functions that do nothing and
//! promise them.
#![tactic(auto)]

ghost use Rattle.vx_plan_laws.specs.Keeping.{EachRefusalKeepsTheWorld, EachWantKeepsTheWorld};
ghost use Rattle.vx_plan_laws.specs.Refusing.{EachRefusalIsTested, EachCommandIsDoneOrTested};
ghost use Rattle.vx_plan_laws.specs.Unbroken.{NoRuleRefusesAPolicy, NoRuleRefusesARemoval, NoRuleRefusesRecords, OnlyANameRefusesADisk};

/// Where the group has the volume, and the plex that is to be preferred is a data plex of it, no rule refuses the policy.
pub fn no_rule_refuses_a_policy()
    ensures { NoRuleRefusesAPolicy }
{}

/// Where the group has the volume, and it is in no relation, no rule refuses that it goes with all that belongs to it.
pub fn no_rule_refuses_a_removal()
    ensures { NoRuleRefusesARemoval }
{}

/// Where the tests of records that are to be added let them through, no rule refuses them.
pub fn no_rule_refuses_records()
    ensures { NoRuleRefusesRecords }
{}

/// Where a disk that is to join keeps the limits, the rules refuse it exactly where its name is taken.
pub fn only_a_name_refuses_a_disk()
    ensures { OnlyANameRefusesADisk }
{}

/// A command of a plan that is refused was refused by a test, as its text would be too long, as a source has no records to be
/// added, or as the name of the disk that is to join is taken; a start, a mirror and a stop by what they find of their volume,
/// a start as it cannot be opened, and a mirror also as there is no plan or no records of it, or the records break a rule.
pub fn each_refusal_is_tested()
    ensures { EachRefusalIsTested }
{}

/// Where no device call failed and the power stayed, a command does all that it is asked, or is refused so.
pub fn each_command_is_done_or_tested()
    ensures { EachCommandIsDoneOrTested }
{}

/// A command that is refused leaves the world as it began; but a start whose volume cannot be opened may have called its log,
/// and then the devices have changed in sectors of that volume alone; where a new volume cannot be started its records stay; and where a
/// recovery is refused for a volume, those before it were seen to, and its own recovery may be recorded as begun.
pub fn each_refusal_keeps_the_world()
    ensures { EachRefusalKeepsTheWorld }
{}

/// Want of memory leaves the world as the command found it; but a start may have called the log of its volume, which does not run then,
/// also that of a new volume whose records were added before, a mirror and a stop may have let their volume come to rest, and a recovery
/// may have seen to some volumes.
pub fn each_want_keeps_the_world()
    ensures { EachWantKeepsTheWorld }
{}
