//! What follows from the definitions of moments and plans: laws, as functions that do nothing and promise them.
#![tactic(auto)]

ghost use Rattle.vx_laws.specs.Histories.{EachVolumeHasAHistory};
ghost use Rattle.vx_laws.specs.Returning.{EachGroupReturns, EachMadeGroupIsWhole, EachJoinedGroupIsWhole, EachWholeGroupComesBack, EachGroupOutlivesPower};

/// In the last world of each transcript from devices alone, the entries of each started volume, in the order of their
/// numbers, are a legal history from the blocks that its device held in the world before some command: each number of a
/// region is there once, from 1 up, and each value that was read is what the entries before it allow. Of a volume on plexes
/// of the group whose bytes were sound as it began, they are one from the candidates that these were read as before some command, or
/// within one that had made the volume, or that recovers volumes.
pub fn each_volume_has_a_history()
    ensures { EachVolumeHasAHistory }
{}

/// Where a group of disks is left on its devices, as by `vxdg deport` or as the power goes, and nothing fails, an import is
/// done and gives it back: the records of its configuration, the same good slots, and its good members on their devices.
pub fn each_group_returns()
    ensures { EachGroupReturns }
{}

/// A group that is made of some disks, nothing failing, is whole: all its disks are good and offer its configuration, which
/// records each, their slots leave room for the next, and no other free device bears its name.
pub fn each_made_group_is_whole()
    ensures { EachMadeGroupIsWhole }
{}

/// A whole group that a disk joins, nothing failing, is whole.
pub fn each_joined_group_is_whole()
    ensures { EachJoinedGroupIsWhole }
{}

/// A whole group that is let go and imported, nothing failing, comes back as in `each_group_returns`, and is whole again:
/// both commands are done.
pub fn each_whole_group_comes_back()
    ensures { EachWholeGroupComesBack }
{}

/// Where the power goes, a group that could be let go is left on its devices as by `vxdg deport`, if no bare volume's device
/// then has a header that names the group.
pub fn each_group_outlives_power()
    ensures { EachGroupOutlivesPower }
{}
