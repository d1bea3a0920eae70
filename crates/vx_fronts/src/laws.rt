//! Laws of disks of which a group has the fronts, each a function with an empty body whose contract states it.

ghost use Rattle.vx_fronts.specs.Laws.{EachAdditionIsWhole, EachCommitIsWhole, EachConfigurationIsWhole, EachCutIsWhole, EachEntryIsWhole, EachFailureIsWhole, EachLeadIsWhole, EachMaskIsWhole, EachTextIsCarriedWhole, EachWriteIsWhole};
ghost use Rattle.vx_fronts.specs.RestLaws.{BackAreCounted, BackAreHeld, BackStayParted, DevicesWereCalled, DisksTell, JoinedIsWhole, JoinedStayParted, LentAreCounted, LentAreEmpty, LentStayParted, NoneIsBehind, PartedAreFree, PartedAreOnce, PartedHavePrivate, PartedStay, PartedWereCalled, PartedWereCommitted, PartsAreOnce, PiecesTellStill, RestsAreCounted, RestsStay, WholeArePartedAlone};

/// A commit to the fronts of a group's disks is one to their whole devices, however it ends.
pub fn each_commit_is_whole()
    ensures commits { EachCommitIsWhole }
    ensures carries { EachTextIsCarriedWhole }
    ensures writes { EachWriteIsWhole }
{}

/// A failure of a front, and the loss of its power, are those of the whole device.
pub fn each_failure_is_whole()
    ensures failed { EachFailureIsWhole }
    ensures cut { EachCutIsWhole }
{}

/// The whole devices give the configuration that the fronts give, have the same good slots, and are led by the same disks.
pub fn each_configuration_is_whole()
    ensures gives { EachConfigurationIsWhole }
    ensures mask { EachMaskIsWhole }
    ensures led { EachLeadIsWhole }
{}

/// What becomes of the rests of devices where the pieces behind are moved, cut, joined, lent and put back.
pub fn each_rest_stays()
    ensures counted { RestsAreCounted }
    ensures stay { RestsStay }
    ensures tell { PiecesTellStill }
    ensures lent { LentAreCounted }
    ensures empty { LentAreEmpty }
    ensures back { BackAreCounted }
    ensures held { BackAreHeld }
{}

/// A device of which there is no piece is there whole, and one of which pieces were called has failed no less than before.
pub fn each_device_goes_on()
    ensures none { NoneIsBehind }
    ensures called { DevicesWereCalled }
{}

/// Disks whose devices are in pieces: what they begin with, what is known of them, and what keeps them so.
pub fn each_disk_stays_parted()
    ensures alone { WholeArePartedAlone }
    ensures private { PartedHavePrivate }
    ensures once { PartedAreOnce }
    ensures free { PartedAreFree }
    ensures stay { PartedStay }
    ensures called { PartedWereCalled }
    ensures committed { PartedWereCommitted }
    ensures lent { LentStayParted }
    ensures back { BackStayParted }
{}

/// A disk that joins is there whole, and the others stay parted; and small steps to the conditions of other calls.
pub fn each_joined_disk_is_whole()
    ensures parted { JoinedStayParted }
    ensures whole { JoinedIsWhole }
    ensures tell { DisksTell }
    ensures once { PartsAreOnce }
{}

/// A call that adds whole disks to those of which a group has the fronts is one to their whole devices, however it ends.
pub fn each_entry_is_whole()
    ensures entry { EachEntryIsWhole }
    ensures added { EachAdditionIsWhole }
{}
