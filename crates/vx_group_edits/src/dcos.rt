//! A volume of one data plex that gets logs and a DCO, or loses them, by the edits of a command: what it is then, and that all else stays.
//! Laws, as functions that do nothing and promise them.

ghost use Rattle.vx_group_edits.specs.DcoLaws.{EachFittingLogHasNoFault, EachLoneImageIsSound, EachLonePlexHolds, EachNewLogIsUsed, EachOwnEditKeepsGroup, EachPreparingChangesDco, EachPreparingIsOwn, EachUnpreparingChangesDco, EachUnpreparingIsOwn};

/// The edits by which a volume gets logs are of that volume alone.
pub fn each_preparing_is_own()
    ensures { EachPreparingIsOwn }
{}

/// So are those by which it loses them.
pub fn each_unpreparing_is_own()
    ensures { EachUnpreparingIsOwn }
{}

/// Edits of one volume leave the group its name and its disks, and add no volume.
pub fn each_own_edit_keeps_group()
    ensures { EachOwnEditKeepsGroup }
{}

/// Where no test before the plan refuses logs, the group says nothing against them.
pub fn each_fitting_log_has_no_fault()
    ensures { EachFittingLogHasNoFault }
{}

/// A volume that gets logs has its data plex where it lay, with map 0, and a DCO; its logs are new and lie on good disks.
pub fn each_preparing_changes_dco()
    ensures { EachPreparingChangesDco }
{}

/// Where its logs are active, they are the ones that are used.
pub fn each_new_log_is_used()
    ensures { EachNewLogIsUsed }
{}

/// A volume that loses its logs has its data plex where it lay, without a map, and no DCO.
pub fn each_unpreparing_changes_dco()
    ensures { EachUnpreparingChangesDco }
{}

/// The image of such a volume has its one plex, which holds what it held.
pub fn each_lone_plex_holds()
    ensures { EachLonePlexHolds }
{}

/// An image of one plex, without relations and without marks, is sound.
pub fn each_lone_image_is_sound()
    ensures { EachLoneImageIsSound }
{}
