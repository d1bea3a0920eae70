//! A mirror of a volume, one more data plex that is planned: what is known of it by its definitions. Laws, as functions that do nothing
//! and promise them.

ghost use Rattle.vx_group_edits.specs.MirrorLaws.{EachFreeMapIsFree, EachLaidMirrorIsHeld, EachLaidMirrorIsNew, EachLowestPlexIsLowest, EachMirrorCanBeAskedFor, EachMirrorIsOfItsVolume, EachVolumeHasALowestPlex};

/// Each volume of a configuration has a data plex with the lowest map.
pub fn each_volume_has_a_lowest_plex()
    ensures has { EachVolumeHasALowestPlex }
    ensures lowest { EachLowestPlexIsLowest }
{}

/// A plex like it can be asked for, on whatever disks.
pub fn each_mirror_can_be_asked_for()
    ensures { EachMirrorCanBeAskedFor }
{}

/// A map that is found free is one that no data plex of the volume and none of its relations has.
pub fn each_free_map_is_free()
    ensures { EachFreeMapIsFree }
{}

/// The records of a mirror are a data plex of the volume with its map, and the subdisks of that plex.
pub fn each_mirror_is_of_its_volume()
    ensures { EachMirrorIsOfItsVolume }
{}

/// A mirror that is laid as is planned has one plex, with a map that nothing of the volume has.
pub fn each_laid_mirror_is_new()
    ensures { EachLaidMirrorIsNew }
{}

/// Once the records of such a mirror are added, all disks of its plex are good.
pub fn each_laid_mirror_is_held()
    ensures { EachLaidMirrorIsHeld }
{}
