//! Laws of the images of a group's volumes, each a function with an empty body whose contract states it.

ghost use Rattle.vx_moments.specs.Drops.{EachDropIsSound, EachDropStands};
ghost use Rattle.vx_moments.specs.Laws.{EachOtherImageStays, EachVolumeStaysSound};
ghost use Rattle.vx_moments.specs.Lives.{EachLeavingLeavesSound, EachStartLeavesSound};
ghost use Rattle.vx_moments.specs.Volumes.{EachVolumeIsReadBack, EachVolumeReadStands};

/// A change in the sectors of one volume leaves every other volume of the group as it is, and as sound.
pub fn each_other_image_stays()
    ensures same { EachOtherImageStays }
    ensures sound { EachVolumeStaysSound }
{}

/// What is read from the bytes of a volume that was left lies within what was known of it, and sound bytes stand for the volume
/// that is read from them.
pub fn each_volume_is_read_back()
    ensures within { EachVolumeIsReadBack }
    ensures stands { EachVolumeReadStands }
{}

/// Where a volume begins to run, and where it is left, all volumes that do not run are as sound as they were.
pub fn each_life_leaves_sound()
    ensures start { EachStartLeavesSound }
    ensures leaving { EachLeavingLeavesSound }
{}

/// A volume of which a disk is dropped, with its plexes and copies of logs, is as sound, and stands for the same candidates.
pub fn each_drop_is_sound()
    ensures sound { EachDropIsSound }
    ensures stands { EachDropStands }
{}
