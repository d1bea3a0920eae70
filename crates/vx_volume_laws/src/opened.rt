//! A volume that is opened over pieces of its plexes is the image that its bytes are: laws, as functions that do nothing and
//! promise them.
ghost use Rattle.vx_volume_laws.specs.LoadedLogs.{EachAbsentLogShowsACopy, EachLoadedLogShowsACopy};
ghost use Rattle.vx_volume_laws.specs.Opened.{EachImageIsWellFormed, EachOpenedVolumeIsItsImage, EachOpenedVolumeStands};

/// The image of a volume of a configuration is well formed.
pub fn each_image_is_well_formed()
    ensures { EachImageIsWellFormed }
{}

/// Each region of an opened volume is opened as the image of the volume, by the copy of the log that was loaded, and over
/// sound bytes it begins a life.
pub fn each_opened_volume_is_its_image()
    ensures image { EachOpenedVolumeIsItsImage }
    ensures stands { EachOpenedVolumeStands }
{}

/// A log that was loaded from the copies of a volume shows what a copy of its image marks, and so does the absent log of a
/// volume without a DCO.
pub fn each_log_shows_a_copy()
    ensures loaded { EachLoadedLogShowsACopy }
    ensures absent { EachAbsentLogShowsACopy }
{}
