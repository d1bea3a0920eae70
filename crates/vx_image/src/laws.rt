//! A volume as the bytes of its disks are: what its data plexes hold and what the copies of its log mark, what is read from
//! that, and when it is sound. Definitions, and laws as functions that do nothing and promise them.

ghost use Rattle.vx_image.specs.Counts.{EachCountFits};
ghost use Rattle.vx_image.specs.Deciding.{EachImageIsSoundOrNot};
ghost use Rattle.vx_image.specs.Import.{EachImportIsSound, EachImportStands};
ghost use Rattle.vx_image.specs.Meaning.{EachImageStandsForItself, EachReadingIsWithin};
ghost use Rattle.vx_image.specs.Narrowing.{EachImageIsNarrowed, EachNarrowedIsRead, EachNarrowedIsSound, EachNarrowedPairIsSound, EachNarrowingGoesOn};
ghost use Rattle.vx_image.specs.Own.{EachImageIsItsOwn};

/// The image of a volume is what its own sectors hold.
pub fn each_image_is_its_own()
    ensures { EachImageIsItsOwn }
{}

/// What is read from an image lies within whatever it stands for, and the image stands for it.
pub fn each_reading_is_within()
    ensures own { EachImageStandsForItself }
    ensures within { EachReadingIsWithin }
{}

/// An import, which records a volume that was started in another such state, leaves it as sound and standing for the same.
pub fn each_import_stands()
    ensures sound { EachImportIsSound }
    ensures stands { EachImportStands }
{}

/// What a recovery counts by the marks of one copy is what may be told.
pub fn each_count_fits()
    ensures { EachCountFits }
{}

/// An image is sound, or it is not.
pub fn each_image_is_sound_or_not()
    ensures { EachImageIsSoundOrNot }
{}

/// An image whose copies mark something between what they marked before is as sound as it was, and what is read of it is within what was
/// read.
pub fn each_narrowed_image_is_sound()
    ensures own { EachImageIsNarrowed }
    ensures on { EachNarrowingGoesOn }
    ensures sound { EachNarrowedIsSound }
    ensures pair { EachNarrowedPairIsSound }
    ensures read { EachNarrowedIsRead }
{}
