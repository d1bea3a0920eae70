//! What the form of a volume is good for: laws, each a function with an empty body whose contract states it.

ghost use Rattle.vx_lending.specs.FormLaws.{FormsAreApart, FormsAreFree, FormsCanBeTaken, FormsHaveLogs, FormsHaveLowMaps, FormsHaveMasks, FormsLieOnGoodDisks};

/// The plexes and logs of a form lie on good disks alone, and so are in pieces where the public regions of these are.
pub fn forms_lie_on_good_disks()
    ensures lie { FormsLieOnGoodDisks }
    ensures free { FormsAreFree }
{}

/// Where they are in pieces a caller meets what `take_regions` asks of maps and layouts, and what `carve_region` asks of the
/// logs beside them.
pub fn forms_can_be_taken()
    ensures { FormsCanBeTaken }
{}

/// The plexes and logs of two volumes have no sector in common: once those of one were taken, those of the other are in pieces
/// as before.
pub fn forms_are_apart()
    ensures { FormsAreApart }
{}

/// A caller meets what `Volume::open` asks of the masks.
pub fn forms_have_masks()
    ensures masks { FormsHaveMasks }
    ensures low { FormsHaveLowMaps }
{}

/// There are at most two logs, and each has room for the change maps of the volume.
pub fn forms_have_logs()
    ensures { FormsHaveLogs }
{}
