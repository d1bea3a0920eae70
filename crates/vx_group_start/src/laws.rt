//! Laws that callers need, each a function that does nothing and promises it.

ghost use Rattle.vx_group_start.specs.GroupDisks.{BehindAreOnce, GroupDisksAreNumbered, VolumesAreFree};
ghost use Rattle.vx_group_start.specs.Laws.{CopiesChangeContents, CopiesChangeTheirOwn, CopiesCountTheirOwn, CopiesGoAmong, CopiesGoBeside, CopiesGoTogether, EachFreshRegionIsMissed};

/// A start of a volume that never was started has all regions to copy, where a plex save the lowest is on.
pub fn each_fresh_region_is_missed()
    ensures { EachFreshRegionIsMissed }
{}

/// A caller that parted the disks of a group right behind their private regions, and lent no piece, meets what `open_volume`
/// asks of the pieces and of the numbers of the devices.
pub fn volumes_can_be_opened()
    ensures numbered { GroupDisksAreNumbered }
    ensures once { BehindAreOnce }
    ensures free { VolumesAreFree }
{}

/// As a volume is opened out of pieces, or is refused, the copies of its log alone are called: the pieces hold what they did in
/// each sector that no copy has, and nothing is counted on a device of which none has a piece.
pub fn copies_alone_are_called()
    ensures together { CopiesGoTogether }
    ensures beside { CopiesGoBeside }
    ensures among { CopiesGoAmong }
    ensures holds { CopiesChangeTheirOwn }
    ensures contents { CopiesChangeContents }
    ensures counts { CopiesCountTheirOwn }
{}
