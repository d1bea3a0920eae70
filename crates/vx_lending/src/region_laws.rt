//! Laws that callers need, each a function that does nothing and promises it.

ghost use Rattle.vx_lending.specs.RegionLaws.{TakenRegionsMayBeOpened};

/// Over regions that were taken a volume may be opened whose plexes have the maps that they were taken with.
pub fn taken_regions_may_be_opened()
    ensures { TakenRegionsMayBeOpened }
{}
