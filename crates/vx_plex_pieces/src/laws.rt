//! What regions are that were taken with one map, and what they are good for: laws, as functions that do nothing and promise them.

ghost use Rattle.vx_plex_pieces.specs.Laws.{EachTakenPlexMayBePut, EachTakenRegionIsARun};

/// Regions that were taken with one map have a plex each, whose pieces are those of the blocks of the region.
pub fn each_taken_region_is_a_run()
    ensures { EachTakenRegionIsARun }
{}

/// So they are what a volume asks of a plex that is put into its regions, where each region is marked for it.
pub fn each_taken_plex_may_be_put()
    ensures { EachTakenPlexMayBePut }
{}
