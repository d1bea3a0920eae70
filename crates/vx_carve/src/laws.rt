//! Laws of layouts and pools, each a function with an empty body whose contract states it. With them a caller meets what
//! `carve_plex` and `carve_region` ask: for the first plex over whole stretches of disks, for the next plex and volume, and
//! for the next region.

ghost use Rattle.vx_carve.specs.Laws.{PiecesHaveSectors, StretchesAreFree, StripsAreFree, BlocksAreOn, BlocksAreFree, BlocksAreApart, OtherPlexesStay, OtherVolumesStay, OtherBlocksStay};

/// Stretches of disks, one of each disk, have each sector once, and all of theirs; so have the strips that lie in them.
pub fn stretches_are_free()
    ensures pieces { PiecesHaveSectors }
    ensures stretches { StretchesAreFree }
    ensures strips { StripsAreFree }
{}

/// The blocks of a layout lie where its strips do.
pub fn blocks_lie_on_strips()
    ensures on { BlocksAreOn }
    ensures free { BlocksAreFree }
    ensures apart { BlocksAreApart }
{}

/// Once blocks were taken, all others are where they were.
pub fn others_stay()
    ensures plexes { OtherPlexesStay }
    ensures volumes { OtherVolumesStay }
    ensures blocks { OtherBlocksStay }
{}
