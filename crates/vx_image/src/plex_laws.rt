//! Laws of valid configurations, each a function with an empty body whose contract states it.

ghost use Rattle.vx_image.specs.Lies.{PlexesLieApart};
ghost use Rattle.vx_image.specs.Room.{LayoutsArePlexes, PlexesHaveRoom};
ghost use Rattle.vx_image.specs.Once.{EachSectorIsInOneSubdisk};

/// Two subdisks of one disk that have a sector in common are one.
pub fn each_sector_is_in_one_subdisk()
    ensures { EachSectorIsInOneSubdisk }
{}

/// Two plexes of a configuration have no sector of a disk in common.
pub fn plexes_lie_apart()
    ensures { PlexesLieApart }
{}

/// With them a caller meets what `carve_region` asks of the layouts of the plexes of a volume: where the public regions of
/// all disks are in pieces, each strip of a layout is, and no two of the layouts have a sector in common.
pub fn plexes_have_room()
    ensures room { PlexesHaveRoom }
    ensures apart { LayoutsArePlexes }
{}
