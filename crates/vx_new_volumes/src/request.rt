ghost use Rattle.std.specs.Prelude.{◌≡◌};
ghost use Rattle.vx_new_volumes.specs.Rule.{is_request, has_small_numbers};

use vx_block::Geometry;
use vx_names::Name;
use vx_objects::Listed;

/// The plexes and logs that a volume is to get.
#[derive(Drop)]
pub struct Request {
    /// The sectors of the volume.
    pub length: u64,
    /// The sectors of its regions.
    pub region: u64,
    /// The columns of each plex, 1 to 16: a plex of one column may lie on several disks.
    pub ncol: u32,
    /// The stripe unit, 1 to 2^40 sectors.
    pub unit: u64,
    /// How many plexes, at most 8.
    pub mirrors: u32,
    /// How many logs, at most 2.
    pub logs: u32,
    /// The disks that may be taken from; all good ones where none is named.
    pub disks: Listed<Name>,
    /// The disks that no plex is to be on.
    pub avoid: Listed<Name>,
}

impl Request {
    /// Its numbers are in these ranges, and its volume can be cut into regions.
    pub fn is_valid(&self) -> bool
        ensures { result ≡ is_request self.now }
    {
        Geometry::new(self.length, self.region).is_some() && self.has_small_numbers()
    }

    fn has_small_numbers(&self) -> bool
        ensures { result ≡ has_small_numbers self.now }
    {
        self.ncol >= 1
            && self.ncol <= 16
            && self.unit >= 1
            && self.unit <= 1 << 40
            && self.mirrors <= 8
            && self.logs <= 2
    }
}
