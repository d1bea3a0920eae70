ghost use Rattle.std.specs.Prelude.{◌≡◌};
ghost use Rattle.vx_block.specs.Regions.{region_count};
ghost use Rattle.vx_mapfmt.specs.Sizes.{map_bytes_of, plex_bytes_of};

use crate::bit_place::BitPlace;
use vx_block::Geometry;
use vx_sector::{first_difference, put, put_u32, put_u64, put_zeros};

const SECTOR_BYTES: u64 = 512;

const MAP_UNIT: u64 = 8192;

const PAGE_REGIONS: u64 = 4096;

/// The shape of a plex that holds the change maps of a volume: three slots, the first with the header, and then the
/// maps, each slot of one size.
#[derive(Clone, Copy, Debug, PartialEq, Eq)]
pub struct DcoShape {
    /// How the volume is cut into regions.
    pub geometry: Geometry,
    /// How many regions that makes.
    pub regions: u64,
    /// How many maps there are, which is 32.
    pub maps: u32,
    /// The bytes of a slot.
    pub map_bytes: u64,
    /// The bytes of all slots.
    pub plex_bytes: u64,
    ghost counted: { regions ≡ region_count geometry.length geometry.region },
    ghost maps_known: { maps ≡ 32 },
    ghost map_sized: { map_bytes ≡ map_bytes_of regions },
    ghost plex_sized: { plex_bytes ≡ plex_bytes_of maps map_bytes },
}

impl DcoShape {
    ghost use Rattle.std.specs.Prelude.{◌<◌, ◌+◌, ◌*◌, ◌/◌, ◌%◌, ◌↔◌, length, IsSome, IfSome, IsTrue};
    ghost use Rattle.vx_mapfmt.specs.Sizes.{page_count, page_sector};
    ghost use Rattle.vx_mapfmt.specs.Header.{maps_header};

    /// The shape of the maps of a volume. There is one for 32 maps alone.
    pub fn of(geometry: &Geometry, maps: u32) -> Option<DcoShape>
        ensures known { IsSome result ↔ (maps ≡ 32) }
        ensures geometry { IfSome result (λ shape. shape.geometry ≡ geometry.now) }
    {
        if maps != 32 {
            return None;
        }
        let regions = geometry.regions();
        let map_bytes = (SECTOR_BYTES + regions.div_ceil(8)).div_ceil(MAP_UNIT) * MAP_UNIT;
        let plex_bytes = (3 + maps as u64) * map_bytes;
        Some(DcoShape {
            geometry: *geometry,
            regions,
            maps,
            map_bytes,
            plex_bytes,
        })
    }

    /// How many pages a map has: one for each 4,096 regions, the last perhaps for fewer.
    pub fn pages(&self) -> u64
        ensures { result ≡ page_count self.now.regions }
    {
        self.regions.div_ceil(PAGE_REGIONS)
    }

    /// The sector of the plex that holds a page of a map.
    pub fn sector_of(&self, map: u32, page: u64) -> u64
        requires map { map < self.now.maps }
        requires page { page < page_count self.now.regions }
        ensures value { result ≡ page_sector self.now.map_bytes map page }
        ensures in_slot { result < (3 + (map + 1)) * self.now.map_bytes / 512 }
        ensures in_plex { result < self.now.plex_bytes / 512 }
    {
        (3 + map as u64) * (self.map_bytes / SECTOR_BYTES) + 1 + page
    }

    /// Where the bit of a region stands in each map.
    pub fn bit_of(&self, region: u64) -> BitPlace
        requires { region < self.now.regions }
        ensures page { result.page ≡ region / 4096 }
        ensures byte { result.byte ≡ region % 4096 / 8 }
        ensures bit { result.bit ≡ region % 8 }
        ensures in_map { result.page < page_count self.now.regions }
        ensures in_page { result.byte < 512 }
    {
        BitPlace {
            page: region / PAGE_REGIONS,
            byte: region % PAGE_REGIONS / 8,
            bit: (region % 8) as u32,
        }
    }

    /// Fills the first sector of the plex, of 512 bytes.
    pub fn put_header(&self, out: &mut [u8])
        requires { length out.old ≡ 512 }
        ensures { out.new ≡ maps_header self.now.geometry.length self.now.geometry.region self.now.maps }
    {
        put(b"vxdco020", 0, out);
        put_u64(self.geometry.length, 8, out);
        put_u64(self.geometry.region, 16, out);
        put_u32(self.maps, 24, out);
        put_zeros(484, 28, out);
    }

    /// Whether a sector of 512 bytes is this plex's header.
    pub fn is_header(&self, sector: &[u8]) -> bool
        requires { length sector.now ≡ 512 }
        ensures { IsTrue result ↔ (sector.now ≡ maps_header self.now.geometry.length self.now.geometry.region self.now.maps) }
    {
        let mut spelled = [0; 512];
        self.put_header(&mut spelled);
        first_difference(sector, &spelled).is_none()
    }
}
