//! The shape of change maps.
use crate::shown::put_bytes;
use std::io;
use vx_block::Geometry;
use vx_mapfmt::DcoShape;

/// Those of a volume of 10 GiB.
pub fn show<R: AllocGlobal + Print>(rt: &R) -> io::Result<()> {
    let Some(shape) = Geometry::new(20_971_520, 128).and_then(|geometry| DcoShape::of(
        &geometry, 32,
    )) else {
        return println!(rt; "no shape");
    };
    println!(rt;
        "maps of 10 GiB: {} regions, {} bytes a map, {} in all",
        shape.regions, shape.map_bytes, shape.plex_bytes
    )?;
    println!(rt;
        "the first page of the first map: sector {}",
        shape.sector_of(0, 0)
    )?;
    let mut sector = [7; 512];
    shape.put_header(&mut sector);
    put_bytes(rt, "its header", &sector, 0, 32)?;
    println!(rt; "it is one: {}", shape.is_header(&sector))
}
