//! Where plexes lie, in words.
use std::alloc::Global;
use vx_base::OutOfMemory;
use vx_image::layout_of;
use vx_layout::{Layout, Strip};
use vx_names::Name;
use vx_objects::Config;

/// For each plex its name, and for each of its columns the strips in their order, each as `SLOT:FIRST+COUNT`.
pub fn lies(alloc: Global, config: &Config) -> Result<Vec<u8>, OutOfMemory> {
    let mut out = Vec::new(alloc);
    let plexes = config.plexes.as_slice();
    for index in 0..plexes.len() {
        let plex = &plexes[index];
        let layout = layout_of(alloc, config, plex)?;
        if index > 0 {
            out.extend_from_slice(b"; ")?;
        }
        out.extend_from_slice(plex.name.as_bytes())?;
        add_columns(&layout, &mut out)?;
    }
    Ok(out)
}

fn add_columns(layout: &Layout, out: &mut Vec<u8>) -> Result<(), OutOfMemory> {
    for column in 0..layout.columns.len() {
        if column > 0 {
            out.extend_from_slice(b",")?;
        }
        for strip in layout.columns.strips(column) {
            add_strip(strip, out)?;
        }
    }
    Ok(())
}

fn add_strip(strip: &Strip, out: &mut Vec<u8>) -> Result<(), OutOfMemory> {
    out.push(b' ')?;
    out.extend_from_slice(Name::number(strip.disk as u64).as_bytes())?;
    out.push(b':')?;
    out.extend_from_slice(Name::number(strip.start).as_bytes())?;
    out.push(b'+')?;
    out.extend_from_slice(Name::number(strip.count).as_bytes())?;
    Ok(())
}
