ghost use Rattle.std.specs.Prelude.{◌≡◌, ◌&&◌, ◌==◌, ◌<◌, ◌+◌, ℕ, min, slice_index, if◌then◌else◌};
ghost use Rattle.std.specs.Str.{bytes_eq};
ghost use Rattle.vx_config_parts.specs.Objects.{is_plex, is_snap, is_data_plex_of};
ghost use Rattle.vx_rules.specs.Maps.{has_map, map_uses};

use crate::limits::is_data_of;
use vx_config_parts::{Object, same};
use vx_names::Name;

/// How often each of the maps 0 to 29 is used in the volume; 255 stands for more too.
pub(crate) fn uses_of_maps(all: &[Object], vol: &Name) -> [u8; 30]
    ensures { (m : ℕ) → m < 30 → slice_index result m ≡ min 255 (map_uses all.now vol.now m) }
{
    let mut uses = [0; 30];
    for object in all {
        count(&mut uses, data_plex_map(object, vol));
        count(&mut uses, snapshot_map(object, vol));
        count(&mut uses, original_map(object, vol));
    }
    uses
}

fn count(uses: &mut [u8; 30], map: Option<u8>)
    ensures { (m : ℕ) → m < 30 → slice_index uses.new m ≡ min 255 (slice_index uses.old m + (if has_map map m then 1 else 0)) }
{
    match map {
        Some(map) if map < 30 => {
            let place = map as usize;
            uses[place] = uses[place].saturating_add(1);
        }
        _ => {}
    }
}

/// The map of a data plex of the volume.
fn data_plex_map(object: &Object, vol: &Name) -> Option<u8>
    ensures { (m : ℕ) → has_map result m ≡ is_plex (λ p. is_data_plex_of vol.now p && has_map p.map m) object.now }
{
    match object {
        Object::PlexRecord(plex) if is_data_of(plex, vol) => plex.map,
        _ => None,
    }
}

/// The map of a relation in its snapshot, where that is the volume.
fn snapshot_map(object: &Object, vol: &Name) -> Option<u8>
    ensures { (m : ℕ) → has_map result m ≡ is_snap (λ s. bytes_eq s.vol vol.now && s.map == m) object.now }
{
    match object {
        Object::SnapRecord(snap) if same(&snap.vol, vol) => Some(snap.map),
        _ => None,
    }
}

/// The map of a relation in its original, where that is the volume.
fn original_map(object: &Object, vol: &Name) -> Option<u8>
    ensures { (m : ℕ) → has_map result m ≡ is_snap (λ s. bytes_eq s.of vol.now && s.ofmap == m) object.now }
{
    match object {
        Object::SnapRecord(snap) if same(&snap.of, vol) => Some(snap.ofmap),
        _ => None,
    }
}
