//! The form of a running volume without one plex.
ghost use Rattle.std.specs.Prelude.{◌≡◌, ◌<◌, false, length, MatchOption};
ghost use Rattle.vx_joined_volumes.specs.Parted.{IsFormParted};
ghost use Rattle.vx_lending.specs.RegionsTaken.{is_among};
ghost use Rattle.vx_volume.specs.Parting.{shape_without};
ghost use Rattle.vx_stage_dissociation.specs.Taking.{IsFirstAt};

use vx_lending::VolumeForm;
use vx_volume::VolumeShape;

/// The form is without the plex of this map. One that the volume was opened without has no layout.
pub(crate) fn part_form(form: &mut VolumeForm, map: u8)
    requires many { length form.old.maps.items ≡ length form.old.layouts.items }
    ensures { IsFormParted map form.old form.new }
{
    form.shape = shape_without(form.shape, map);
    match first_at(form.maps.as_slice(), map) {
        Some(index) => {
            form.maps.remove(index);
            form.layouts.remove(index);
        }
        None => {}
    }
}

/// The masks without the plex.
fn shape_without(shape: VolumeShape, map: u8) -> VolumeShape
    ensures { result ≡ shape_without shape map }
{
    let plex = vx_mask::of(u32::from(map));
    VolumeShape {
        on: vx_mask::less(shape.on, plex),
        off: vx_mask::less(shape.off, plex),
        ..shape
    }
}

/// The place of the first of these maps.
fn first_at(maps: &[u8], map: u8) -> Option<usize>
    ensures { MatchOption result (is_among map maps.now ≡ false) (λ i. (i < length maps.now) × IsFirstAt map maps.now i) }
{
    match maps {
        [] => None,
        [first, rest @ ..] => {
            if *first == map {
                Some(0)
            } else {
                match first_at(rest, map) {
                    Some(index) => Some(index + 1),
                    None => None,
                }
            }
        }
    }
}
