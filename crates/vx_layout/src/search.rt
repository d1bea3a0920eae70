ghost use Rattle.std.specs.Prelude.{◌≡◌, ◌<◌, ◌^◌, ◌↔◌, IsTrue};
ghost use Rattle.vx_layout.specs.Columns.{column_length, sector_at, has_place};
ghost use Rattle.vx_layout.specs.Runs.{Continues};

use crate::place::Place;
use crate::run::Run;
use crate::strip::Strip;

/// The sector of a column that lies at a place, if any.
pub fn sector_at(strips: &[Strip], place: &Place) -> Option<u64>
    requires { column_length strips.now < 2 ^ 64 }
    ensures { result ≡ sector_at strips.now place.now }
{
    let mut before = 0;
    for strip in strips {
        if has_place(strip, place) {
            return Some(before + (place.sector - strip.start));
        }
        before += strip.count;
    }
    None
}

fn has_place(strip: &Strip, place: &Place) -> bool
    ensures { result ≡ has_place strip.now place.now }
{
    strip.disk == place.disk
        && strip.start <= place.sector
        && place.sector - strip.start < strip.count
}

/// Whether the second run begins where the first ends.
pub fn continues(first: &Run, second: &Run) -> bool
    ensures { IsTrue result ↔ Continues first.now second.now }
{
    second.disk == first.disk
        && second.sector >= first.count
        && second.sector - first.count == first.sector
}
