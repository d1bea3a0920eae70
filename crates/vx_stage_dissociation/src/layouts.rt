//! Which of some layouts lies where another does.
ghost use Rattle.std.specs.Prelude.{◌≡◌, MatchBool, MatchOption};
ghost use Rattle.vx_yielded_volumes.specs.Yielded.{HaveStrip, IsCopyOn, IsOnNoCopy};
ghost use Rattle.vx_stage_dissociation.specs.Yielding.{BeginAlike};

use vx_layout::{Layout, Strip};

/// The place of the first of the layouts that begins with the strip that this one begins with. No two plexes of a group have a strip in common,
/// so it is the place of this layout, if that is among them.
pub(crate) fn place_among(layouts: &[Layout], layout: &Layout) -> Option<usize>
    ensures { MatchOption result (IsOnNoCopy layouts.now layout.now) (λ copy. IsCopyOn layouts.now copy layout.now) }
{
    match layouts {
        [] => None,
        [first, rest @ ..] => {
            if share_strip(first, layout) {
                Some(0)
            } else {
                match place_among(rest, layout) {
                    Some(index) => Some(index + 1),
                    None => None,
                }
            }
        }
    }
}

fn share_strip(one: &Layout, other: &Layout) -> bool
    ensures { MatchBool result (HaveStrip one.now other.now) (one.now.columns ≡ other.now.columns → ⊥) }
{
    begin_alike(one.columns.strips(0), other.columns.strips(0))
}

fn begin_alike(one: &[Strip], other: &[Strip]) -> bool
    ensures { MatchBool result (BeginAlike one.now other.now) (BeginAlike one.now other.now → ⊥) }
{
    match one {
        [] => false,
        [first, ..] => match other {
            [] => false,
            [second, ..] => *first == *second,
        },
    }
}
