//! Sets of maps as masks, and the marks of one region as the copies of a log show them. Map k is in a mask where its
//! bit k is set. What a mark, an unmark and a failure of either may do to the marks is told here once, in definitions
//! and laws, for whatever speaks of marks: a log, the rules of a region, a cell.
#![tactic(auto)]

ghost use Rattle.std.specs.Prelude.{◌≡◌};
ghost use Rattle.vx_mask.specs.Mask.{above_lowest, has, lowest, only, union, without};

/// The map of the dirty bit.
pub const DIRTY: u32 = 30;

/// The mask of one map; a map from 64 on is in no mask.
#[tactic(auto, unfolding(crate::specs::Mask::only))]
pub fn of(map: u32) -> u64
    ensures { result ≡ only map }
{
    if map < 64 { 1 << map } else { 0 }
}

/// Whether the map is in the mask.
#[tactic(auto, using(crate::proofs::MaskLemmas::has_from_shift, crate::proofs::MaskLemmas::has_above_64))]
pub fn contains(mask: u64, map: u32) -> bool
    ensures { result ≡ has mask map }
{
    map < 64 && (mask >> map) & 1 == 1
}

/// The maps of both masks.
#[tactic(auto, unfolding(crate::specs::Mask::union))]
pub fn with(mask: u64, more: u64) -> u64
    ensures { result ≡ union mask more }
{
    mask | more
}

/// The maps of the first mask that are not in the second.
#[tactic(auto, using(crate::proofs::MaskLemmas::without_from_not))]
pub fn less(mask: u64, taken: u64) -> u64
    ensures { result ≡ without mask taken }
{
    mask & !taken
}

/// The lowest map of a mask; 64 where it is empty.
#[tactic(auto, unfolding(crate::specs::Mask::lowest))]
pub fn first(mask: u64) -> u32
    ensures { result ≡ lowest mask }
{
    mask.trailing_zeros()
}

/// The maps of a mask above its lowest.
pub fn rest(mask: u64) -> u64
    ensures { result ≡ above_lowest mask }
{
    less(mask, of(first(mask)))
}
