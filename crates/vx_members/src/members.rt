//! Which of the plexes that may serve a read of a region serves it, where the policy of its volume asks a function.
ghost use Rattle.std.specs.Prelude.{◌≡◌, ◌≢◌, ◌≤◌, ℕ, true};
ghost use Rattle.vx_mask.specs.Mask.{has, lowest};

/// The lowest member, whatever the number of the call; 64 where there is none.
pub fn lowest_member(mask: u64, _turn: u64) -> u32
    ensures member { mask ≢ 0 → has mask result ≡ true }
    ensures lowest { result ≡ lowest mask }
{
    vx_mask::first(mask)
}

/// The highest member, whatever the number of the call; 0 where there is none.
pub fn highest_member(mask: u64, _turn: u64) -> u32
    ensures member { mask ≢ 0 → has mask result ≡ true }
    ensures highest { (map : ℕ) → has mask map ≡ true → map ≤ result }
{
    63u32.saturating_sub(mask.leading_zeros())
}
