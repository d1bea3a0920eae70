ghost use Rattle.std.specs.Prelude.{◌≡◌, ◌+◌, ◌≤◌, ◌↔◌, ◌==◌, length, take, drop, MatchOption, IsTrue};
ghost use Rattle.std.specs.List.{list_all};
ghost use Rattle.vx_sector.specs.Fields.{zeros, eight_bytes, four_bytes, IsFirstDifference};

/// The number whose eight bytes stand at a place.
#[tactic(auto, unfolding(crate::specs::Fields::eight_bytes))]
pub fn u64_at(sector: &[u8], at: usize) -> u64
    requires { at + 8 ≤ length sector.now }
    ensures { eight_bytes result ≡ take 8 (drop at sector.now) }
{
    let mut bytes = [0; 8];
    bytes.copy_from_slice(&sector[at..at + 8]);
    u64::from_be_bytes(bytes)
}

/// The number whose four bytes stand at a place.
#[tactic(auto, unfolding(crate::specs::Fields::four_bytes))]
pub fn u32_at(sector: &[u8], at: usize) -> u32
    requires { at + 4 ≤ length sector.now }
    ensures { four_bytes result ≡ take 4 (drop at sector.now) }
{
    let mut bytes = [0; 4];
    bytes.copy_from_slice(&sector[at..at + 4]);
    u32::from_be_bytes(bytes)
}

/// Whether all bytes are zero.
pub fn is_zero(bytes: &[u8]) -> bool
    ensures { IsTrue result ↔ (bytes.now ≡ zeros (length bytes.now)) }
{
    are_all_zero(bytes)
}

fn are_all_zero(bytes: &[u8]) -> bool
    ensures { result ≡ list_all (λ x. x == 0) bytes.now }
{
    bytes.iter().all(|byte| *byte == 0)
}

/// The first place at which the two differ.
pub fn first_difference(one: &[u8], other: &[u8]) -> Option<usize>
    requires { length one.now ≡ length other.now }
    ensures { MatchOption result (one.now ≡ other.now) (IsFirstDifference one.now other.now) }
{
    for i in 0..one.len() {
        if one[i] != other[i] {
            return Some(i);
        }
    }
    None
}
