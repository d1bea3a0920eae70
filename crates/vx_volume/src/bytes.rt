//! The bytes of a whole map: a bit for each region, the lowest region's the lowest of the first byte.

ghost use Rattle.std.specs.Prelude.{◌≡◌, ℕ, ◌+◌, ◌*◌, ◌/◌, ◌<◌, ◌^◌, ◌&&◌, nat_lt, slice_index_or};
ghost use Rattle.vx_mask.specs.Mask.{has};
ghost use Rattle.vx_mapfmt.specs.Bits.{bit_in};
ghost use Rattle.vx_volume.specs.Bytes.{map_bit};

/// The bytes of a page of a map, without the bits behind the last region.
pub fn page_of(bytes: &[u8], page: u64, regions: u64) -> [u8; 512]
    requires { 4096 * page < regions }
    ensures { (region : ℕ) → region / 4096 ≡ page → bit_in result region ≡ (map_bit bytes.now region && nat_lt region regions) }
{
    let mut image = [0; 512];
    for place in 0..512 {
        let at = 512 * page + place as u64;
        image[place] = low_bits(byte_at(bytes, at as usize), regions.saturating_sub(8 * at));
    }
    image
}

/// The byte at a place, 0 behind the last.
fn byte_at(bytes: &[u8], at: usize) -> u8
    ensures { result ≡ slice_index_or bytes.now at 0 }
{
    if at < bytes.len() { bytes[at] } else { 0 }
}

/// The byte with its lowest bits alone, so many.
fn low_bits(byte: u8, count: u64) -> u8
    ensures { (k : ℕ) → k < 8 → has result k ≡ (has byte k && nat_lt k count) }
{
    if count < 8 {
        byte & ((1 << count) - 1)
    } else {
        byte
    }
}
