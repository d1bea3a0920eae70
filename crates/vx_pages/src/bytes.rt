//! The bytes of a page: a bit for each of its regions.

ghost use Rattle.std.specs.Prelude.{◌≡◌, ℕ, ◌<◌, ◌%◌, ◌&&◌, ◌==◌, nat_lt, length, if◌then◌else◌, IfOk};
ghost use Rattle.vx_mapfmt.specs.Bits.{bit_in};
ghost use Rattle.vx_mask.specs.Mask.{has};
ghost use Rattle.vx_sector.specs.Fields.{zeros};
ghost use Rattle.vx_pages.specs.Bytes.{full, same_place};
ghost use Rattle.vx_pages.specs.Images.{images_seen};
ghost use Rattle.vx_pages.specs.Reading.{AreImages, image_at};
ghost use Rattle.vx_pages.specs.Setting.{differ};

use std::alloc::Global;
use vx_base::OutOfMemory;
use vx_mask::contains;
use vx_sector::put_zeros;

/// Whether the page has the bit of a region.
pub fn has_bit(page: &[u8], region: u64) -> bool
    requires { length page.now ≡ 512 }
    ensures { result ≡ bit_in page.now region }
{
    contains(
        page[(region % 4096 / 8) as usize] as u64,
        (region % 8) as u32,
    )
}

/// Puts the bit of a region to this value.
pub fn put_bit(page: &mut Vec<u8>, region: u64, on: bool)
    requires { length page.old.items ≡ 512 }
    ensures bits { (other : ℕ) → bit_in page.new.items other ≡ (if same_place region other then on else bit_in page.old.items other) }
    ensures length { length page.new.items ≡ 512 }
{
    let place = (region % 4096 / 8) as usize;
    page[place] = with_bit(page[place], (region % 8) as u32, on);
}

/// The memory of a page without a bit.
#[tactic(auto, unfolding(vx_sector::specs::Fields::zeros))]
pub fn empty_page(alloc: Global) -> Result<Vec<u8>, OutOfMemory>
    ensures none { IfOk result (λ page. page.items ≡ zeros 512) }
    ensures length { IfOk result (λ page. length page.items ≡ 512) }
{
    let page = vec![in alloc; 0; 512]?;
    Ok(page)
}

/// The memory of a page with every bit.
#[tactic(auto, unfolding(crate::specs::Bytes::full))]
pub fn full_page(alloc: Global) -> Result<Vec<u8>, OutOfMemory>
    ensures all { IfOk result (λ page. page.items ≡ full 512) }
{
    let page = vec![in alloc; 255; 512]?;
    Ok(page)
}

/// Makes the page one of these bytes.
pub fn copy_page(page: &mut Vec<u8>, from: &[u8])
    requires page { length page.old.items ≡ 512 }
    requires from { length from.now ≡ 512 }
    ensures { page.new.items ≡ from.now }
{
    page.copy_from_slice(from);
}

/// Takes each bit away.
pub fn put_none(page: &mut Vec<u8>)
    requires { length page.old.items ≡ 512 }
    ensures none { page.new.items ≡ zeros 512 }
    ensures length { length page.new.items ≡ 512 }
{
    put_zeros(512, 0, page);
}

/// Leaves the bits open in which a page differs from these bytes: they are no longer sure, and loose.
pub fn open_differing(sure: &mut Vec<u8>, loose: &mut Vec<u8>, image: &[u8])
    requires sure { length sure.old.items ≡ 512 }
    requires loose { length loose.old.items ≡ 512 }
    requires image { length image.now ≡ 512 }
    ensures sure { (region : ℕ) → bit_in sure.new.items region ≡ (bit_in sure.old.items region && bit_in image.now region) }
    ensures loose { (region : ℕ) → bit_in loose.new.items region ≡ differ (bit_in sure.old.items region) (bit_in image.now region) }
    ensures sure_length { length sure.new.items ≡ 512 }
    ensures loose_length { length loose.new.items ≡ 512 }
{
    for place in 0..512 {
        loose[place] = sure[place] ^ image[place];
        sure[place] = sure[place] & image[place];
    }
}

/// Takes away the bits behind those of the first so many regions of the page.
pub fn clip(page: &mut Vec<u8>, inside: u64)
    requires { length page.old.items ≡ 512 }
    ensures bits { (region : ℕ) → bit_in page.new.items region ≡ (bit_in page.old.items region && nat_lt (region % 4096) inside) }
    ensures length { length page.new.items ≡ 512 }
{
    for place in inside.min(4096)..4096 {
        put_bit(page, place, false);
    }
}

/// Takes them away on the page of each map.
pub fn clip_all(images: &mut Vec<Vec<u8>>, inside: u64)
    requires { AreImages (images_seen images.old.items) }
    ensures bits { (map region : ℕ) → map < 32 → bit_in (image_at (images_seen images.new.items) map) region ≡ (bit_in (image_at (images_seen images.old.items) map) region && nat_lt (region % 4096) inside) }
    ensures images { AreImages (images_seen images.new.items) }
{
    for map in 0..32 {
        let image = &mut images[map];
        clip(image, inside);
    }
}

/// The byte with one bit put to this value.
pub fn with_bit(byte: u8, bit: u32, on: bool) -> u8
    requires { bit < 8 }
    ensures { (k : ℕ) → has result k ≡ (if bit == k then on else has byte k) }
{
    if on {
        byte | 1 << bit
    } else {
        byte & !(1 << bit)
    }
}
