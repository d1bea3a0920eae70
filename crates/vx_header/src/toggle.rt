ghost use Rattle.std.specs.Prelude.{◌≡◌, ◌<◌, ◌≤◌, ◌^◌};
ghost use Rattle.vx_header.specs.Places.{toggle_place};

use crate::fault::HeaderFault;
use vx_sector::{first_difference, is_zero, put, put_u32, put_u64, put_zeros, u32_at, u64_at};

/// The most bytes that a configuration's text may have: those of half a private region.
pub const MOST_TEXT: u32 = 522_240;

/// Which configuration of a disk counts, in the second sector of its private region.
#[derive(Clone, Copy, Debug, PartialEq, Eq)]
pub struct Toggle {
    /// The number of the commit, at least 1.
    pub sequence: u64,
    /// Which half holds the text, 0 or 1.
    pub half: u8,
    /// The bytes of the text, at most `MOST_TEXT`.
    pub length: u32,
    /// The mask of the slots whose disks carry this commit.
    pub good: u32,
    ghost some: { 0 < sequence },
    ghost sequence_fits: { sequence < 2 ^ 64 },
    ghost half_below: { half < 2 },
    ghost text_fits: { length ≤ 522240 },
    ghost good_fits: { good < 2 ^ 32 },
}

impl Toggle {
    ghost use Rattle.std.specs.Prelude.{length, IfOk, IfErr, IsOkAnd, IsSomeAnd, MatchOption, MatchResult, Ok, None, option_map};
    ghost use Rattle.vx_sector.specs.Fields.{zeros};
    ghost use Rattle.vx_header.specs.Nearest.{IsNearestToggle};
    ghost use Rattle.vx_header.specs.Said.{said_of, toggle_of};
    ghost use Rattle.vx_header.specs.Spelled.{sector_of_toggle, SameToggle, IsToggleFault};
    ghost use Rattle.vx_header.specs.declared.toggle.Toggle.{Toggle};

    /// Fills a sector of 512 bytes.
    pub fn put(&self, out: &mut [u8])
        requires { length out.old ≡ 512 }
        ensures { out.new ≡ sector_of_toggle self.now }
    {
        put(b"vxtog001", 0, out);
        put_u64(self.sequence, 8, out);
        put(&[self.half], 16, out);
        put_zeros(3, 17, out);
        put_u32(self.length, 20, out);
        put_u32(self.good, 24, out);
        put_zeros(484, 28, out);
    }

    /// Reads a sector of 512 bytes: exactly those that some toggle stands for, and 512 zeros, which say that there is
    /// no configuration yet.
    pub fn read(sector: &[u8]) -> Result<Option<Toggle>, HeaderFault>
        requires { length sector.now ≡ 512 }
        ensures ok { IfOk result (λ read. MatchOption read (sector.now ≡ zeros 512) (λ t. sector.now ≡ sector_of_toggle t)) }
        ensures none { sector.now ≡ zeros 512 → result ≡ Ok None }
        ensures only { (t : Toggle) → sector.now ≡ sector_of_toggle t → IsOkAnd result (λ read. IsSomeAnd read (SameToggle t)) }
        ensures fault { IfErr result (IsToggleFault sector.now) }
        ensures said { MatchResult result (λ read. toggle_of sector.now ≡ option_map said_of read) (λ fault. toggle_of sector.now ≡ None) }
    {
        if is_zero(sector) {
            return Ok(None);
        }
        let nearest = Toggle::nearest(sector);
        let mut spelled = [0; 512];
        nearest.put(&mut spelled);
        match first_difference(sector, &spelled) {
            None => Ok(Some(nearest)),
            Some(byte) => Err(HeaderFault::BadHeader(place_of(byte as u64))),
        }
    }

    fn nearest(sector: &[u8]) -> Toggle
        requires { length sector.now ≡ 512 }
        ensures { IsNearestToggle sector.now result.sequence result.half result.length result.good }
    {
        let sequence = u64_at(sector, 8).max(1);
        let half = half_in(sector[16]);
        let length = u32_at(sector, 20).min(MOST_TEXT);
        let good = u32_at(sector, 24);
        Toggle {
            sequence,
            half,
            length,
            good,
        }
    }
}

fn half_in(byte: u8) -> u8
    ensures below { result < 2 }
    ensures same { byte < 2 → result ≡ byte }
{
    if byte < 2 { byte } else { 0 }
}

/// The place that a byte of a toggle is read at.
fn place_of(byte: u64) -> u64
    ensures { result ≡ toggle_place byte }
{
    match byte {
        0..=7 => 0,
        8..=15 => 8,
        20..=23 => 20,
        24..=27 => 24,
        _ => byte,
    }
}
