ghost use Rattle.std.specs.Prelude.{◌≡◌, ◌<◌, ◌≤◌, ◌^◌, ◌↔◌, IsTrue, length, take, codes};
ghost use Rattle.vx_header.specs.Sectors.{is_short_name};
ghost use Rattle.vx_header.specs.Places.{header_place};

use crate::fault::HeaderFault;
use crate::name_field::{longest_name, put_name};
use vx_names::Name;
use vx_sector::{first_difference, put, put_u64, put_zeros, u64_at};

/// The sectors of a disk's private region, which are its device's first.
pub const PRIVATE_SECTORS: u64 = 2048;

/// What a disk says of itself, in the first sector of its private region.
#[derive(Clone, Copy)]
pub struct Header {
    /// The disk group that the disk is a member of, of at most 24 characters.
    pub group: Name,
    /// The disk's own name in it, of at most 24 characters.
    pub disk: Name,
    /// Below 32.
    pub slot: u8,
    /// The sectors of the whole device: more than its private region has, and at most 2^40.
    pub sectors: u64,
    ghost group_short: { IsTrue (is_short_name group) },
    ghost disk_short: { IsTrue (is_short_name disk) },
    ghost slot_below: { slot < 32 },
    ghost public: { 2048 < sectors },
    ghost at_most: { sectors ≤ 2 ^ 40 },
}

impl Header {
    ghost use Rattle.std.specs.Prelude.{IfOk, IfErr, IsOkAnd, MatchResult, Some, None};
    ghost use Rattle.vx_header.specs.Named.{header_of, label_of};
    ghost use Rattle.vx_header.specs.Nearest.{IsNearestHeader};
    ghost use Rattle.vx_header.specs.Spelled.{sector_of_header, SameHeader, IsHeaderFault};
    ghost use Rattle.vx_header.specs.declared.header.Header.{Header};

    /// Fills a sector of 512 bytes.
    pub fn put(&self, out: &mut [u8])
        requires { length out.old ≡ 512 }
        ensures { out.new ≡ sector_of_header self.now }
    {
        put(b"vxprv001", 0, out);
        put_name(&self.group, 8, out);
        put_name(&self.disk, 40, out);
        put(&[self.slot], 72, out);
        put_zeros(7, 73, out);
        put_u64(self.sectors, 80, out);
        put_u64(PRIVATE_SECTORS, 88, out);
        put_zeros(416, 96, out);
    }

    /// Reads a sector of 512 bytes: exactly those that some header stands for.
    pub fn read(sector: &[u8]) -> Result<Header, HeaderFault>
        requires { length sector.now ≡ 512 }
        ensures ok { IfOk result (λ h. sector.now ≡ sector_of_header h) }
        ensures only { (h : Header) → sector.now ≡ sector_of_header h → IsOkAnd result (SameHeader h) }
        ensures fault { IfErr result (IsHeaderFault sector.now) }
        ensures said { MatchResult result (λ h. header_of sector.now ≡ Some (label_of h)) (λ fault. header_of sector.now ≡ None) }
    {
        if !has_mark(sector) {
            return Err(HeaderFault::NotInitialised);
        }
        let nearest = Header::nearest(sector);
        let mut spelled = [0; 512];
        nearest.put(&mut spelled);
        match first_difference(sector, &spelled) {
            None => Ok(nearest),
            Some(byte) => Err(HeaderFault::BadHeader(place_of(byte as u64))),
        }
    }

    fn nearest(sector: &[u8]) -> Header
        requires { length sector.now ≡ 512 }
        ensures { IsNearestHeader sector.now result.group result.disk result.slot result.sectors }
    {
        let group = longest_name(&sector[8..]);
        let disk = longest_name(&sector[40..]);
        let slot = slot_in(sector[72]);
        let sectors = sectors_in(u64_at(sector, 80));
        Header {
            group,
            disk,
            slot,
            sectors,
        }
    }
}

fn has_mark(sector: &[u8]) -> bool
    requires { 8 ≤ length sector.now }
    ensures { IsTrue result ↔ (take 8 sector.now ≡ codes "vxprv001") }
{
    sector[..8] == b"vxprv001"[..]
}

fn slot_in(byte: u8) -> u8
    ensures below { result < 32 }
    ensures same { byte < 32 → result ≡ byte }
{
    if byte < 32 { byte } else { 0 }
}

fn sectors_in(number: u64) -> u64
    ensures public { 2048 < result }
    ensures at_most { result ≤ 2 ^ 40 }
    ensures same { 2048 < number → number ≤ 2 ^ 40 → result ≡ number }
{
    number.clamp(PRIVATE_SECTORS + 1, 1 << 40)
}

/// The place that a byte of a header is read at.
fn place_of(byte: u64) -> u64
    ensures { result ≡ header_place byte }
{
    match byte {
        80..=87 => 80,
        88..=95 => 88,
        _ => byte,
    }
}
