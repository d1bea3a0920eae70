ghost use Rattle.std.specs.Prelude.{◌≡◌, ◌<◌};
ghost use Rattle.vx_import.specs.Looks.{half_in};

use vx_header::{Header, Toggle};
use vx_names::Name;

/// What the second sector of a private region says.
#[derive(Clone, Copy)]
pub enum Reading {
    /// There is no configuration yet.
    Blank,
    Says(Toggle),
    /// It is no toggle. The first byte that does not fit, from the device's start: of a number the number's first byte.
    Damaged(u64),
}

/// A device that counts for a group, and what was read of it.
#[derive(Drop)]
pub struct GroupDevice<P> {
    /// Its name.
    pub device: Name,
    pub header: Header,
    /// Whether no read of it has failed.
    pub readable: bool,
    /// What its toggle says, where it could be read.
    pub reading: Reading,
    /// The whole device.
    pub piece: P,
}

/// The half that a toggle names, and the first where there is none: the spare half of its disk is the other one.
pub fn half_of(reading: &Reading) -> u8
    ensures names { result ≡ half_in reading.now }
    ensures below { result < 2 }
{
    match *reading {
        Reading::Says(toggle) => toggle.half,
        Reading::Blank => 0,
        Reading::Damaged(_) => 0,
    }
}
