ghost use Rattle.std.specs.Prelude.{◌≡◌};
ghost use Rattle.vx_pages.specs.Items.{EachItem};
ghost use Rattle.vx_cell.specs.Changes.{CellArmed};
ghost use Rattle.vx_volume.specs.Volume.{IsVolume, cells_seen, log_of, no_cell, seen_of, shape_of, volume_seen};
ghost use Rattle.vx_volume.specs.Arming.{VolumeArmed};

use crate::log::VolumeLog;
use vx_block::Geometry;
use vx_cell::Cell;
use vx_pages::LocalPiece;
use vx_picker::Policy;
use vx_piece::Piece;

/// The form of a volume. The masks are by map number: the plexes that are on as it is opened, the other data plexes, and
/// the maps of the volume's relations.
#[derive(Clone, Copy, Debug, PartialEq, Eq)]
pub struct VolumeShape {
    pub geometry: Geometry,
    pub on: u64,
    pub off: u64,
    pub snaps: u64,
}

/// A started volume. No call on it is under way.
#[derive(Drop)]
pub struct Volume<P: LocalPiece> {
    pub(crate) shape: VolumeShape,
    /// How reads choose among the plexes that may serve them.
    pub(crate) policy: Policy,
    pub(crate) cells: Vec<Cell<P>>,
    pub(crate) log: VolumeLog<P>,
    /// The bytes of one region.
    pub(crate) scratch: Vec<u8>,
    /// No region has drawn a number above this one.
    pub(crate) most: u64,
}

impl<P: Piece> Volume<P> {
    /// The form that it was opened with.
    pub fn shape(&self) -> VolumeShape
        ensures { result ≡ shape_of self.now }
    {
        self.shape
    }

    /// No region has drawn a number above this one.
    pub fn most(&self) -> u64
        ensures { result ≡ (volume_seen P.seen self.now).most }
    {
        self.most
    }

    /// How reads choose among the plexes that may serve them: in turn, unless it was set.
    pub fn policy(&self) -> Policy {
        self.policy
    }

    /// Makes reads choose so from now on. Whatever the policy, a read is served by a plex that may serve it.
    pub fn set_policy(&mut self, policy: Policy)
        ensures same { volume_seen P.seen self.new ≡ volume_seen P.seen self.old }
        ensures shape { shape_of self.new ≡ shape_of self.old }
        ensures log { log_of self.new ≡ log_of self.old }
    {
        self.policy = policy;
    }

    /// The volume of these regions, one cell for each of the geometry's, in order; `scratch` has the bytes of one region, and
    /// no number is above `most`. Reads go in turn.
    pub fn from_cells(
        shape: VolumeShape,
        cells: Vec<Cell<P>>,
        log: VolumeLog<P>,
        scratch: Vec<u8>,
        most: u64,
    ) -> Volume<P>
        requires { IsVolume (seen_of P.seen shape cells log scratch most) }
        ensures seen { volume_seen P.seen result ≡ seen_of P.seen shape cells log scratch most }
        ensures log { log_of result ≡ log }
        ensures shape { shape_of result ≡ shape }
    {
        Volume {
            shape,
            policy: Policy::Round,
            cells,
            log,
            scratch,
            most,
        }
    }

    /// Its form, its regions in order, its log, the bytes of one region, and a bound on the numbers. Takes no memory.
    pub fn into_cells(self) -> (VolumeShape, Vec<Cell<P>>, VolumeLog<P>, Vec<u8>, u64)
        ensures seen { volume_seen P.seen self ≡ seen_of P.seen result.0 result.1 result.2 result.3 result.4 }
        ensures log { result.2 ≡ log_of self }
        ensures shape { result.0 ≡ shape_of self }
    {
        let Volume {
            shape,
            policy: _,
            cells,
            log,
            scratch,
            most,
        } = self;
        (shape, cells, log, scratch, most)
    }

    /// Sets when a power switch is to act on each piece of the volume that is not cut. Nothing else changes.
    pub fn arm(&mut self, stop: Option<u64>)
        requires { IsVolume (volume_seen P.seen self.old) }
        ensures armed { VolumeArmed P.seen stop self.old self.new }
        ensures whole { IsVolume (volume_seen P.seen self.new) }
    {
        arm_cells(&mut self.cells, stop);
        self.log.arm(stop);
    }
}

/// Sets when a power switch is to act on the pieces of each cell.
fn arm_cells<P: Piece>(cells: &mut Vec<Cell<P>>, stop: Option<u64>)
    ensures { EachItem no_cell (λ i. CellArmed stop) (cells_seen P.seen cells.old.items) (cells_seen P.seen cells.new.items) }
{
    for index in 0..cells.len() {
        let cell = &mut cells[index];
        cell.arm(stop);
    }
}
