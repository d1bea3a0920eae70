//! What a group has beside the fronts of its disks.
ghost use Rattle.std.specs.Prelude.{◌≡◌, []};

use crate::{LogLeft, VolumeForm};
use std::alloc::Global;
use std::collections::BTreeMap;
use vx_carve::Pool;
use vx_cell::Plex;
use vx_names::Name;
use vx_pages::LocalPiece;
use vx_piece::Piece;
use vx_volume::Volume;

/// A started volume of a group, with the form that it was opened with.
#[derive(Drop)]
pub struct Running<P: LocalPiece> {
    pub form: VolumeForm,
    pub volume: Volume<P>,
}

/// What is left of a volume that was not started: plexes of its regions and copies of its log for which the pool has had no
/// room, or the log itself, where there was no memory to take it apart.
#[derive(Drop)]
pub struct Remains<P: LocalPiece> {
    pub regions: Vec<Vec<Plex<P>>>,
    pub log: LogLeft<P>,
}

/// The public regions of a group's disks, so far as they are apart from the fronts: the pieces that no volume has, the
/// volumes that run, by their names, and those that ran and could not be put back yet.
#[derive(Drop)]
pub struct Public<P: LocalPiece> {
    pub pool: Pool<P>,
    /// What could not be put back into the pool.
    pub left: Vec<Remains<P>>,
    pub running: BTreeMap<Name, Running<P>>,
    /// Volumes that could not be put back for want of memory as their group was to leave.
    pub stuck: Vec<Running<P>>,
}

impl<P: Piece + Drop> Public<P> {
    ghost use Rattle.vx_lending.specs.Public.{lent_pieces, still_pieces};

    /// No disk is parted.
    pub fn new(alloc: Global) -> Public<P>
        ensures still { still_pieces P.seen result ≡ [] }
        ensures lent { lent_pieces P.seen result ≡ [] }
        ensures left { result.left.items ≡ [] }
        ensures running { result.running.entries ≡ [] }
        ensures stuck { result.stuck.items ≡ [] }
    {
        Public {
            pool: Pool::from_vec(Vec::new(alloc)),
            left: Vec::new(alloc),
            running: BTreeMap::new(alloc),
            stuck: Vec::new(alloc),
        }
    }
}
