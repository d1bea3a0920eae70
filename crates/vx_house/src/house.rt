ghost use Rattle.std.specs.Prelude.{◌≡◌, [], None};

use std::alloc::Global;
use std::collections::BTreeMap;
use vx_confdb::Group;
use vx_lending::Public;
use vx_names::Name;
use vx_objects::Config;
use vx_pages::LocalPiece;
use vx_piece::Piece;
use vx_started::Started;

/// A device that the command has taken.
#[derive(Drop)]
pub struct Taken<P> {
    pub device: Name,
    pub piece: P,
}

/// The imported group: its configuration, the copies of it on its disks, and what is behind the fronts of those disks that
/// are parted.
#[derive(Drop)]
pub struct Imported<P: LocalPiece> {
    pub config: Config,
    pub base: Group<P>,
    pub public: Public<P>,
}

impl<P: Piece + Drop> Imported<P> {
    ghost use Rattle.vx_lending.specs.Public.{lent_pieces, still_pieces};
    ghost use Rattle.vx_house.specs.View.{IsGroupIdle};

    /// The group, of which no disk is parted.
    pub fn of(alloc: Global, config: Config, base: Group<P>) -> Imported<P>
        ensures config { result.config ≡ config }
        ensures base { result.base ≡ base }
        ensures still { still_pieces P.seen result.public ≡ [] }
        ensures lent { lent_pieces P.seen result.public ≡ [] }
        ensures idle { IsGroupIdle result }
    {
        Imported {
            config,
            base,
            public: Public::new(alloc),
        }
    }
}

/// What a run holds: started volumes by their names, the imported group, and the devices that the command has taken and
/// not placed yet, in the order of its words.
#[derive(Drop)]
pub struct House<P: LocalPiece> {
    pub volumes: BTreeMap<Name, Started<P>>,
    pub group: Option<Imported<P>>,
    pub hand: Vec<Taken<P>>,
}

impl<P: Piece> House<P> {
    /// A house that holds nothing.
    pub fn new(alloc: Global) -> House<P>
        ensures volumes { result.volumes.entries ≡ [] }
        ensures group { result.group ≡ None }
        ensures hand { result.hand.items ≡ [] }
    {
        House {
            volumes: BTreeMap::new(alloc),
            group: None,
            hand: Vec::new(alloc),
        }
    }
}
