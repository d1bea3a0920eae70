ghost use Rattle.std.specs.Prelude.{◌≡◌, false, None};
ghost use Rattle.vx_base.specs.Named.{Word};
ghost use Rattle.vx_shelf.specs.OnShelf.{held_on};
ghost use Rattle.vx_shelf.specs.contracts.mem_shelf.MemShelfShelf.TheImpl.Laws.{numbers_differ-law};

use crate::clock::Clock;
use crate::cut_piece::CutPiece;
use std::alloc::Global;
use vx_names::Name;
use vx_shelf::{MemShelf, Shelf, ShelfFault};

/// Devices in memory that are cut once the power is gone.
#[derive(Drop)]
pub struct CutShelf<'c> {
    pub devices: MemShelf,
    clock: &'c Clock,
}

impl<'c> CutShelf<'c> {
    ghost use Rattle.vx_volume_faults.specs.Cut.{held_on_cut};

    /// A shelf with these devices, which nobody holds.
    pub fn new(devices: MemShelf, clock: &'c Clock) -> CutShelf<'c>
        requires { (name : Word) → held_on devices name ≡ None }
        ensures { (name : Word) → held_on_cut result name ≡ None }
    {
        CutShelf { devices, clock }
    }
}

impl<'c> Shelf for CutShelf<'c> {
    ghost use Rattle.vx_volume_faults.specs.Cut.{held_on_cut, counted_on_cut};

    type P = CutPiece<'c>;

    ghost free = { λ _. None };

    ghost held = { held_on_cut };

    ghost faults = { λ _. 0 };

    ghost counted = { counted_on_cut };

    ghost counts_are = { λ _. tt };

    ghost pieces_tell = { λ p q i. false };

    ghost numbers_differ = { λ s. numbers_differ-law s.devices };

    fn names(&mut self, alloc: Global) -> Result<Vec<Name>, ShelfFault> {
        self.devices.names(alloc)
    }

    fn make(&mut self, alloc: Global, name: &Name, sectors: u64) -> Result<(), ShelfFault> {
        self.devices.make(alloc, name, sectors)
    }

    fn take(&mut self, name: &Name) -> Result<CutPiece<'c>, ShelfFault> {
        match self.devices.take(name) {
            Ok(memory) => Ok(CutPiece::new(memory, self.clock)),
            Err(fault) => Err(fault),
        }
    }

    fn give(&mut self, name: &Name, piece: CutPiece<'c>) {
        let CutPiece { memory, .. } = piece;
        self.devices.give(name, memory);
    }
}
