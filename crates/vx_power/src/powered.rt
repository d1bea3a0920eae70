//! A shelf with a power switch.
ghost use Rattle.std.specs.Prelude.{◌≡◌, ◌≤◌, IsTrue, is_some, true, false, None, IfOk, IfErr};
ghost use Rattle.vx_base.specs.Named.{Word, SameUnder};
ghost use Rattle.vx_shelf.specs.Shelf.{SameCounts};
ghost use Rattle.vx_power.specs.Berths.{has_berth, is_gone};
ghost use Rattle.vx_power.specs.Shown.{is_known, is_free};

use crate::berths::{Berth, add, berths_of, clear, is_gone, keep};
use crate::board::Wire;
use crate::fuse::{Fuse, acted_wire};
use crate::power_shelf::PowerShelf;
use std::alloc::Global;
use vx_base::OutOfMemory;
use vx_names::Name;
use vx_shelf::{Shelf, ShelfFault};

/// A shelf whose devices have fuses on one board.
#[derive(Drop)]
pub struct Powered<S: Shelf> {
    shelf: S,
    wire: Wire,
    berths: Vec<Berth>,
    /// Whether the shelf may tell its devices.
    tells: bool,
    /// Whether a device is gone.
    some_gone: bool,
    ghost berthed: { (name : Word) → IsTrue (is_known (S.free shelf) (S.held shelf) name) → IsTrue (has_berth berths.items name) },
    ghost unheld: { (name : Word) → IsTrue (is_gone berths.items name) → IsTrue (is_free (S.free shelf) (S.held shelf) name) },
    ghost flagged: { (name : Word) → IsTrue (is_gone berths.items name) → IsTrue some_gone },
    ghost untold: { tells ≡ false → is_some (S.free shelf) ≡ false },
}

impl<S: Shelf> Powered<S> {
    /// The shelf with a switch, which is off. Where its devices cannot be listed, that is answered as want of memory.
    pub fn new(alloc: Global, mut shelf: S) -> Result<Powered<S>, (S, OutOfMemory)>
        requires { (name : Word) → S.held shelf name ≡ None }
        ensures none { IfOk result (λ p. (name : Word) → ⟦<Powered<S> as PowerShelf>⟧.gone p name ≡ false) }
        ensures free { IfOk result (λ p. ⟦<Powered<S> as Shelf>⟧.free p ≡ S.free shelf) }
        ensures held { IfOk result (λ p. SameUnder (S.held shelf) (⟦<Powered<S> as Shelf>⟧.held p)) }
        ensures faults { IfOk result (λ p. ⟦<Powered<S> as Shelf>⟧.faults p ≡ S.faults shelf) }
        ensures counted { IfOk result (λ p. SameCounts (S.counted shelf) (⟦<Powered<S> as Shelf>⟧.counted p)) }

        ensures same { IfErr result (λ e. SameUnder (S.held shelf) (S.held e.0)) }
        ensures stays { IfErr result (λ e. S.free e.0 ≡ S.free shelf) }
        ensures later { IfErr result (λ e. S.faults shelf ≤ S.faults e.0) }
        ensures counts { IfErr result (λ e. SameCounts (S.counted shelf) (S.counted e.0)) }
    {
        let Ok(names) = shelf.names(alloc) else {
            return Err((shelf, OutOfMemory));
        };
        let Ok(berths) = berths_of(alloc, names.as_slice()) else {
            return Err((shelf, OutOfMemory));
        };
        let Ok(wire) = Wire::new(alloc) else {
            return Err((shelf, OutOfMemory));
        };
        Ok(Powered {
            shelf,
            wire,
            berths,
            tells: true,
            some_gone: false,
        })
    }

    /// The same of a shelf that does not tell its devices, which are not listed then.
    pub fn untold(alloc: Global, shelf: S) -> Result<Powered<S>, (S, OutOfMemory)>
        requires held { (name : Word) → S.held shelf name ≡ None }
        requires untold { S.free shelf ≡ None }
        ensures none { IfOk result (λ p. (name : Word) → ⟦<Powered<S> as PowerShelf>⟧.gone p name ≡ false) }
        ensures free { IfOk result (λ p. ⟦<Powered<S> as Shelf>⟧.free p ≡ S.free shelf) }
        ensures held { IfOk result (λ p. SameUnder (S.held shelf) (⟦<Powered<S> as Shelf>⟧.held p)) }
        ensures faults { IfOk result (λ p. ⟦<Powered<S> as Shelf>⟧.faults p ≡ S.faults shelf) }
        ensures counted { IfOk result (λ p. SameCounts (S.counted shelf) (⟦<Powered<S> as Shelf>⟧.counted p)) }
        ensures refused { IfErr result (λ e. e.0 ≡ shelf) }
    {
        let Ok(wire) = Wire::new(alloc) else {
            return Err((shelf, OutOfMemory));
        };
        Ok(Powered {
            shelf,
            wire,
            berths: Vec::new(alloc),
            tells: false,
            some_gone: false,
        })
    }

    /// The shelf without its switch.
    pub fn into_shelf(self) -> S
        ensures free { ((name : Word) → ⟦<Powered<S> as PowerShelf>⟧.gone self name ≡ false) → S.free result ≡ ⟦<Powered<S> as Shelf>⟧.free self }
        ensures held { SameUnder (⟦<Powered<S> as Shelf>⟧.held self) (S.held result) }
        ensures faults { S.faults result ≡ ⟦<Powered<S> as Shelf>⟧.faults self }
        ensures counted { SameCounts (⟦<Powered<S> as Shelf>⟧.counted self) (S.counted result) }
    {
        let Powered {
            shelf,
            wire: _,
            berths: _,
            tells: _,
            some_gone: _,
        } = self;
        shelf
    }
}

impl<S: Shelf> Shelf for Powered<S> {
    ghost use Rattle.vx_power.specs.Berths.{gone_in};
    ghost use Rattle.vx_power.specs.Shown.{shown_free};
    ghost use Rattle.vx_power.specs.Laws.{wires_tell, shown_counted};

    type P = Fuse<S::P>;

    ghost free = { λ p. shown_free (gone_in p.berths.items) (S.free p.shelf) };

    ghost held = { λ p. S.held p.shelf };

    ghost faults = { λ p. S.faults p.shelf };

    ghost counted = { λ p. S.counted p.shelf };

    ghost counts_are = { λ p. shown_counted (gone_in p.berths.items) (S.free p.shelf) (S.counted p.shelf) (S.counts_are p.shelf) };

    ghost pieces_tell = { λ p q. wires_tell p.wire q.wire (S.P.seen p.inner) (S.P.seen q.inner) (S.pieces_tell p.inner q.inner) };

    ghost numbers_differ = { λ p. S.numbers_differ p.shelf };

    fn names(&mut self, alloc: Global) -> Result<Vec<Name>, ShelfFault> {
        self.shelf.names(alloc)
    }

    fn make(&mut self, alloc: Global, name: &Name, sectors: u64) -> Result<(), ShelfFault> {
        if add(&mut self.berths, name).is_err() {
            return Err(ShelfFault::OutOfMemory);
        }
        self.shelf.make(alloc, name, sectors)
    }

    fn take(&mut self, name: &Name) -> Result<Fuse<S::P>, ShelfFault> {
        if add(&mut self.berths, name).is_err() {
            return Err(if self.tells {
                ShelfFault::NoDisk
            } else {
                ShelfFault::OutOfMemory
            });
        }
        if is_gone(self.berths.as_slice(), name) {
            return Err(ShelfFault::OutOfMemory);
        }
        let inner = self.shelf.take(name)?;
        Ok(Fuse {
            inner,
            wire: self.wire.share(),
        })
    }

    fn give(&mut self, name: &Name, piece: Fuse<S::P>) {
        let Fuse { inner, wire } = piece;
        self.shelf.give(name, inner);
        let kept = acted_wire(wire);
        self.some_gone |= kept.is_some();
        keep(&mut self.berths, name, kept);
    }
}

impl<S: Shelf> PowerShelf for Powered<S> {
    ghost use Rattle.vx_power.specs.Berths.{is_gone};

    ghost gone = { λ p. is_gone p.berths.items };

    fn drawn(&mut self) -> u64 {
        self.wire.drawn()
    }

    fn set(&mut self, limit: Option<u64>) {
        self.wire.set(limit);
    }

    fn has_gone(&self) -> bool {
        self.some_gone
    }

    fn restore(&mut self) {
        clear(&mut self.berths);
        self.some_gone = false;
    }
}
