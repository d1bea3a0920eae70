ghost use Rattle.std.specs.Prelude.{◌≡◌, ◌≤◌, ◌^◌, ◌↔◌, ℕ, List, Option, None, is_some, IsSome, IfOk, IfErr, IfSome, OnOk, OnErr, IsErrOf};
ghost use Rattle.vx_base.specs.Counts.{Rose};
ghost use Rattle.vx_base.specs.Named.{Word, SameUnder};
ghost use Rattle.vx_piece.specs.Seen.{Seen};
ghost use Rattle.vx_shelf.specs.Shelf.{Held, AreNumbered, AreCounted, SameCounts, put_count, IsWhole, IsOut, IsTaken, LeavesShelf, IsGiven, ComesToShelf, IsNowhere, IsUsed, IsMade};
ghost use Rattle.vx_shelf.specs.Listed.{IsRising, Lists};
ghost use Rattle.vx_shelf.specs.Causes.{ListCause, MakeCause};

use std::alloc::Global;
use vx_base::OutOfMemory;
use vx_names::Name;
use vx_piece::Piece;

/// Why a call of a shelf did nothing.
#[derive(Clone, Copy, Debug, PartialEq, Eq)]
pub enum ShelfFault {
    OutOfMemory,
    /// No device has the name.
    NoDisk,
    /// The device was taken and not given back.
    Held,
    /// The shelf failed, and its count of faults rose.
    Failed,
    /// The name is used.
    Exists,
}

/// A set of whole devices under names. Each has a number, which no other has as long as both are held.
pub trait Shelf {
    type P: Piece + Drop;

    /// The devices that nobody holds, where the shelf tells them.
    ghost free: { Self → Option (Word → Option Seen) };

    /// The devices that were taken and not given back.
    ghost held: { Self → Word → Option Held };

    /// How often a call of the shelf itself has failed.
    ghost faults: { Self → ℕ };

    /// How often calls of the device of a name had failed when it last came to the shelf, and 0 before.
    ghost counted: { Self → Word → ℕ };

    /// The names of all devices, those that are held too, sorted by their bytes.
    fn names(&mut self, alloc: Global) -> Result<Vec<Name>, ShelfFault>
        ensures sorted { IfOk result (λ names. IsRising names.items) }
        ensures all { IfSome (free self.old) (λ devices. IfOk result (λ names. Lists names.items devices (held self.old))) }

        ensures same { SameUnder (held self.old) (held self.new) }
        ensures stays { free self.new ≡ free self.old }
        ensures cause { IfErr result (ListCause (faults self.old) (faults self.new)) }

        ensures quiet { (IsErrOf result ShelfFault.Failed → ⊥) → faults self.new ≡ faults self.old }
        ensures later { faults self.old ≤ faults self.new }
        ensures counts { SameCounts (counted self.old) (counted self.new) };

    /// Makes a device of so many sectors of zeros. After an error no device has joined the others.
    fn make(&mut self, alloc: Global, name: &Name, sectors: u64) -> Result<(), ShelfFault>
        requires some { 1 ≤ sectors }
        requires few { sectors ≤ 2 ^ 40 }
        ensures made { OnOk result (IsMade name.now sectors (held self.old) (free self.old) (free self.new)) }

        ensures same { SameUnder (held self.old) (held self.new) }
        ensures stays { OnErr result (free self.new ≡ free self.old) }
        ensures exists { IfSome (free self.old) (λ devices. IsErrOf result ShelfFault.Exists ↔ IsUsed name.now devices (held self.old)) }
        ensures held { IsSome (held self.old name.now) → IsErrOf result ShelfFault.Exists }
        ensures cause { IfErr result (MakeCause (faults self.old) (faults self.new)) }

        ensures quiet { (IsErrOf result ShelfFault.Failed → ⊥) → faults self.new ≡ faults self.old }
        ensures later { faults self.old ≤ faults self.new }
        ensures counts { SameCounts (counted self.old) (counted self.new) };

    /// Takes a whole device, of a sector at least. One that is held is not told among those that nobody holds. Its count
    /// of faults does not begin anew.
    fn take(&mut self, name: &Name) -> Result<Self::P, ShelfFault>
        ensures taken { IfOk result (λ piece. IsTaken name.now (Self.P.seen piece) (held self.old) (held self.new)) }
        ensures left { IfOk result (λ piece. LeavesShelf name.now (Self.P.seen piece) (free self.old) (free self.new)) }

        ensures same { OnErr result (SameUnder (held self.old) (held self.new)) }
        ensures stays { OnErr result (free self.new ≡ free self.old) }
        ensures no_disk { IfSome (free self.old) (λ devices. IsErrOf result ShelfFault.NoDisk ↔ IsNowhere name.now devices (held self.old)) }
        ensures held { IsErrOf result ShelfFault.Held ↔ IsSome (held self.old name.now) }
        ensures away { IfSome (free self.old) (λ devices. IsErrOf result ShelfFault.Held → devices name.now ≡ None) }
        ensures failed { IsErrOf result ShelfFault.Failed → Rose (faults self.old) (faults self.new) }
        ensures never { IsErrOf result ShelfFault.Exists → ⊥ }

        ensures quiet { (IsErrOf result ShelfFault.Failed → ⊥) → faults self.new ≡ faults self.old }
        ensures later { faults self.old ≤ faults self.new }
        ensures counted { IfOk result (λ piece. counted self.old name.now ≤ (Self.P.seen piece).faults) }
        ensures counts { SameCounts (counted self.old) (counted self.new) };

    /// Gives back a whole device that was taken under that name.
    fn give(&mut self, name: &Name, piece: Self::P)
        requires whole { IsWhole (Self.P.seen piece) }
        requires out { IsOut (held self.old name.now) (Self.P.seen piece) }
        ensures given { IsGiven name.now (held self.old) (held self.new) }
        ensures back { ComesToShelf name.now (Self.P.seen piece) (free self.old) (free self.new) }
        ensures quiet { faults self.new ≡ faults self.old }
        ensures counts { SameCounts (put_count name.now (Self.P.seen piece).faults (counted self.old)) (counted self.new) };

    /// A device that nobody holds has the count of its name.
    ghost counts_are: { (shelf : Self) → AreCounted (free shelf) (counted shelf) };

    /// All its devices tell what they hold, or none does.
    ghost pieces_tell: { (p q : Self.P) → is_some (Self.P.seen p).told ≡ is_some (Self.P.seen q).told };

    /// Two devices that were taken have two numbers.
    ghost numbers_differ: { (shelf : Self) → AreNumbered (held shelf) };
}

/// Two devices that were taken have two numbers.
pub fn numbers_differ<S: Shelf>(shelf: &S)
    ensures { AreNumbered (S.held shelf.now) }
{}
