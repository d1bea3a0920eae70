//! Whether the power of a running volume is there.
ghost use Rattle.std.specs.BTreeMap.{get};
ghost use Rattle.std.specs.Cmp.Lexicographic.{slice_cmp};
ghost use Rattle.std.specs.Ordering.{nat_cmp};
ghost use Rattle.std.specs.Prelude.{◌≡◌, ◌≢◌, true, IfSome};
ghost use Rattle.vx_core.specs.declared.stage.Phase.TheVariants.{Dead};
ghost use Rattle.vx_cell.specs.Changes.{cell_seen};
ghost use Rattle.vx_stage_mirrors.specs.Relogging.{IsPowered};

use std::collections::BTreeMap;
use vx_cell::Cell;
use vx_core::Phase;
use vx_lending::Running;
use vx_names::Name;
use vx_piece::Piece;

/// No region of the running volume of the name is dead. So it is where no volume of the name runs.
pub(crate) fn is_powered<P: Piece>(running: &BTreeMap<Name, Running<P>>, name: &Name) -> bool
    ensures powered { result ≡ true → IfSome (get (slice_cmp nat_cmp) running.now name.now) (IsPowered P.seen) }
{
    match running.get(name) {
        Some(one) => has_power(one),
        None => true,
    }
}

fn has_power<P: Piece>(one: &Running<P>) -> bool
    ensures powered { result ≡ true → IsPowered P.seen one.now }
{
    one.volume.cells().iter().all(|cell| is_live(cell))
}

/// The power of the region is there.
fn is_live<P: Piece>(cell: &Cell<P>) -> bool
    ensures { result ≡ true → (cell_seen P.seen cell.now).stage.phase ≢ Dead }
{
    match cell.stage().phase {
        Phase::Dead => false,
        Phase::Settled | Phase::Unsettled | Phase::Busy(_) => true,
    }
}
