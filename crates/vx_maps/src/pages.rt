//! The pages of a store, one after another.

ghost use Rattle.std.specs.Prelude.{◌≡◌};
ghost use Rattle.vx_pages.specs.Pages.{grid_seen};
ghost use Rattle.vx_pages.specs.Sector.{HasCause, KeepsPiece};
ghost use Rattle.vx_maps.specs.Arming.{armed_grid};
ghost use Rattle.vx_maps.specs.Going.{GridGoes, places_of};
ghost use Rattle.vx_maps.specs.Store.{ArePagesFirmed, pages_cut, pages_faults, pages_seen};

use vx_marks::MarkFault;
use vx_pages::{LocalPiece, Page};

/// Writes again what is loose, page by page, and stops at the first page that fails.
pub fn firm_pages<P: LocalPiece>(pages: &mut Vec<Page<P>>) -> Result<(), MarkFault>
    ensures each { ArePagesFirmed result (pages_seen P.seen pages.old.items) (pages_seen P.seen pages.new.items) }
    ensures cause { HasCause (pages_faults (pages_seen P.seen pages.old.items)) (pages_faults (pages_seen P.seen pages.new.items)) (pages_cut (pages_seen P.seen pages.new.items)) result }
    ensures places { places_of pages.new.items ≡ places_of pages.old.items }
    ensures goes { GridGoes KeepsPiece (grid_seen P.seen pages.old.items) (grid_seen P.seen pages.new.items) }
{
    for index in 0..pages.len() {
        let page = &mut pages[index];
        if let Err(fault) = page.firm() {
            return Err(fault);
        }
    }
    Ok(())
}

/// Sets when a power switch is to act on the pieces of each page.
pub fn arm_pages<P: LocalPiece>(pages: &mut Vec<Page<P>>, stop: Option<u64>)
    ensures places { places_of pages.new.items ≡ places_of pages.old.items }
    ensures armed { grid_seen P.seen pages.new.items ≡ armed_grid stop (grid_seen P.seen pages.old.items) }
{
    for index in 0..pages.len() {
        let page = &mut pages[index];
        page.arm(stop);
    }
}
