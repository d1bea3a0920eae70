//! An act of the core is one device call.

ghost use Rattle.std.specs.Prelude.{◌≡◌, ◌≢◌, ◌+◌, ◌*◌, ◌/◌, ◌%◌, ◌^◌, ◌<◌, ◌≤◌, true, false, [], length, Some, None, ℕ};
ghost use Rattle.vx_marks.specs.Log.{IsAskable as IsMarkable};
ghost use Rattle.vx_picker.specs.Picks.{PicksMember};
ghost use Rattle.vx_core.specs.declared.stage.Act.TheVariants.{Mark, Unmark};
ghost use Rattle.vx_cell.specs.declared.fault.Place.TheVariants.{Data};
ghost use Rattle.vx_cell.specs.Plexes.{AllCover, ChangesPlex, MapsFit, holds, plexes_seen};
ghost use Rattle.vx_cell.specs.Acts.{Bytes, Carries, IsAskable, IsMarkOf, IsPlaced, IsPlexRead, IsPlexWritten, IsRange, IsReadOf, IsWriteOf, MarksBy, UnmarksBy, event_of, read_event, write_event, HasPlace};

use crate::fault::Place;
use crate::plex::{Plex, read_plex, write_plex};
use vx_core::{Act, Event};
use vx_marks::{MarkFault, Marker};
use vx_picker::{Picker, Policy};
use vx_piece::Piece;
use vx_runs::RunFault;

/// What a device call came to, and where it failed, if it did.
#[derive(Clone, Copy, Debug, PartialEq, Eq)]
pub struct Answered {
    pub event: Event,
    pub place: Option<Place>,
}

fn plain(event: Event) -> Option<Answered>
    ensures { result ≡ Some (record { event = event; place = None }) }
{
    Some(Answered { event, place: None })
}

fn failed(event: Event, place: Place) -> Option<Answered>
    ensures { result ≡ Some (record { event = event; place = Some place }) }
{
    Some(Answered {
        event,
        place: Some(place),
    })
}

/// Marks the region. No answer: its page is out.
fn mark<M: Marker>(log: &mut M, region: u64, bits: u64) -> Option<Answered>
    requires there { (M.log log.old).there ≡ true }
    requires askable { IsMarkable (M.log log.old) region bits }
    ensures is { IsMarkOf region (Mark bits) (MarksBy bits) (event_of result) (M.log log.old) (M.log log.new) }
    ensures place { IsPlaced (Mark bits) result [] (M.log log.old) [] (M.log log.new) }
    ensures follows { M.follows log.old log.new }
{
    match log.mark(region, bits) {
        Ok(()) => plain(Event::Marked),
        Err(MarkFault::Failed { copy, device }) => failed(
            Event::MarkFailed,
            Place::Log { copy, device },
        ),
        Err(MarkFault::PowerLost) => plain(Event::Cut),
        Err(MarkFault::Busy) => None,
    }
}

fn unmark<M: Marker>(log: &mut M, region: u64, bits: u64) -> Option<Answered>
    requires there { (M.log log.old).there ≡ true }
    requires askable { IsMarkable (M.log log.old) region bits }
    ensures is { IsMarkOf region (Unmark bits) (UnmarksBy bits) (event_of result) (M.log log.old) (M.log log.new) }
    ensures place { IsPlaced (Unmark bits) result [] (M.log log.old) [] (M.log log.new) }
    ensures follows { M.follows log.old log.new }
{
    match log.unmark(region, bits) {
        Ok(()) => plain(Event::Unmarked),
        Err(MarkFault::Failed { copy, device }) => failed(
            Event::UnmarkFailed,
            Place::Log { copy, device },
        ),
        Err(MarkFault::PowerLost) => plain(Event::Cut),
        Err(MarkFault::Busy) => None,
    }
}

fn place_of(map: u32, piece: u32, device: u32) -> Place
    ensures { map < 256 → result ≡ Data map piece device }
{
    Place::Data {
        map: map.min(255) as u8,
        piece,
        device,
    }
}

fn wrote(map: u32, answer: Result<(), RunFault>) -> Option<Answered>
    ensures event { event_of result ≡ Some (write_event answer) }
    ensures place { map < 256 → HasPlace map answer result }
{
    match answer {
        Ok(()) => plain(Event::Wrote),
        Err(RunFault::Failed { piece, device }) => failed(
            Event::WriteFailed,
            place_of(map, piece, device),
        ),
        Err(RunFault::PowerLost) => plain(Event::Cut),
    }
}

fn got(map: u32, answer: Result<(), RunFault>) -> Option<Answered>
    ensures event { event_of result ≡ Some (read_event map answer) }
    ensures place { map < 256 → HasPlace map answer result }
{
    match answer {
        Ok(()) => plain(Event::Got),
        Err(RunFault::Failed { piece, device }) => failed(
            Event::ReadFailed(map),
            place_of(map, piece, device),
        ),
        Err(RunFault::PowerLost) => plain(Event::Cut),
    }
}

/// Carries out an act by one device call. No answer: the page of a mark is out.
pub fn carry_out<P: Piece, M: Marker, F: Fn(u64, u64) -> u32>(
    plexes: &mut Vec<Plex<P>>,
    region: u64,
    size: u64,
    at: u64,
    into: &mut [u8],
    from: &[u8],
    scratch: &mut [u8],
    log: &mut M,
    pick: &Picker<F>,
    policy: Policy,
    turn: u64,
    act: Act,
) -> Option<Answered>
    requires picks { PicksMember (F.pre pick.now.select) (F.post pick.now.select) }
    requires cover { AllCover size (plexes_seen P.seen plexes.old.items) }
    requires maps { MapsFit (plexes_seen P.seen plexes.old.items) }
    requires scratch { IsRange size 0 (length scratch.old) }
    requires askable { IsAskable region size at (length into.old) (length from.now) (plexes_seen P.seen plexes.old.items) (M.log log.old) act }
    ensures carries { Carries region act (event_of result)
        (record { at = at; into = into.old; from = from.now; scratch = scratch.old }) (plexes_seen P.seen plexes.old.items) (M.log log.old)
        (record { at = at; into = into.new; from = from.now; scratch = scratch.new }) (plexes_seen P.seen plexes.new.items) (M.log log.new) }
    ensures placed { IsPlaced act result (plexes_seen P.seen plexes.old.items) (M.log log.old) (plexes_seen P.seen plexes.new.items) (M.log log.new) }
    ensures into { length into.new ≡ length into.old }
    ensures scratch { length scratch.new ≡ length scratch.old }
    ensures follows { M.follows log.old log.new }
{
    match act {
        Act::Mark(bits) => mark(log, region, bits),
        Act::Unmark(bits) => unmark(log, region, bits),
        Act::WriteCall(map) => wrote(map, write_plex(plexes, map, at, from, size)),
        Act::WriteRegion(map) => wrote(map, write_plex(plexes, map, 0, scratch, size)),
        Act::ReadCall(offered) => {
            let map = pick.pick(policy, offered, turn);
            got(map, read_plex(plexes, map, at, into, size))
        }
        Act::ReadRegion(map) => got(map, read_plex(plexes, map, 0, scratch, size)),
        Act::Done | Act::Skipped | Act::Fault | Act::Lost => None,
    }
}
