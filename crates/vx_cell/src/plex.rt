ghost use Rattle.std.specs.Prelude.{◌≡◌, ◌+◌, ◌*◌, ◌/◌, ◌%◌, ◌^◌, ◌<◌, ◌≤◌, true, false, length, map as map_of, MatchOption};
ghost use Rattle.vx_cell.specs.Plexes.{AllCover, ChangesPlex, IsFirst, holds, plexes_seen};
ghost use Rattle.vx_cell.specs.Changes.{AreArmed, first_as_zero};
ghost use Rattle.vx_cell.specs.Parting.{pieces_of, without_plex};
ghost use Rattle.vx_cell.specs.Acts.{IsPlexRead, IsPlexWritten, IsRange};

use vx_piece::Piece;
use vx_runs::{RunFault, arm_run, read_run, write_run};

/// A plex of one region: its map, and its pieces in order, which together have the sectors of the region.
#[derive(Drop)]
pub struct Plex<P> {
    pub map: u8,
    pub pieces: Vec<P>,
}

/// The index of the first plex with the map.
pub fn find<P: Piece>(plexes: &[Plex<P>], map: u32) -> Option<usize>
    ensures { MatchOption result (holds (plexes_seen P.seen plexes.now) map ≡ false) (λ i. (i < length plexes.now) × IsFirst map plexes.now i) }
{
    match plexes {
        [] => None,
        [first, rest @ ..] => {
            if first.map as u32 == map {
                Some(0)
            } else {
                match find(rest, map) {
                    None => None,
                    Some(i) => Some(i + 1),
                }
            }
        }
    }
}

/// Writes blocks of a plex. `at` counts from the region's first block.
pub fn write_plex<P: Piece>(
    plexes: &mut Vec<Plex<P>>,
    map: u32,
    at: u64,
    bytes: &[u8],
    size: u64,
) -> Result<(), RunFault>
    requires held { holds (plexes_seen P.seen plexes.old.items) map ≡ true }
    requires cover { AllCover size (plexes_seen P.seen plexes.old.items) }
    requires range { IsRange size at (length bytes.now) }
    ensures { ChangesPlex map (IsPlexWritten at bytes.now result) (plexes_seen P.seen plexes.old.items) (plexes_seen P.seen plexes.new.items) }
{
    match find(plexes.as_slice(), map) {
        None => Ok(()),
        Some(i) => {
            let plex = &mut plexes[i];
            write_run(&mut plex.pieces, at, bytes)
        }
    }
}

/// Reads blocks of a plex.
pub fn read_plex<P: Piece>(
    plexes: &mut Vec<Plex<P>>,
    map: u32,
    at: u64,
    into: &mut [u8],
    size: u64,
) -> Result<(), RunFault>
    requires held { holds (plexes_seen P.seen plexes.old.items) map ≡ true }
    requires cover { AllCover size (plexes_seen P.seen plexes.old.items) }
    requires range { IsRange size at (length into.old) }
    ensures changes { ChangesPlex map (IsPlexRead at into.new result) (plexes_seen P.seen plexes.old.items) (plexes_seen P.seen plexes.new.items) }
    ensures length { length into.new ≡ length into.old }
{
    match find(plexes.as_slice(), map) {
        None => Ok(()),
        Some(i) => {
            let plex = &mut plexes[i];
            read_run(&mut plex.pieces, at, into)
        }
    }
}

/// Sets when a power switch is to act on the pieces of the plexes.
pub fn arm_plexes<P: Piece>(plexes: &mut Vec<Plex<P>>, stop: Option<u64>)
    ensures { AreArmed stop (plexes_seen P.seen plexes.old.items) (plexes_seen P.seen plexes.new.items) }
{
    for index in 0..plexes.len() {
        let plex = &mut plexes[index];
        arm_run(&mut plex.pieces, stop);
    }
}

/// Gives the first of the plexes number 0.
pub fn first_to_zero<P: Piece>(plexes: &mut Vec<Plex<P>>)
    ensures { plexes_seen P.seen plexes.new.items ≡ first_as_zero (plexes_seen P.seen plexes.old.items) }
{
    if !plexes.is_empty() {
        let plex = &mut plexes[0];
        plex.map = 0;
    }
}

/// Takes the first plex with the map out, and answers its pieces; there are none where no plex has it.
pub fn take_first<P: Piece>(plexes: &mut Vec<Plex<P>>, map: u8) -> Vec<P>
    ensures left { plexes_seen P.seen plexes.new.items ≡ without_plex map (plexes_seen P.seen plexes.old.items) }
    ensures pieces { map_of P.seen result.items ≡ pieces_of map (plexes_seen P.seen plexes.old.items) }
{
    match find(plexes.as_slice(), map as u32) {
        None => Vec::new(*plexes.allocator()),
        Some(index) => {
            let Plex { map: _, pieces } = plexes.remove(index);
            pieces
        }
    }
}
