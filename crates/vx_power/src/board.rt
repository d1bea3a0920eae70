//! The board that the fuses of one switch share.
//!
//! Its first word counts the writes of all fuses, modulo 2^64. Its second word is the switch: 0 where it is off, and one
//! more than the limit where it is set.
ghost use Rattle.std.specs.Prelude.{◌≡◌, ℕ, ◌+◌, ◌^◌, ◌<◌, ◌≤◌, ◌||◌, None, Some, is_some, IfSome, IfOk};

use crate::rule::{Draws, Handed, Looks, NewSeat, Notes, Sum};
use crate::views::View;
use atomic_table::{Seat, Table};
use std::alloc::Global;
use std::sync::Arc;
use vx_base::OutOfMemory;

type Board = Table<(), View, (), Sum, Global>;

const COUNT: usize = 0;

const SWITCH: usize = 1;

/// At which limit a fuse acted, and how many draws it had found then.
#[derive(Drop)]
pub(crate) struct Acted {
    limit: u64,
    found: u64,
    ghost reached: { limit ≤ found },
}

/// A share of a board, with a seat of its own.
#[derive(Drop)]
pub(crate) struct Wire {
    board: Arc<Board, Global>,
    seat: Seat<(), View>,
    pub(crate) acted: Option<Acted>,
    ghost seated: { seat.table_id ≡ board.value.shared.table_id },
    ghost sized: { board.value.shared.table_id.words ≡ 2 },
}

impl Wire {
    /// The first share of a new board, whose switch is off.
    pub(crate) fn new(alloc: Global) -> Result<Wire, OutOfMemory>
        ensures { IfOk result (λ wire. wire.acted ≡ None) }
    {
        let (table, seat) = Table::<(), View, (), Sum, Global>::of_words(alloc, &[0, 0], &())?;
        let board = Arc::new(alloc, table)?;
        Ok(Wire {
            board,
            seat,
            acted: None,
        })
    }

    /// A share for another fuse. There is none where the board has 2^63 of them.
    pub(crate) fn share(&mut self) -> Option<Wire>
        ensures other { IfSome result (λ wire. wire.acted ≡ None) }
        ensures stays { self.new.acted ≡ self.old.acted }
        ensures view { self.new.seat.me ≡ self.old.seat.me }
    {
        let board = Arc::try_clone(&self.board).ok()?;
        let seat = self.board.shared.split_seat::<NewSeat>(&mut self.seat);
        Some(Wire {
            board,
            seat,
            acted: None,
        })
    }

    /// How many draws there were.
    pub(crate) fn drawn(&mut self) -> u64
        ensures stays { self.new.acted ≡ self.old.acted }
        ensures view { self.new.seat.me ≡ self.old.seat.me }
    {
        self.board.shared.load::<Looks>(&mut self.seat, COUNT)
    }

    /// Draws once, and tells how many draws there were before.
    fn draw(&mut self) -> u64
        ensures stays { self.new.acted ≡ self.old.acted }
    {
        self.board
            .shared
            .fetch_add::<Draws>(&mut self.seat, COUNT, 1)
    }

    /// Sets the switch.
    pub(crate) fn set(&mut self, limit: Option<u64>)
        ensures stays { self.new.acted ≡ self.old.acted }
        ensures view { self.new.seat.me ≡ self.old.seat.me }
    {
        let word = match limit {
            Some(limit) => limit.wrapping_add(1),
            None => 0,
        };
        self.board
            .shared
            .store::<Looks>(&mut self.seat, SWITCH, word);
    }

    /// At which limit a fuse that has found so many draws is to act.
    fn reached(&mut self, found: u64) -> Option<Acted>
        ensures stays { self.new.acted ≡ self.old.acted }
        ensures view { self.new.seat.me ≡ self.old.seat.me }
    {
        let word = self.board.shared.load::<Looks>(&mut self.seat, SWITCH);
        if word == 0 || word - 1 > found {
            return None;
        }
        Some(Acted {
            limit: word - 1,
            found,
        })
    }

    /// Whether the fuse acts at a call now. A write draws before.
    pub(crate) fn acts(&mut self, is_write: bool) -> Option<Acted>
        ensures stays { self.new.acted ≡ self.old.acted }
    {
        let found = if is_write { self.draw() } else { self.drawn() };
        self.reached(found)
    }

    /// The fuse has acted, and these sectors were handed over as it did.
    pub(crate) fn act<C: Handed>(&mut self, acted: Acted)
        ensures acted { self.new.acted ≡ Some acted }
        ensures writes { self.new.seat.me.0.writes ≡ C.writes }
        ensures reads { self.new.seat.me.0.reads ≡ C.reads }
    {
        self.note::<C>();
        self.acted = Some(acted);
    }

    /// These sectors were handed over as the power went.
    fn note<C: Handed>(&mut self)
        ensures stays { self.new.acted ≡ self.old.acted }
        ensures writes { self.new.seat.me.0.writes ≡ C.writes }
        ensures reads { self.new.seat.me.0.reads ≡ C.reads }
    {
        self.board.shared.load::<Notes<C>>(&mut self.seat, COUNT);
    }

    /// One share in place of two. It has acted where one of them has, and these sectors were handed over as they did.
    pub(crate) fn join<C: Handed>(mut self, other: Wire) -> Wire
        ensures acted { is_some result.acted ≡ (is_some self.acted || is_some other.acted) }
        ensures writes { result.seat.me.0.writes ≡ C.writes }
        ensures reads { result.seat.me.0.reads ≡ C.reads }
    {
        self.note::<C>();
        let Wire {
            board: _,
            seat: _,
            acted,
        } = other;
        if self.acted.is_none() {
            self.acted = acted;
        }
        self
    }
}
