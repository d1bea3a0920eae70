//! A piece whose power a switch may take.
ghost use Rattle.std.specs.Prelude.{◌≡◌, ℕ, ◌+◌, ◌||◌, None, is_some, if◌then◌else◌};
ghost use Rattle.vx_piece.specs.Seen.{Seen};
ghost use Rattle.vx_power.specs.Shown.{returned};
ghost use Rattle.vx_power.specs.Fused.{wired, acted_on, written_on, read_on};

use crate::board::{Acted, Wire};
use crate::rule::Handed;
use std::alloc::Global;
use std::marker::Brand;
use vx_base::OutOfMemory;
use vx_piece::{Piece, PieceFault};

/// A piece that answers `PowerLost` once a switch has taken its power.
#[derive(Drop)]
pub struct Fuse<P> {
    pub(crate) inner: P,
    /// None where no share of the board was left for it: then it never acts.
    pub(crate) wire: Option<Wire>,
}

impl<P: Piece> Piece for Fuse<P> {
    ghost use Rattle.vx_piece.specs.Seen.{Seen};
    ghost use Rattle.vx_power.specs.Fused.{wired};
    ghost use Rattle.vx_power.specs.Laws.{wired_ends, wired_counts};

    ghost seen = { λ f. wired f.wire (P.seen f.inner) };

    ghost ends = { λ f. wired_ends f.wire (P.seen f.inner) (P.ends f.inner) };

    ghost counts = { λ f. wired_counts f.wire (P.seen f.inner) (P.counts f.inner) };

    fn device(&self) -> u32 {
        self.inner.device()
    }

    fn start(&self) -> u64 {
        self.inner.start()
    }

    fn sectors(&self) -> u64 {
        self.inner.sectors()
    }

    fn read(&mut self, at: u64, into: &mut [u8]) -> Result<(), PieceFault> {
        if has_acted(&self.wire) || acts::<P, Brand>(&mut self.wire, &self.inner, into, false) {
            return Err(PieceFault::PowerLost);
        }
        self.inner.read(at, into)
    }

    fn write(&mut self, at: u64, from: &[u8]) -> Result<(), PieceFault> {
        if has_acted(&self.wire) || acts::<P, Brand>(&mut self.wire, &self.inner, from, true) {
            return Err(PieceFault::PowerLost);
        }
        self.inner.write(at, from)
    }

    fn split(self, alloc: Global, at: u64) -> Result<(Fuse<P>, Fuse<P>), (Fuse<P>, OutOfMemory)> {
        let Fuse { inner, mut wire } = self;
        if has_acted(&wire) {
            return Err((Fuse { inner, wire }, OutOfMemory));
        }
        match inner.split(alloc, at) {
            Ok((first, second)) => {
                let other = share(&mut wire);
                Ok((
                    Fuse { inner: first, wire },
                    Fuse {
                        inner: second,
                        wire: other,
                    },
                ))
            }
            Err((inner, e)) => Err((Fuse { inner, wire }, e)),
        }
    }

    fn join(
        self,
        alloc: Global,
        next: Fuse<P>,
    ) -> Result<Fuse<P>, (Fuse<P>, Fuse<P>, OutOfMemory)> {
        let Fuse { inner, wire } = self;
        let Fuse {
            inner: next_inner,
            wire: next_wire,
        } = next;
        match inner.join(alloc, next_inner) {
            Ok(inner) => Ok(Fuse {
                inner,
                wire: join::<Brand>(wire, next_wire),
            }),
            Err((inner, next_inner, e)) => Err((
                Fuse { inner, wire },
                Fuse {
                    inner: next_inner,
                    wire: next_wire,
                },
                e,
            )),
        }
    }

    fn arm(&mut self, stop: Option<u64>) {
        if !has_acted(&self.wire) {
            self.inner.arm(stop);
        }
    }
}

/// Whether the switch has taken the power of what hangs on the wire.
pub(crate) fn has_acted(wire: &Option<Wire>) -> bool
    ensures { result ≡ is_some (acted_on wire.now) }
{
    match wire {
        Some(wire) => wire.acted.is_some(),
        None => false,
    }
}

/// A wire for another piece.
pub(crate) fn share(wire: &mut Option<Wire>) -> Option<Wire>
    ensures other { acted_on result ≡ None }
    ensures stays { acted_on wire.new ≡ acted_on wire.old }
    ensures writes { written_on wire.new ≡ written_on wire.old }
    ensures reads { read_on wire.new ≡ read_on wire.old }
{
    match wire {
        Some(wire) => wire.share(),
        None => None,
    }
}

/// Whether the fuse before the piece acts at a call that is handed these bytes. Who calls picks how many sectors count.
fn acts<T, C: Handed>(wire: &mut Option<Wire>, inner: &T, bytes: &[u8], is_write: bool) -> bool
    requires { acted_on wire.old ≡ None }
    ensures acted { result ≡ is_some (acted_on wire.new) }
    ensures writes { written_on wire.new ≡ (if result then C.writes else 0) }
    ensures reads { read_on wire.new ≡ (if result then C.reads else 0) }
{
    let _ = inner;
    let _ = bytes;
    let Some(wire) = wire else {
        return false;
    };
    match wire.acts(is_write) {
        Some(acted) => {
            wire.act::<C>(acted);
            true
        }
        None => false,
    }
}

/// One wire for two pieces that are one now. It has acted where one of them has.
fn join<C: Handed>(first: Option<Wire>, second: Option<Wire>) -> Option<Wire>
    requires writes { C.writes ≡ written_on first + written_on second }
    requires reads { C.reads ≡ read_on first + read_on second }
    ensures acted { is_some (acted_on result) ≡ (is_some (acted_on first) || is_some (acted_on second)) }
    ensures writes { written_on result ≡ written_on first + written_on second }
    ensures reads { read_on result ≡ read_on first + read_on second }
{
    match (first, second) {
        (Some(first), Some(second)) => Some(first.join::<C>(second)),
        (Some(wire), None) => Some(wire),
        (None, Some(wire)) => Some(wire),
        (None, None) => None,
    }
}

/// The wire, where the switch has taken the power of what hung on it.
pub(crate) fn acted_wire(wire: Option<Wire>) -> Option<Wire>
    ensures { (seen : Seen) → returned result seen ≡ wired wire seen }
{
    match wire {
        Some(wire) if wire.acted.is_some() => Some(wire),
        _ => None,
    }
}
