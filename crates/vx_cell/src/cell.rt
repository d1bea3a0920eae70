ghost use Rattle.std.specs.Prelude.{◌≡◌, ◌≤◌, ◌<◌, ◌++◌, ◌∷◌, [], true, false, map as map_of, if◌then◌else◌, ℕ, IfOk, IfErr, OnErr, OnOk, MatchResult};
ghost use Rattle.std.specs.Vec.{vec_capacity, vec_len};
ghost use Rattle.vx_core.specs.declared.stage.Event.TheVariants.{Cut};
ghost use Rattle.vx_core.specs.declared.stage.Phase.TheVariants.{Dead};
ghost use Rattle.vx_core.specs.Table.{next_of};
ghost use Rattle.vx_core.specs.Plexes.{put_in};
ghost use Rattle.vx_cell.specs.Plexes.{holds, plexes_seen};
ghost use Rattle.vx_cell.specs.Changes.{CellArmed, HasRoom, IsRenewed, IsSet, Leaves, cell_seen, has_other};
ghost use Rattle.vx_cell.specs.Parting.{LosesPlex, pieces_of};
ghost use Rattle.vx_cell.specs.declared.fault.CellFault.TheVariants.{Only};

use crate::fault::CellFault;
use crate::plex::{Plex, arm_plexes, find, first_to_zero, take_first};
use std::alloc::Global;
use vx_base::OutOfMemory;
use vx_block::Span;
use vx_core::{Event, Stage};
use vx_piece::Piece;

/// One region of a volume over its pieces. The span is that of the region, as the volume counts its blocks.
#[derive(Drop)]
pub struct Cell<P> {
    pub(crate) stage: Stage,
    pub(crate) region: u64,
    pub(crate) span: Span,
    pub(crate) plexes: Vec<Plex<P>>,
    /// The number that was drawn last.
    pub(crate) number: u64,
    pub(crate) epoch: u64,
}

impl<P: Piece> Cell<P> {
    /// A cell as a life begins: its number and epoch are 0.
    pub fn new(stage: Stage, region: u64, span: Span, plexes: Vec<Plex<P>>) -> Cell<P>
        ensures { cell_seen P.seen result ≡ record { stage = stage; region = region; start = span.start; size = span.count; number = 0; epoch = 0; plexes = plexes_seen P.seen plexes.items } }
    {
        Cell::new_at(stage, region, span, plexes, 0, 0)
    }

    /// A cell within a life, with this number and epoch.
    pub fn new_at(
        stage: Stage,
        region: u64,
        span: Span,
        plexes: Vec<Plex<P>>,
        number: u64,
        epoch: u64,
    ) -> Cell<P>
        ensures { cell_seen P.seen result ≡ record { stage = stage; region = region; start = span.start; size = span.count; number = number; epoch = epoch; plexes = plexes_seen P.seen plexes.items } }
    {
        Cell {
            stage,
            region,
            span,
            plexes,
            number,
            epoch,
        }
    }

    /// The stage, the region's index, its span and its plexes.
    pub fn into_parts(self) -> (Stage, u64, Span, Vec<Plex<P>>)
        ensures stage { result.0 ≡ (cell_seen P.seen self).stage }
        ensures region { result.1 ≡ (cell_seen P.seen self).region }
        ensures start { result.2.start ≡ (cell_seen P.seen self).start }
        ensures size { result.2.count ≡ (cell_seen P.seen self).size }
        ensures plexes { plexes_seen P.seen result.3.items ≡ (cell_seen P.seen self).plexes }
    {
        let Cell {
            stage,
            region,
            span,
            plexes,
            number: _,
            epoch: _,
        } = self;
        (stage, region, span, plexes)
    }

    pub fn plexes(&self) -> &[Plex<P>]
        ensures { plexes_seen P.seen result.now ≡ (cell_seen P.seen self.now).plexes }
    {
        self.plexes.as_slice()
    }

    /// The number that was drawn last.
    pub fn number(&self) -> u64
        ensures { result ≡ (cell_seen P.seen self.now).number }
    {
        self.number
    }

    pub fn epoch(&self) -> u64
        ensures { result ≡ (cell_seen P.seen self.now).epoch }
    {
        self.epoch
    }

    pub fn stage(&self) -> Stage
        ensures { result ≡ (cell_seen P.seen self.now).stage }
    {
        self.stage
    }

    /// Raises the epoch.
    pub fn set_epoch(&mut self, epoch: u64)
        requires { (cell_seen P.seen self.old).epoch ≤ epoch }
        ensures { cell_seen P.seen self.new ≡ record (cell_seen P.seen self.old) { epoch = epoch } }
    {
        self.epoch = epoch;
    }

    /// Makes the marks of the region these, as the log claims them once one of its maps was set. For use between calls.
    pub fn set_marks(&mut self, bits: u64)
        ensures marks { cell_seen P.seen self.new ≡ record (cell_seen P.seen self.old) { stage = record (cell_seen P.seen self.old).stage { bits = bits } } }
        ensures room { HasRoom self.old → HasRoom self.new }
    {
        self.stage.bits = bits;
    }

    /// Kills the cell, as the event of a cut does without a device call: each later call answers that the power is gone.
    pub fn kill(&mut self)
        ensures cut { cell_seen P.seen self.new ≡ record (cell_seen P.seen self.old) { stage = (next_of (cell_seen P.seen self.old).stage Cut).0 } }
        ensures dead { (cell_seen P.seen self.new).stage.phase ≡ Dead }
    {
        self.stage = vx_core::next(&self.stage, Event::Cut).0;
    }

    /// Makes the cell one of a region with a log, or without one, in which nothing is marked and of which the first plex, as number 0,
    /// is alone. For use between calls.
    pub fn renew(&mut self, logged: bool)
        ensures { IsRenewed logged (cell_seen P.seen self.old) (cell_seen P.seen self.new) }
    {
        self.stage = Stage {
            on: vx_mask::of(0),
            off: 0,
            snaps: 0,
            bits: 0,
            logged,
            phase: self.stage.phase,
        };
        first_to_zero(&mut self.plexes);
    }

    /// Sets when a power switch is to act on the pieces of the cell.
    pub fn arm(&mut self, stop: Option<u64>)
        ensures { CellArmed stop (cell_seen P.seen self.old) (cell_seen P.seen self.new) }
    {
        arm_plexes(&mut self.plexes, stop);
    }

    /// Sets a plex on, or off.
    pub fn set_on(&mut self, map: u8, on: bool) -> Result<(), CellFault>
        ensures { IsSet map on (cell_seen P.seen self.old) (cell_seen P.seen self.new) result }
    {
        if !on && !self.has_other(map) {
            return Err(CellFault::Only(map));
        }
        let plex = vx_mask::of(map as u32);
        if on {
            self.stage.on = vx_mask::with(self.stage.on, plex);
            self.stage.off = vx_mask::less(self.stage.off, plex);
        } else {
            self.stage.on = vx_mask::less(self.stage.on, plex);
            self.stage.off = vx_mask::with(self.stage.off, plex);
        }
        Ok(())
    }

    /// Takes a plex out of the cell.
    pub fn take_plex(&mut self, map: u8) -> Result<Vec<P>, CellFault>
        requires { holds (cell_seen P.seen self.old).plexes map ≡ true }
        ensures ok { IfOk result (λ pieces. Leaves map (cell_seen P.seen self.old) (cell_seen P.seen self.new) (map_of P.seen pieces.items)) }
        ensures fault { IfErr result (λ fault. (fault ≡ Only map) × (has_other (cell_seen P.seen self.old).stage map ≡ false) × (cell_seen P.seen self.new ≡ cell_seen P.seen self.old)) }
    {
        if !self.has_other(map) {
            return Err(CellFault::Only(map));
        }
        match find(self.plexes.as_slice(), map as u32) {
            None => Err(CellFault::Only(map)),
            Some(index) => {
                let plex = self.plexes.remove(index);
                let mask = vx_mask::of(map as u32);
                self.stage.on = vx_mask::less(self.stage.on, mask);
                self.stage.off = vx_mask::less(self.stage.off, mask);
                let Plex { map: _, pieces } = plex;
                Ok(pieces)
            }
        }
    }

    /// Takes a plex out of the cell, whether it is on or off, and answers its pieces. Where the cell has none of this map, as that of a plex
    /// that the volume was opened without, the map is no plex's then, and there are no pieces.
    pub fn lose_plex(&mut self, map: u8) -> Vec<P>
        ensures loses { LosesPlex map (cell_seen P.seen self.old) (cell_seen P.seen self.new) }
        ensures pieces { map_of P.seen result.items ≡ pieces_of map (cell_seen P.seen self.old).plexes }
    {
        let mask = vx_mask::of(map as u32);
        self.stage.on = vx_mask::less(self.stage.on, mask);
        self.stage.off = vx_mask::less(self.stage.off, mask);
        take_first(&mut self.plexes, map)
    }

    /// Makes room for one plex more.
    pub fn reserve_plex(&mut self, _alloc: Global) -> Result<(), OutOfMemory>
        ensures same { cell_seen P.seen self.new ≡ cell_seen P.seen self.old }
        ensures room { OnOk result (HasRoom self.new) }
    {
        self.plexes.reserve(1)?;
        Ok(())
    }

    /// Puts a plex in, which is then off. It is given back only where there was no room for it.
    pub fn put_plex(&mut self, map: u8, pieces: Vec<P>) -> Result<(), Plex<P>>
        ensures ok { OnOk result (cell_seen P.seen self.new ≡ record (cell_seen P.seen self.old) {
          stage = put_in (cell_seen P.seen self.old).stage map;
          plexes = (cell_seen P.seen self.old).plexes ++ record { map = map; pieces = map_of P.seen pieces.items } ∷ [];
        }) }
        ensures same { OnErr result (cell_seen P.seen self.new ≡ cell_seen P.seen self.old) }
        ensures room { HasRoom self.old → OnErr result ⊥ }
    {
        match self.plexes.push(Plex { map, pieces }) {
            Ok(()) => {
                self.stage.off = vx_mask::with(self.stage.off, vx_mask::of(map as u32));
                Ok(())
            }
            Err(refused) => Err(refused.value),
        }
    }

    /// Whether another plex is on and unmarked.
    pub fn has_other(&self, map: u8) -> bool
        ensures { result ≡ has_other (cell_seen P.seen self.now).stage map }
    {
        let current = vx_mask::less(self.stage.on, self.stage.bits);
        vx_mask::less(current, vx_mask::of(map as u32)) != 0
    }
}
