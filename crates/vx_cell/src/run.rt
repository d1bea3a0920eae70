//! A job runs from its begin, or from the mark that it stands before, to its end, or to a mark whose page is out.

ghost use Rattle.std.specs.Prelude.{◌≡◌, ◌+◌, ◌*◌, ◌/◌, ◌%◌, ◌^◌, ◌<◌, ◌≤◌, length};
ghost use Rattle.vx_picker.specs.Picks.{PicksMember};
ghost use Rattle.vx_cell.specs.Acts.{Bytes, earlier};
ghost use Rattle.vx_cell.specs.Region.{IsWhole};
ghost use Rattle.vx_cell.specs.Running.{IsCallable, MayRun};
ghost use Rattle.vx_cell.specs.Calls.{HasRun, KeepsCell, region_of};

use crate::acts::carry_out;
use crate::cell::Cell;
use crate::fault::Place;
use vx_core::{Act, Event, Job, Phase};
use vx_marks::Marker;
use vx_picker::{Picker, Policy};
use vx_piece::Piece;

/// How a job has run: the act that ended it, or none where the page of a mark was out; and the first place that failed.
#[derive(Clone, Copy)]
pub(crate) struct Ran {
    pub act: Option<Act>,
    pub first: Option<Place>,
}

impl<P: Piece> Cell<P> {
    /// Runs a job. `at` counts from the region's first block.
    pub(crate) fn run<M: Marker, F: Fn(u64, u64) -> u32>(
        &mut self,
        job: Job,
        at: u64,
        into: &mut [u8],
        from: &[u8],
        scratch: &mut [u8],
        log: &mut M,
        pick: &Picker<F>,
        policy: Policy,
    ) -> Ran
        requires picks { PicksMember (F.pre pick.now.select) (F.post pick.now.select) }
        requires may { MayRun job self.old.stage.phase }
        requires whole { IsWhole (region_of P.seen self.old (M.log log.old)) }
        requires scratch { length scratch.old ≡ 512 * self.old.span.count }
        requires callable { IsCallable self.old.span.count job (record { at = at; into = into.old; from = from.now; scratch = scratch.old }) }
        ensures ran { HasRun job
            (record { at = at; into = into.old; from = from.now; scratch = scratch.old }) (region_of P.seen self.old (M.log log.old))
            (region_of P.seen self.new (M.log log.new)) result.act result.first
            (record { at = at; into = into.new; from = from.now; scratch = scratch.new }) }
        ensures same { KeepsCell self.old self.new }
        ensures follows { M.follows log.old log.new }
    {
        let begun = vx_core::next(&self.stage, Event::Begin(job));
        self.stage = begun.0;
        let mut act = begun.1;
        let mut first = None;
        while let Phase::Busy(work) = self.stage.phase {
            match carry_out(
                &mut self.plexes,
                self.region,
                self.span.count,
                at,
                into,
                from,
                scratch,
                log,
                pick,
                policy,
                self.number,
                act,
            ) {
                None => return Ran { act: None, first },
                Some(answer) => {
                    first = earlier(first, answer.place);
                    let moved = vx_core::next(&self.stage, answer.event);
                    self.stage = moved.0;
                    act = moved.1;
                }
            }
        }
        Ran {
            act: Some(act),
            first,
        }
    }
}

fn earlier(first: Option<Place>, then: Option<Place>) -> Option<Place>
    ensures { result ≡ earlier first then }
{
    match first {
        None => then,
        Some(place) => Some(place),
    }
}
