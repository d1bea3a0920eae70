//! The calls on a cell that run a job.

ghost use Rattle.std.specs.Prelude.{◌≡◌, ◌≢◌, ◌+◌, ◌-◌, ◌*◌, ◌/◌, ◌%◌, ◌^◌, ◌<◌, ◌≤◌, true, false, [], length, IfOk, ℕ};
ghost use Rattle.vx_core.specs.declared.stage.Job.TheVariants.{Read, Write, Copy, Settle, Clear};
ghost use Rattle.vx_core.specs.declared.stage.Phase.TheVariants.{Dead, Settled};
ghost use Rattle.vx_core.specs.Schedule.{IsIdle};
ghost use Rattle.vx_mask.specs.Mask.{has};
ghost use Rattle.vx_picker.specs.Picks.{PicksMember};
ghost use Rattle.vx_cell.specs.Acts.{Bytes};
ghost use Rattle.vx_cell.specs.Region.{IsTold, IsWhole};
ghost use Rattle.vx_cell.specs.Running.{GivesCurrent};
ghost use Rattle.vx_cell.specs.Calls.{CallEnds, ClearLeaves, CopyLeaves, HasCleared, IsInSpan, IsResumable, ResumeEnds, Stands, WriteEnds, answer_of, done_of, region_of, skipped_of};

use crate::cell::Cell;
use crate::fault::CellFault;
use crate::run::Ran;
use vx_core::{Act, Job, Phase};
use vx_marks::Marker;
use vx_picker::{Picker, Policy};
use vx_piece::Piece;

impl<P: Piece> Cell<P> {
    /// Reads blocks, and answers the call's number. `at` counts from the volume's first block. `scratch` has the bytes of the
    /// region.
    pub fn read<M: Marker, F: Fn(u64, u64) -> u32>(
        &mut self,
        at: u64,
        into: &mut [u8],
        scratch: &mut [u8],
        log: &mut M,
        pick: &Picker<F>,
        policy: Policy,
    ) -> Result<u64, CellFault>
        requires picks { PicksMember (F.pre pick.now.select) (F.post pick.now.select) }
        requires idle { IsIdle self.old.stage.phase }
        requires whole { IsWhole (region_of P.seen self.old (M.log log.old)) }
        requires scratch { length scratch.old ≡ 512 * self.old.span.count }
        requires range { IsInSpan self.old.span.start self.old.span.count at (length into.old) }
        requires room { self.old.number + 1 < 2 ^ 64 }
        ensures ended { CallEnds Read
            (record { at = at - self.old.span.start; into = into.old; from = []; scratch = scratch.old }) (region_of P.seen self.old (M.log log.old))
            (region_of P.seen self.new (M.log log.new)) (record { at = at - self.old.span.start; into = into.new; from = []; scratch = scratch.new }) result }
        ensures number { IfOk result (λ n. n ≡ self.new.number) }
        // Whatever the stored choice is, the bytes are those of a plex that is on and unmarked.
        ensures gives { IfOk result (λ n. IsTold (region_of P.seen self.old (M.log log.old)) → GivesCurrent (region_of P.seen self.new (M.log log.new)) (at - self.old.span.start) into.new) }
        ensures length { length into.new ≡ length into.old }
        ensures scratch { length scratch.new ≡ length scratch.old }
        ensures follows { M.follows log.old log.new }
    {
        if self.is_dead() {
            return Err(CellFault::PowerLost);
        }
        self.number += 1;
        let ran = self.run(
            Job::Read,
            at - self.span.start,
            into,
            &[],
            scratch,
            log,
            pick,
            policy,
        );
        answer(ran, self.number, self.number)
    }

    /// Writes blocks, and answers the call's number. `at` counts from the volume's first block. A logged region stays marked
    /// dirty.
    pub fn write_dirty<M: Marker>(
        &mut self,
        at: u64,
        from: &[u8],
        scratch: &mut [u8],
        log: &mut M,
    ) -> Result<u64, CellFault>
        requires idle { IsIdle self.old.stage.phase }
        requires whole { IsWhole (region_of P.seen self.old (M.log log.old)) }
        requires scratch { length scratch.old ≡ 512 * self.old.span.count }
        requires range { IsInSpan self.old.span.start self.old.span.count at (length from.now) }
        requires room { self.old.number + 1 < 2 ^ 64 }
        ensures ended { CallEnds Write
            (record { at = at - self.old.span.start; into = []; from = from.now; scratch = scratch.old }) (region_of P.seen self.old (M.log log.old))
            (region_of P.seen self.new (M.log log.new)) (record { at = at - self.old.span.start; into = []; from = from.now; scratch = scratch.new }) result }
        ensures number { IfOk result (λ n. n ≡ self.new.number) }
        ensures scratch { length scratch.new ≡ length scratch.old }
        ensures follows { M.follows log.old log.new }
    {
        if self.is_dead() {
            return Err(CellFault::PowerLost);
        }
        self.number += 1;
        let pick = Picker::new(lowest_member);
        let ran = self.run(
            Job::Write,
            at - self.span.start,
            &mut [],
            from,
            scratch,
            log,
            &pick,
            Policy::Round,
        );
        answer(ran, self.number, self.number)
    }

    /// Writes blocks, and then takes the dirty mark away; a failure of that changes no answer. `at` counts from the volume's
    /// first block. The log is not lent.
    pub fn write<M: Marker>(
        &mut self,
        at: u64,
        from: &[u8],
        scratch: &mut [u8],
        log: &mut M,
    ) -> Result<u64, CellFault>
        requires idle { IsIdle self.old.stage.phase }
        requires whole { IsWhole (region_of P.seen self.old (M.log log.old)) }
        requires scratch { length scratch.old ≡ 512 * self.old.span.count }
        requires range { IsInSpan self.old.span.start self.old.span.count at (length from.now) }
        requires room { self.old.number + 1 < 2 ^ 64 }
        requires own { (M.log log.old).lent ≡ false }
        ensures ended { WriteEnds
            (record { at = at - self.old.span.start; into = []; from = from.now; scratch = scratch.old }) (region_of P.seen self.old (M.log log.old))
            (region_of P.seen self.new (M.log log.new)) (record { at = at - self.old.span.start; into = []; from = from.now; scratch = scratch.new }) result }
        ensures number { IfOk result (λ n. n ≡ self.new.number) }
        ensures scratch { length scratch.new ≡ length scratch.old }
        ensures follows { M.follows log.old log.new }
    {
        let written = self.write_dirty(at, from, scratch, log);
        match written {
            Ok(number) if self.stage.logged => self.clear_after(number, scratch, log),
            _ => written,
        }
    }

    /// Takes the dirty mark away after a write that was done.
    fn clear_after<M: Marker>(
        &mut self,
        number: u64,
        scratch: &mut [u8],
        log: &mut M,
    ) -> Result<u64, CellFault>
        requires settled { self.old.stage.phase ≡ Settled }
        requires whole { IsWhole (region_of P.seen self.old (M.log log.old)) }
        requires scratch { length scratch.old ≡ 512 * self.old.span.count }
        ensures cleared { HasCleared number (region_of P.seen self.old (M.log log.old)) (region_of P.seen self.new (M.log log.new)) result }
        ensures number { IfOk result (λ n. n ≡ number) }
        ensures scratch { length scratch.new ≡ length scratch.old }
        ensures follows { M.follows log.old log.new }
    {
        match self.clear_dirty(scratch, log) {
            Err(CellFault::PowerLost) => Err(CellFault::PowerLost),
            _ => Ok(number),
        }
    }

    /// Makes the current plexes of the region equal.
    pub fn settle<M: Marker>(&mut self, scratch: &mut [u8], log: &mut M) -> Result<(), CellFault>
        requires idle { IsIdle self.old.stage.phase }
        requires whole { IsWhole (region_of P.seen self.old (M.log log.old)) }
        requires scratch { length scratch.old ≡ 512 * self.old.span.count }
        ensures ended { CallEnds Settle
            (record { at = 0; into = []; from = []; scratch = scratch.old }) (region_of P.seen self.old (M.log log.old))
            (region_of P.seen self.new (M.log log.new)) (record { at = 0; into = []; from = []; scratch = scratch.new }) result }
        ensures scratch { length scratch.new ≡ length scratch.old }
        ensures follows { M.follows log.old log.new }
    {
        if self.is_dead() {
            return Err(CellFault::PowerLost);
        }
        let pick = Picker::new(lowest_member);
        let ran = self.run(
            Job::Settle,
            0,
            &mut [],
            &[],
            scratch,
            log,
            &pick,
            Policy::Round,
        );
        answer(ran, (), ())
    }

    /// Copies the region to a marked plex, and answers whether there was something to copy. An unsettled region is settled
    /// first.
    pub fn copy_to<M: Marker>(
        &mut self,
        map: u8,
        scratch: &mut [u8],
        log: &mut M,
    ) -> Result<bool, CellFault>
        requires idle { IsIdle self.old.stage.phase }
        requires whole { IsWhole (region_of P.seen self.old (M.log log.old)) }
        requires scratch { length scratch.old ≡ 512 * self.old.span.count }
        ensures ended { CallEnds (Copy map)
            (record { at = 0; into = []; from = []; scratch = scratch.old }) (region_of P.seen self.old (M.log log.old))
            (region_of P.seen self.new (M.log log.new)) (record { at = 0; into = []; from = []; scratch = scratch.new }) result }
        // It answers false exactly where the plex was not on or, once the region was settled, not marked.
        ensures marks { CopyLeaves map self.old.stage self.new.stage result }
        ensures scratch { length scratch.new ≡ length scratch.old }
        ensures follows { M.follows log.old log.new }
    {
        if self.is_dead() {
            return Err(CellFault::PowerLost);
        }
        let pick = Picker::new(lowest_member);
        let ran = self.run(
            Job::Copy(map as u32),
            0,
            &mut [],
            &[],
            scratch,
            log,
            &pick,
            Policy::Round,
        );
        answer(ran, true, false)
    }

    /// Takes the dirty mark away where there is one. An unsettled region is settled first.
    pub fn clear_dirty<M: Marker>(
        &mut self,
        scratch: &mut [u8],
        log: &mut M,
    ) -> Result<(), CellFault>
        requires idle { IsIdle self.old.stage.phase }
        requires whole { IsWhole (region_of P.seen self.old (M.log log.old)) }
        requires scratch { length scratch.old ≡ 512 * self.old.span.count }
        ensures ended { CallEnds Clear
            (record { at = 0; into = []; from = []; scratch = scratch.old }) (region_of P.seen self.old (M.log log.old))
            (region_of P.seen self.new (M.log log.new)) (record { at = 0; into = []; from = []; scratch = scratch.new }) result }
        ensures marks { ClearLeaves self.old.stage self.new.stage result }
        ensures scratch { length scratch.new ≡ length scratch.old }
        ensures follows { M.follows log.old log.new }
    {
        if self.is_dead() {
            return Err(CellFault::PowerLost);
        }
        let pick = Picker::new(lowest_member);
        let ran = self.run(
            Job::Clear,
            0,
            &mut [],
            &[],
            scratch,
            log,
            &pick,
            Policy::Round,
        );
        answer(ran, (), ())
    }

    /// Goes on with the call that was held, whose job stands in the stage, with the same range and bytes; a slice that the
    /// call does not have is empty. Answers the number, or 1 for a copy that copied and 0 for one that had nothing to copy,
    /// and 0 for the others.
    pub fn resume<M: Marker, F: Fn(u64, u64) -> u32>(
        &mut self,
        at: u64,
        into: &mut [u8],
        from: &[u8],
        scratch: &mut [u8],
        log: &mut M,
        pick: &Picker<F>,
        policy: Policy,
    ) -> Result<u64, CellFault>
        requires picks { PicksMember (F.pre pick.now.select) (F.post pick.now.select) }
        requires stands { Stands self.old.stage.phase }
        requires whole { IsWhole (region_of P.seen self.old (M.log log.old)) }
        requires scratch { length scratch.old ≡ 512 * self.old.span.count }
        requires resumable { IsResumable self.old.span.count self.old.stage.phase (record { at = at - self.old.span.start; into = into.old; from = from.now; scratch = scratch.old }) }
        ensures ended { ResumeEnds self.old.stage.phase
            (record { at = at - self.old.span.start; into = into.old; from = from.now; scratch = scratch.old }) (region_of P.seen self.old (M.log log.old))
            (region_of P.seen self.new (M.log log.new)) (record { at = at - self.old.span.start; into = into.new; from = from.now; scratch = scratch.new }) result }
        ensures length { length into.new ≡ length into.old }
        ensures scratch { length scratch.new ≡ length scratch.old }
        ensures follows { M.follows log.old log.new }
    {
        match self.stage.phase {
            Phase::Busy(work) => {
                let from_start = at.saturating_sub(self.span.start);
                let ran = self.run(work.job, from_start, into, from, scratch, log, pick, policy);
                answer(
                    ran,
                    done_of(work.job, self.number),
                    skipped_of(work.job, self.number),
                )
            }
            Phase::Settled | Phase::Unsettled | Phase::Dead => Err(CellFault::Held),
        }
    }

    fn is_dead(&self) -> bool
        ensures dead { result ≡ true → self.now.stage.phase ≡ Dead }
        ensures alive { self.now.stage.phase ≡ Dead → result ≡ true }
    {
        match self.stage.phase {
            Phase::Dead => true,
            Phase::Settled | Phase::Unsettled | Phase::Busy(_) => false,
        }
    }
}

/// The answer to a call whose job has run.
fn answer<T: Copy>(ran: Ran, done: T, skipped: T) -> Result<T, CellFault>
    ensures { result ≡ answer_of done skipped ran.act ran.first }
{
    match ran.act {
        None => Err(CellFault::Held),
        Some(Act::Done) => Ok(done),
        Some(Act::Skipped) => Ok(skipped),
        Some(Act::Lost) => Err(CellFault::PowerLost),
        Some(_) => match ran.first {
            None => Err(CellFault::PowerLost),
            Some(place) => Err(CellFault::Fault(place)),
        },
    }
}

/// What a job answers where it is done.
fn done_of(job: Job, number: u64) -> u64
    ensures { result ≡ done_of job number }
{
    match job {
        Job::Read | Job::Write => number,
        Job::Copy(_) => 1,
        Job::Settle | Job::Clear => 0,
    }
}

/// What a job answers where it had nothing to do.
fn skipped_of(job: Job, number: u64) -> u64
    ensures { result ≡ skipped_of job number }
{
    match job {
        Job::Read | Job::Write => number,
        Job::Copy(_) | Job::Settle | Job::Clear => 0,
    }
}

/// Answers a member of a mask that is not empty.
fn lowest_member(mask: u64, _turn: u64) -> u32
    ensures { mask ≢ 0 → has mask result ≡ true }
{
    vx_mask::first(mask)
}
