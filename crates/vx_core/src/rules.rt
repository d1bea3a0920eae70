ghost use Rattle.std.specs.Prelude.{◌≡◌};
ghost use Rattle.vx_core.specs.Table.{
  NamesAct,
  act_at,
  answered,
  begun,
  busy,
  copy,
  current,
  ended,
  freed_by,
  got,
  goes_on,
  level,
  marked_failed,
  need,
  next_of,
  offered,
  read_failed,
  read_from,
  settle,
  start,
  target_of,
  work,
  write,
  written,
  wrote,
};
ghost use Rattle.vx_core.specs.Causes.{CausesFrom};
ghost use Rattle.vx_core.specs.Follow.{AsksPossible, FailsFrom, FollowsFrom, ReadsFrom};
ghost use Rattle.vx_core.specs.Kept.{Keeps};
ghost use Rattle.vx_core.specs.Progress.{KeepsForm};

use crate::stage::{Act, Event, Job, Phase, Stage, Step, Work};
use vx_mask::DIRTY;

fn current_plexes(stage: &Stage) -> u64
    ensures { result ≡ current stage.now }
{
    vx_mask::less(stage.on, stage.bits)
}

/// The marks that a write lacks.
fn needed(stage: &Stage) -> u64
    ensures { result ≡ need stage.now }
{
    if stage.logged {
        let all = vx_mask::with(vx_mask::of(DIRTY), vx_mask::with(stage.snaps, stage.off));
        vx_mask::less(all, stage.bits)
    } else {
        0
    }
}

/// The mark that the job takes away.
fn freed(job: Job) -> u64
    ensures { result ≡ freed_by job }
{
    match job {
        Job::Copy(map) => vx_mask::of(map),
        Job::Clear => vx_mask::of(DIRTY),
        Job::Read | Job::Write | Job::Settle => 0,
    }
}

/// The act that a step waits for.
fn act(stage: &Stage, work: &Work) -> Act
    ensures { result ≡ act_at stage.now work.now work.now.step }
{
    match work.step {
        Step::Mark => Act::Mark(needed(stage)),
        Step::Write => Act::WriteCall(vx_mask::first(work.left)),
        Step::MarkFailed => Act::Mark(work.failed),
        Step::Find => Act::ReadRegion(work.source),
        Step::Equal => Act::WriteRegion(vx_mask::first(work.left)),
        Step::Copy => match work.job {
            Job::Copy(map) => Act::WriteRegion(map),
            Job::Read | Job::Write | Job::Settle | Job::Clear => Act::WriteRegion(0),
        },
        Step::Unmark => Act::Unmark(freed(work.job)),
        Step::Read => match work.job {
            Job::Copy(_) => Act::ReadRegion(work.source),
            Job::Read | Job::Write | Job::Settle | Job::Clear => Act::ReadCall(work.left),
        },
    }
}

fn end(stage: Stage, phase: Phase, act: Act) -> (Stage, Act)
    ensures { result ≡ ended stage phase act }
{
    (Stage { phase, ..stage }, act)
}

fn go_on(stage: Stage, work: Work) -> (Stage, Act)
    ensures { result ≡ busy stage work }
{
    let act = act(&stage, &work);
    (
        Stage {
            phase: Phase::Busy(work),
            ..stage
        },
        act,
    )
}

fn new_work(job: Job, step: Step, left: u64) -> Work
    ensures { result ≡ work job step left }
{
    Work {
        job,
        step,
        source: 0,
        left,
        good: 0,
        failed: 0,
    }
}

fn write_call(stage: Stage) -> (Stage, Act)
    ensures { result ≡ write stage }
{
    let plexes = current_plexes(&stage);
    if plexes == 0 {
        end(stage, Phase::Settled, Act::Fault)
    } else {
        go_on(stage, new_work(Job::Write, Step::Write, plexes))
    }
}

fn reading(job: Job, step: Step, left: u64) -> Work
    ensures { result ≡ read_from job step left }
{
    Work {
        job,
        step,
        source: vx_mask::first(left),
        left: vx_mask::rest(left),
        good: 0,
        failed: 0,
    }
}

fn copy_region(stage: Stage, job: Job, left: u64) -> (Stage, Act)
    ensures { result ≡ copy stage job left }
{
    if left == 0 {
        end(stage, Phase::Settled, Act::Fault)
    } else {
        go_on(stage, reading(job, Step::Read, left))
    }
}

fn settle_region(stage: Stage, job: Job, left: u64) -> (Stage, Act)
    ensures { result ≡ settle stage job left }
{
    if left == 0 {
        end(stage, Phase::Unsettled, Act::Fault)
    } else {
        go_on(stage, reading(job, Step::Find, left))
    }
}

/// A job begins in a settled region.
fn begin(stage: Stage, job: Job) -> (Stage, Act)
    ensures { result ≡ start stage job }
{
    match job {
        Job::Write => {
            if needed(&stage) == 0 {
                write_call(stage)
            } else {
                go_on(stage, new_work(Job::Write, Step::Mark, 0))
            }
        }
        Job::Read => {
            let plexes = current_plexes(&stage);
            if plexes == 0 {
                end(stage, Phase::Settled, Act::Fault)
            } else {
                go_on(stage, new_work(Job::Read, Step::Read, plexes))
            }
        }
        Job::Copy(map) => {
            if vx_mask::contains(stage.on, map) && vx_mask::contains(stage.bits, map) {
                copy_region(stage, job, current_plexes(&stage))
            } else {
                end(stage, Phase::Settled, Act::Skipped)
            }
        }
        Job::Settle => end(stage, Phase::Settled, Act::Done),
        Job::Clear => {
            if vx_mask::contains(stage.bits, DIRTY) {
                let bits = vx_mask::less(stage.bits, vx_mask::of(DIRTY));
                go_on(
                    Stage { bits, ..stage },
                    new_work(Job::Clear, Step::Unmark, 0),
                )
            } else {
                end(stage, Phase::Settled, Act::Skipped)
            }
        }
    }
}

fn end_write(stage: Stage, work: Work) -> (Stage, Act)
    ensures { result ≡ written stage work }
{
    if work.failed == 0 {
        end(stage, Phase::Settled, Act::Done)
    } else if work.good == 0 {
        let phase = if vx_mask::rest(work.failed) == 0 {
            Phase::Settled
        } else {
            Phase::Unsettled
        };
        end(stage, phase, Act::Fault)
    } else {
        go_on(
            stage,
            Work {
                step: Step::MarkFailed,
                ..work
            },
        )
    }
}

fn next_write(stage: Stage, work: Work) -> (Stage, Act)
    ensures { result ≡ wrote stage work }
{
    if work.left == 0 {
        end_write(stage, work)
    } else {
        go_on(stage, work)
    }
}

fn next_equal(stage: Stage, work: Work) -> (Stage, Act)
    ensures { result ≡ level stage work }
{
    if work.left != 0 {
        go_on(stage, work)
    } else if work.failed != 0 {
        go_on(
            stage,
            Work {
                step: Step::MarkFailed,
                ..work
            },
        )
    } else {
        begin(
            Stage {
                phase: Phase::Settled,
                ..stage
            },
            work.job,
        )
    }
}

fn after_failed(stage: Stage, work: Work) -> (Stage, Act)
    ensures { result ≡ marked_failed stage work }
{
    if work.good == 0 {
        begin(
            Stage {
                phase: Phase::Settled,
                ..stage
            },
            work.job,
        )
    } else {
        end(stage, Phase::Settled, Act::Done)
    }
}

fn after_read(stage: Stage, work: Work) -> (Stage, Act)
    ensures { result ≡ got stage work work.job }
{
    match work.job {
        Job::Copy(_) => go_on(
            stage,
            Work {
                step: Step::Copy,
                ..work
            },
        ),
        Job::Read | Job::Write | Job::Settle | Job::Clear => end(stage, Phase::Settled, Act::Done),
    }
}

fn next_read(stage: Stage, work: Work, plex: u32) -> (Stage, Act)
    ensures { result ≡ read_failed stage work work.job plex }
{
    match work.job {
        Job::Copy(_) => copy_region(stage, work.job, work.left),
        Job::Read | Job::Write | Job::Settle | Job::Clear => {
            let left = vx_mask::less(work.left, vx_mask::of(plex));
            if left == 0 {
                end(stage, Phase::Settled, Act::Fault)
            } else {
                go_on(stage, Work { left, ..work })
            }
        }
    }
}

/// The last act was answered. An event that does not fit changes nothing, and the act is named again.
fn answer(stage: Stage, work: Work, event: Event) -> (Stage, Act)
    ensures { result ≡ answered stage work work.step event }
{
    match (work.step, event) {
        (Step::Mark, Event::Marked) => {
            let bits = vx_mask::with(stage.bits, needed(&stage));
            write_call(Stage { bits, ..stage })
        }
        (Step::Write, Event::Wrote) => {
            let good = vx_mask::with(work.good, vx_mask::of(vx_mask::first(work.left)));
            next_write(
                stage,
                Work {
                    left: vx_mask::rest(work.left),
                    good,
                    ..work
                },
            )
        }
        (Step::Write, Event::WriteFailed) => {
            let failed = vx_mask::with(work.failed, vx_mask::of(vx_mask::first(work.left)));
            next_write(
                stage,
                Work {
                    left: vx_mask::rest(work.left),
                    failed,
                    ..work
                },
            )
        }
        (Step::MarkFailed, Event::Marked) => {
            let bits = vx_mask::with(stage.bits, work.failed);
            after_failed(Stage { bits, ..stage }, work)
        }
        (Step::Find, Event::Got) => {
            let left = vx_mask::less(current_plexes(&stage), vx_mask::of(work.source));
            next_equal(
                stage,
                Work {
                    step: Step::Equal,
                    left,
                    ..work
                },
            )
        }
        (Step::Find, Event::ReadFailed(_)) => settle_region(stage, work.job, work.left),
        (Step::Equal, Event::Wrote) => next_equal(
            stage,
            Work {
                left: vx_mask::rest(work.left),
                ..work
            },
        ),
        (Step::Equal, Event::WriteFailed) => {
            let failed = vx_mask::with(work.failed, vx_mask::of(vx_mask::first(work.left)));
            next_equal(
                stage,
                Work {
                    left: vx_mask::rest(work.left),
                    failed,
                    ..work
                },
            )
        }
        (Step::Copy, Event::Wrote) => {
            let bits = vx_mask::less(stage.bits, freed(work.job));
            go_on(
                Stage { bits, ..stage },
                Work {
                    step: Step::Unmark,
                    ..work
                },
            )
        }
        (Step::Read, Event::Got) => after_read(stage, work),
        (Step::Read, Event::ReadFailed(plex)) => next_read(stage, work, plex),
        (Step::Unmark, Event::Unmarked) => end(stage, Phase::Settled, Act::Done),
        (Step::MarkFailed, Event::MarkFailed) => end(stage, Phase::Unsettled, Act::Fault),
        (Step::Mark, Event::MarkFailed)
        | (Step::Copy, Event::WriteFailed)
        | (Step::Unmark, Event::UnmarkFailed) => end(stage, Phase::Settled, Act::Fault),
        _ => go_on(stage, work),
    }
}

/// What a region does next, after an event: the stage that it is then in, and the act that follows. The event answers
/// the act that was named last, or begins a job where none is under way, or is a cut. One that fits no such way changes
/// nothing: under way the act is named again, and elsewhere the answer is Fault, or Lost once the region is dead.
pub fn next(stage: &Stage, event: Event) -> (Stage, Act)
    // The result is that of the table.
    ensures table { result ≡ next_of stage.now event }

    // Whatever stands round the stage, an event that fits it keeps soundness, and the calls a legal history in order.
    ensures keeps { Keeps stage.now event result }

    // A job under way waits for the act that is named.
    ensures named { NamesAct result }

    // Whatever the plexes hold, the stage stays well formed, and a job under way comes nearer to its end.
    ensures form { KeepsForm stage.now event result }

    // What a job under way asks for can be done: marks only where there is a log, reads and writes of held plexes.
    ensures possible { AsksPossible stage.now event result }

    // A job stays what it is, writes a region only once that was read, and ends as its kind may end; dead only by a cut.
    ensures follows { FollowsFrom stage.now stage.now.phase event result }

    // A job answers Fault only as a device fails.
    ensures fails { FailsFrom stage.now event result }

    // A read is done only once it has got its blocks.
    ensures reads { ReadsFrom stage.now stage.now.phase event result }

    // A read, a write or a settling answers Fault only where the log failed, or each plex that was current as it began.
    ensures causes { CausesFrom stage.now stage.now.phase event result }
{
    decide(stage, event)
}

fn decide(stage: &Stage, event: Event) -> (Stage, Act)
    ensures { result ≡ next_of stage.now event }
{
    if let Event::Cut = event {
        return end(*stage, Phase::Dead, Act::Lost);
    }
    match (stage.phase, event) {
        (Phase::Dead, _) => end(*stage, Phase::Dead, Act::Lost),
        (Phase::Settled, Event::Begin(job)) => begin(*stage, job),
        (Phase::Unsettled, Event::Begin(job)) => settle_region(*stage, job, current_plexes(stage)),
        (Phase::Busy(work), _) => answer(*stage, work, event),
        (Phase::Settled, _) => end(*stage, Phase::Settled, Act::Fault),
        (Phase::Unsettled, _) => end(*stage, Phase::Unsettled, Act::Fault),
    }
}
