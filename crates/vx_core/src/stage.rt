/// What a region is asked to do. Copy names the plex that is copied to.
#[derive(Clone, Copy, Debug, PartialEq, Eq)]
pub enum Job {
    Read,
    Write,
    Copy(u32),
    Settle,
    Clear,
}

/// What has happened: a job begins, or the last act was answered, or the power is cut. ReadFailed names the plex.
#[derive(Clone, Copy, Debug, PartialEq, Eq)]
pub enum Event {
    Begin(Job),
    Marked,
    MarkFailed,
    Unmarked,
    UnmarkFailed,
    Wrote,
    WriteFailed,
    Got,
    ReadFailed(u32),
    Cut,
}

/// What is to be done now. Mark and Unmark name maps as a mask, ReadCall the plexes that may serve a read; the others
/// name a plex. The last four end the job: it is done, it had nothing to do, it failed, or the power is cut.
#[derive(Clone, Copy, Debug, PartialEq, Eq)]
pub enum Act {
    Mark(u64),
    Unmark(u64),
    WriteCall(u32),
    WriteRegion(u32),
    ReadCall(u64),
    ReadRegion(u32),
    Done,
    Skipped,
    Fault,
    Lost,
}

/// Where a job stands: which act it waits for. Find and Equal are steps of a settling, which comes before the job.
#[derive(Clone, Copy, Debug, PartialEq, Eq)]
pub enum Step {
    Mark,
    Write,
    MarkFailed,
    Find,
    Equal,
    Copy,
    Unmark,
    Read,
}

/// A job under way. `source` is the plex that is read or was read last; `left` are the plexes still to be asked, `good`
/// and `failed` those that a write reached and missed.
#[derive(Clone, Copy, Debug, PartialEq, Eq)]
pub struct Work {
    pub job: Job,
    pub step: Step,
    pub source: u32,
    pub left: u64,
    pub good: u64,
    pub failed: u64,
}

/// Settled: the unmarked plexes are equal. Unsettled: they may differ, and the next job makes them equal first. Dead: the
/// power was cut. Busy: a job is under way.
#[derive(Clone, Copy, Debug, PartialEq, Eq)]
pub enum Phase {
    Settled,
    Unsettled,
    Dead,
    Busy(Work),
}

/// A region's plexes and marks, as masks by map number, and its phase: the plexes that are on, the other data plexes,
/// the maps of the volume's snapshots, and the marks that every copy of the log shows, where there is a log.
#[derive(Clone, Copy, Debug, PartialEq, Eq)]
pub struct Stage {
    pub on: u64,
    pub off: u64,
    pub snaps: u64,
    pub bits: u64,
    pub logged: bool,
    pub phase: Phase,
}
