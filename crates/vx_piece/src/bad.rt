ghost use Rattle.std.specs.Prelude.{◌≡◌, ◌+◌, ◌<◌, ◌≤◌, ◌^◌, IfOk};
ghost use Rattle.vx_piece.specs.Bads.{common_start, common_end, overlaps, is_touched, good_before, good_sectors, counted_down, bad_after, bads_after, cut_to, bads_in};

use std::alloc::Global;
use vx_base::OutOfMemory;

/// Sectors of a device in memory whose calls fail: a call of its kind that touches it passes `skip` times, then fails
/// `times` times, then passes. `start` and `count` are sectors, as the device counts them.
#[derive(Clone, Copy, Debug, PartialEq, Eq)]
pub struct Bad {
    pub start: u64,
    pub count: u64,
    pub on_read: bool,
    pub on_write: bool,
    pub skip: u64,
    pub times: u64,
}

/// Counts a call on the range in each Bad that it touches, and answers how many of its sectors stand before the first
/// that fails.
pub(crate) fn touch(bads: &mut Vec<Bad>, start: u64, count: u64, is_write: bool) -> u64
    requires { start + count < 2 ^ 64 }
    ensures good { result ≡ good_sectors start count is_write bads.old.items }
    ensures few { result ≤ count }
    ensures counted { bads.new.items ≡ bads_after start count is_write bads.old.items }
{
    let good = good_sectors(bads, start, count, is_write);
    count_down(bads, start, count, is_write);
    good
}

/// How many sectors of the call stand before the first that fails.
fn good_sectors(bads: &[Bad], start: u64, count: u64, is_write: bool) -> u64
    requires { start + count < 2 ^ 64 }
    ensures { result ≡ good_sectors start count is_write bads.now }
{
    bads.iter().fold(
        count,
        |good, bad| good.min(good_before(bad, start, count, is_write)),
    )
}

/// Counts the call in each Bad that it touches.
fn count_down(bads: &mut [Bad], start: u64, count: u64, is_write: bool)
    requires { start + count < 2 ^ 64 }
    ensures { bads.new ≡ bads_after start count is_write bads.old }
{
    for bad in bads.iter_mut() {
        *bad = bad_after(*bad, start, count, is_write);
    }
}

/// The Bads that overlap the range, each cut to it.
pub(crate) fn bads_in(
    alloc: Global,
    bads: &[Bad],
    start: u64,
    count: u64,
) -> Result<Vec<Bad>, OutOfMemory>
    requires { start + count < 2 ^ 64 }
    ensures { IfOk result (λ part. part.items ≡ bads_in start count bads.now) }
{
    let part = bads
        .iter()
        .filter(|bad| overlaps(bad, start, count))
        .map(|bad| cut_to(bad, start, count))
        .collect(alloc)?;
    Ok(part)
}

fn common_start(bad: &Bad, start: u64) -> u64
    ensures { result ≡ common_start start bad.now }
{
    start.max(bad.start)
}

fn common_end(bad: &Bad, start: u64, count: u64) -> u64
    requires { start + count < 2 ^ 64 }
    ensures { result ≡ common_end start count bad.now }
{
    (start + count).min(bad.start.saturating_add(bad.count))
}

fn overlaps(bad: &Bad, start: u64, count: u64) -> bool
    requires { start + count < 2 ^ 64 }
    ensures { result ≡ overlaps start count bad.now }
{
    common_start(bad, start) < common_end(bad, start, count)
}

fn is_touched(bad: &Bad, start: u64, count: u64, is_write: bool) -> bool
    requires { start + count < 2 ^ 64 }
    ensures { result ≡ is_touched start count is_write bad.now }
{
    let of_kind = if is_write { bad.on_write } else { bad.on_read };
    of_kind && overlaps(bad, start, count)
}

fn good_before(bad: &Bad, start: u64, count: u64, is_write: bool) -> u64
    requires { start + count < 2 ^ 64 }
    ensures { result ≡ good_before start count is_write bad.now }
{
    let is_ready = bad.skip == 0 && 0 < bad.times;
    if is_touched(bad, start, count, is_write) && is_ready {
        common_start(bad, start) - start
    } else {
        count
    }
}

fn counted_down(bad: Bad) -> Bad
    ensures { result ≡ counted_down bad }
{
    if 0 < bad.skip {
        Bad {
            skip: bad.skip - 1,
            ..bad
        }
    } else {
        Bad {
            times: bad.times.saturating_sub(1),
            ..bad
        }
    }
}

fn bad_after(bad: Bad, start: u64, count: u64, is_write: bool) -> Bad
    requires { start + count < 2 ^ 64 }
    ensures { result ≡ bad_after start count is_write bad }
{
    if is_touched(&bad, start, count, is_write) {
        counted_down(bad)
    } else {
        bad
    }
}

fn cut_to(bad: &Bad, start: u64, count: u64) -> Bad
    requires { start + count < 2 ^ 64 }
    ensures { result ≡ cut_to start count bad.now }
{
    let first = common_start(bad, start);
    Bad {
        start: first,
        count: common_end(bad, start, count).saturating_sub(first),
        ..*bad
    }
}
