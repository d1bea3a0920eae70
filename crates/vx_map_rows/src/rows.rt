//! The rows.

ghost use Rattle.std.specs.Prelude.{◌≡◌, true};
ghost use Rattle.vx_piece.specs.MemPiece.{mem_seen};
ghost use Rattle.vx_pages.specs.Pages.{page_seen};

use crate::pages::{Fault, page};
use std::io;
use vx_marks::{MarkFault, Marker};
use vx_pages::{MapSector, Page};
use vx_piece::MemPiece;

/// Maps 3 and 5.
const BITS: u64 = 0x28;

pub fn rows(rt: &HostRuntime) -> io::Result<()> {
    for step in 0..5 {
        println!(rt; "mark, write {step} fails")?;
        mark_row(rt, fault_at(step, 1), false)?;
    }
    for step in 0..5 {
        println!(rt; "mark, write {step} fails, then firm")?;
        mark_row(rt, fault_at(step, 1), true)?;
    }
    for step in 0..5 {
        println!(rt; "mark, then unmark, write {step} fails")?;
        unmark_row(rt, fault_at(step, 2), false)?;
    }
    for step in 0..5 {
        println!(rt; "mark, then unmark, write {step} fails, then firm")?;
        unmark_row(rt, fault_at(step, 2), true)?;
    }
    Ok(())
}

/// The writes of one call in their order: map 3 on each copy, and then map 5.
fn fault_at(step: u32, passes: u64) -> Option<Fault> {
    let (copy, map) = match step {
        0 => (0, 3),
        1 => (1, 3),
        2 => (0, 5),
        3 => (1, 5),
        _ => return None,
    };
    Some(Fault { copy, map, passes })
}

fn mark_row(rt: &HostRuntime, fault: Option<Fault>, firm: bool) -> io::Result<()> {
    let mut page = page(rt.alloc(), fault)?;
    answer(rt, "mark", mark(&mut page))?;
    let firmed = firm_if(&mut page, firm);
    if firm {
        answer(rt, "firm", firmed)?;
    }
    claims(rt, &page)?;
    show(rt, page)
}

fn unmark_row(rt: &HostRuntime, fault: Option<Fault>, firm: bool) -> io::Result<()> {
    let mut page = page(rt.alloc(), fault)?;
    answer(rt, "mark", mark(&mut page))?;
    answer(rt, "unmark", unmark(&mut page))?;
    let firmed = firm_if(&mut page, firm);
    if firm {
        answer(rt, "firm", firmed)?;
    }
    claims(rt, &page)?;
    show(rt, page)
}

fn mark(page: &mut Page<MemPiece>) -> Result<(), MarkFault>
    requires region { (page_seen mem_seen page.old).has_region 7 ≡ true }
    requires maps { (page_seen mem_seen page.old).maps ≡ 32 }
    ensures region { (page_seen mem_seen page.new).has_region 7 ≡ true }
    ensures maps { (page_seen mem_seen page.new).maps ≡ 32 }
{
    page.mark(7, BITS)
}

fn unmark(page: &mut Page<MemPiece>) -> Result<(), MarkFault>
    requires region { (page_seen mem_seen page.old).has_region 7 ≡ true }
    requires maps { (page_seen mem_seen page.old).maps ≡ 32 }
    ensures region { (page_seen mem_seen page.new).has_region 7 ≡ true }
    ensures maps { (page_seen mem_seen page.new).maps ≡ 32 }
{
    page.unmark(7, BITS)
}

/// Writes again what is loose, if it is asked for.
fn firm_if(page: &mut Page<MemPiece>, asked: bool) -> Result<(), MarkFault>
    requires { (page_seen mem_seen page.old).has_region 7 ≡ true }
    ensures { (page_seen mem_seen page.new).has_region 7 ≡ true }
{
    if asked { page.firm() } else { Ok(()) }
}

pub fn answer(rt: &HostRuntime, call: &str, answer: Result<(), MarkFault>) -> io::Result<()> {
    match answer {
        Ok(()) => println!(rt; "  {call}: ok"),
        Err(MarkFault::Failed { copy, device }) => println!(rt;
            "  {call}: copy {copy} failed on device {device}"
        ),
        Err(MarkFault::PowerLost) => println!(rt; "  {call}: power lost"),
        Err(MarkFault::Busy) => println!(rt; "  {call}: busy"),
    }
}

fn claims(rt: &HostRuntime, page: &Page<MemPiece>) -> io::Result<()>
    requires { (page_seen mem_seen page.now).has_region 7 ≡ true }
{
    println!(rt; "  claims {:#x}", page.marked(7))
}

/// What each copy shows of region 7, by the bytes of its pieces, and how many sectors were written since they were made.
fn show(rt: &HostRuntime, page: Page<MemPiece>) -> io::Result<()> {
    let mut first: u64 = 0;
    let mut second: u64 = 0;
    let mut writes: u64 = 0;
    let mut bit: u64 = 1;
    for sector in page.into_sectors() {
        let (one, other) = sector.into_pieces();
        first |= seen(&one, bit);
        writes = writes.saturating_add(one.counts().writes.saturating_sub(1));
        if let Some(other) = other {
            second |= seen(&other, bit);
            writes = writes.saturating_add(other.counts().writes.saturating_sub(1));
        }
        bit = bit.wrapping_mul(2);
    }
    println!(rt; "  copy 0 shows {first:#x}, copy 1 shows {second:#x}, {writes} writes")
}

/// The bit where the piece marks region 7, whose byte is the first and bit the highest. Another byte that is not zero
/// shows as the top bit.
fn seen(piece: &MemPiece, bit: u64) -> u64 {
    let bytes = piece.bytes();
    let others = bytes.iter().filter(|byte| **byte != 0).count();
    match bytes.first() {
        Some(0x80) if others == 1 => bit,
        Some(0) if others == 0 => 0,
        _ => 1 << 63,
    }
}
