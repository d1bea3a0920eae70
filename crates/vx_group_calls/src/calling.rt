ghost use Rattle.std.specs.Prelude.{◌≡◌, ℕ, List, ◌+◌, ◌*◌, ◌/◌, ◌%◌, ◌^◌, ◌<◌, ◌≤◌, length, replicate, IfOk, OnErr};
ghost use Rattle.vx_picker.specs.Picks.{PicksMember};
ghost use Rattle.vx_piece.specs.Seen.{Keeps};
ghost use Rattle.vx_runs.specs.Run.{EachPiece};
ghost use Rattle.vx_lending.specs.Going.{GoTogether};
ghost use Rattle.vx_volume_laws.specs.Lying.{LiesIn};
ghost use Rattle.vx_lending.specs.Left.{held_pieces};
ghost use Rattle.vx_stages.specs.Calls.{start_of, count_of};
ghost use Rattle.vx_volume.specs.Log.{LogGoes};
ghost use Rattle.vx_volume.specs.Volume.{IsVolume, log_of, shape_of, volume_seen};
ghost use Rattle.vx_group_calls.specs.Serving.{IsWithinLimits, ServesCall};
ghost use Rattle.vx_group_calls.specs.Causes.{AreCutWhereDead, FailuresAreCounted, ServedHasCause};
ghost use Rattle.vx_group_calls.specs.Ending.{Continues, IsReadServed, IsWriteServed};

use crate::bytes::{bytes_of, filled};
use crate::ending::ended;
use crate::served::Served;
use std::alloc::Global;
use vx_base::OutOfMemory;
use vx_lending::Running;
use vx_picker::Picker;
use vx_piece::Piece;
use vx_script_forms::Call;
use vx_script_words::Blocks;
use vx_volume::{Receipt, Volume};
use vx_volume_laws::lives::each_call_runs_on;

/// A volume of which a region may have drawn a number above this one serves no call: there is no memory for it.
const MOST_NUMBERS: u64 = 1 << 61;

/// Serves a call of a running volume whose blocks it keeps to. Where the volume's policy asks a function which plex serves a read, it
/// is that of `pick`. After a refusal of memory nothing has changed.
pub fn serve<P: Piece + Drop, F: Fn(u64, u64) -> u32>(
    alloc: Global,
    running: &mut Running<P>,
    call: &Call,
    pick: &Picker<F>,
) -> Result<Served, OutOfMemory>
    requires picks { PicksMember (F.pre pick.now.select) (F.post pick.now.select) }
    requires volume { IsVolume (volume_seen P.seen running.old.volume) }
    requires valid { IsWithinLimits call.now }
    requires within { start_of call.now + count_of call.now ≤ (volume_seen P.seen running.old.volume).length }
    ensures refused { OnErr result (running.new ≡ running.old) }
    ensures served { IfOk result (λ served. ServesCall P.seen call.now served running.old running.new) }
    ensures whole { IsVolume (volume_seen P.seen running.new.volume) }
    ensures form { running.new.form ≡ running.old.form }
    ensures shape { shape_of running.new.volume ≡ shape_of running.old.volume }

    // Its pieces stay where they are, each in its place.
    ensures stays { EachPiece Keeps (held_pieces P.seen running.old.volume) (held_pieces P.seen running.new.volume) }
    ensures goes { GoTogether (held_pieces P.seen running.old.volume) (held_pieces P.seen running.new.volume) }
    ensures follows { LogGoes P.seen (log_of running.old.volume) (log_of running.new.volume) }
    ensures cause { IfOk result (λ served. ServedHasCause P.seen served running.old.volume running.new.volume) }
    ensures counted { FailuresAreCounted P.seen running.old.volume running.new.volume }
    ensures dead { AreCutWhereDead (volume_seen P.seen running.old.volume) → AreCutWhereDead (volume_seen P.seen running.new.volume) }
    ensures lies { (numbers : List ℕ) → LiesIn P.seen numbers running.old.form running.old.volume → LiesIn P.seen numbers running.new.form running.new.volume }
{
    each_call_runs_on();
    if running.volume.most() > MOST_NUMBERS {
        return Err(OutOfMemory);
    }
    match call {
        Call::Read { start, count, .. } => read_blocks(
            alloc,
            &mut running.volume,
            *start,
            *count,
            pick,
        ),
        Call::Fill {
            start,
            count,
            byte,
            ..
        } => fill_blocks(alloc, &mut running.volume, *start, *count, *byte),
        Call::Data { start, blocks, .. } => write_blocks(
            alloc,
            &mut running.volume,
            *start,
            blocks,
        ),
    }
}

/// Reads blocks of a volume.
fn read_blocks<P: Piece + Drop, F: Fn(u64, u64) -> u32>(
    alloc: Global,
    volume: &mut Volume<P>,
    start: u64,
    count: u64,
    pick: &Picker<F>,
) -> Result<Served, OutOfMemory>
    requires picks { PicksMember (F.pre pick.now.select) (F.post pick.now.select) }
    requires whole { IsVolume (volume_seen P.seen volume.old) }
    requires some { 0 < count }
    requires few { count ≤ 2048 }
    requires within { start + count ≤ (volume_seen P.seen volume.old).length }
    requires room { (volume_seen P.seen volume.old).most + 1 < 2 ^ 64 }
    ensures refused { OnErr result (volume.new ≡ volume.old) }
    ensures served { IfOk result (λ served. IsReadServed start count served (volume_seen P.seen volume.old) (volume_seen P.seen volume.new)) }
    ensures continues { Continues P.seen volume.old volume.new }
{
    let mut receipt = Receipt::reserve(alloc, count)?;
    let outcome = volume.read(start, pick, &mut receipt);
    let Receipt { parts, blocks, .. } = receipt;
    Ok(ended(outcome, parts, blocks))
}

/// Writes one byte to blocks of a volume.
fn fill_blocks<P: Piece + Drop>(
    alloc: Global,
    volume: &mut Volume<P>,
    start: u64,
    count: u64,
    byte: u8,
) -> Result<Served, OutOfMemory>
    requires whole { IsVolume (volume_seen P.seen volume.old) }
    requires some { 0 < count }
    requires few { count ≤ 2048 }
    requires within { start + count ≤ (volume_seen P.seen volume.old).length }
    requires room { (volume_seen P.seen volume.old).most + 1 < 2 ^ 64 }
    ensures refused { OnErr result (volume.new ≡ volume.old) }
    ensures served { IfOk result (λ served. IsWriteServed start count (replicate (512 * count) byte) served (volume_seen P.seen volume.old) (volume_seen P.seen volume.new)) }
    ensures continues { Continues P.seen volume.old volume.new }
{
    let bytes = filled(alloc, count, byte)?;
    write_bytes(alloc, volume, start, count, &bytes)
}

/// Writes blocks to a volume.
fn write_blocks<P: Piece + Drop>(
    alloc: Global,
    volume: &mut Volume<P>,
    start: u64,
    blocks: &Blocks,
) -> Result<Served, OutOfMemory>
    requires whole { IsVolume (volume_seen P.seen volume.old) }
    requires blocks { length blocks.now % 512 ≡ 0 }
    requires some { 0 < length blocks.now / 512 }
    requires few { length blocks.now / 512 ≤ 64 }
    requires within { start + length blocks.now / 512 ≤ (volume_seen P.seen volume.old).length }
    requires room { (volume_seen P.seen volume.old).most + 1 < 2 ^ 64 }
    ensures refused { OnErr result (volume.new ≡ volume.old) }
    ensures served { IfOk result (λ served. IsWriteServed start (length blocks.now / 512) blocks.now served (volume_seen P.seen volume.old) (volume_seen P.seen volume.new)) }
    ensures continues { Continues P.seen volume.old volume.new }
{
    let bytes = bytes_of(alloc, blocks)?;
    write_bytes(alloc, volume, start, blocks.count() as u64, &bytes)
}

/// Writes these bytes to so many blocks of a volume.
fn write_bytes<P: Piece + Drop>(
    alloc: Global,
    volume: &mut Volume<P>,
    start: u64,
    count: u64,
    bytes: &[u8],
) -> Result<Served, OutOfMemory>
    requires whole { IsVolume (volume_seen P.seen volume.old) }
    requires some { 0 < count }
    requires few { count ≤ 2048 }
    requires bytes { length bytes.now ≡ 512 * count }
    requires within { start + count ≤ (volume_seen P.seen volume.old).length }
    requires room { (volume_seen P.seen volume.old).most + 1 < 2 ^ 64 }
    ensures refused { OnErr result (volume.new ≡ volume.old) }
    ensures served { IfOk result (λ served. IsWriteServed start count bytes.now served (volume_seen P.seen volume.old) (volume_seen P.seen volume.new)) }
    ensures continues { Continues P.seen volume.old volume.new }
{
    let mut receipt = Receipt::reserve(alloc, count)?;
    let outcome = volume.write(start, bytes, &mut receipt);
    let Receipt { parts, .. } = receipt;
    Ok(ended(outcome, parts, Vec::new(alloc)))
}
