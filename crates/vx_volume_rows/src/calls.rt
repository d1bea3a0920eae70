ghost use Rattle.std.specs.Prelude.{◌+◌, ◌^◌, ◌<◌, ◌≤◌, IsTrue};
ghost use Rattle.vx_piece.specs.MemPiece.{mem_seen};
ghost use Rattle.vx_lending.specs.Going.{GoTogether};
ghost use Rattle.vx_lending.specs.Left.{held_pieces};
ghost use Rattle.vx_stages.specs.Calls.{start_of, count_of};
ghost use Rattle.vx_volume.specs.Volume.{IsVolume, volume_seen};
ghost use Rattle.vx_group_calls.specs.Serving.{IsWithinLimits};

use crate::shown::show_served;
use std::io;
use vx_group_calls::serve;
use vx_lending::Running;
use vx_members::lowest_member;
use vx_names::Name;
use vx_picker::Picker;
use vx_piece::MemPiece;
use vx_script_forms::Call;

/// Fills both regions with one byte, reads across the bound between them, fills a block, and reads all.
pub fn calls(rt: &HostRuntime, running: &mut Running<MemPiece>, vol: Name) -> io::Result<()>
    requires { IsVolume (volume_seen mem_seen running.old.volume) }
    ensures whole { IsVolume (volume_seen mem_seen running.new.volume) }
    ensures goes { GoTogether (held_pieces mem_seen running.old.volume) (held_pieces mem_seen running.new.volume) }
{
    fill(rt, running, vol, 0, 256, 165)?;
    read(rt, running, vol, 64, 128)?;
    fill(rt, running, vol, 130, 1, 90)?;
    read(rt, running, vol, 0, 256)
}

fn fill(
    rt: &HostRuntime,
    running: &mut Running<MemPiece>,
    vol: Name,
    start: u64,
    count: u64,
    byte: u8,
) -> io::Result<()>
    requires { IsVolume (volume_seen mem_seen running.old.volume) }
    ensures whole { IsVolume (volume_seen mem_seen running.new.volume) }
    ensures goes { GoTogether (held_pieces mem_seen running.old.volume) (held_pieces mem_seen running.new.volume) }
{
    print!(rt; "  fill {start}+{count}:")?;
    let call = Call::Fill {
        vol,
        start,
        count,
        byte,
    };
    served(rt, running, &call)
}

fn read(
    rt: &HostRuntime,
    running: &mut Running<MemPiece>,
    vol: Name,
    start: u64,
    count: u64,
) -> io::Result<()>
    requires { IsVolume (volume_seen mem_seen running.old.volume) }
    ensures whole { IsVolume (volume_seen mem_seen running.new.volume) }
    ensures goes { GoTogether (held_pieces mem_seen running.old.volume) (held_pieces mem_seen running.new.volume) }
{
    print!(rt; "  read {start}+{count}:")?;
    let call = Call::Read { vol, start, count };
    served(rt, running, &call)
}

fn served(rt: &HostRuntime, running: &mut Running<MemPiece>, call: &Call) -> io::Result<()>
    requires { IsVolume (volume_seen mem_seen running.old.volume) }
    ensures whole { IsVolume (volume_seen mem_seen running.new.volume) }
    ensures goes { GoTogether (held_pieces mem_seen running.old.volume) (held_pieces mem_seen running.new.volume) }
{
    if !fits(call, running.volume.shape().geometry.length) {
        return println!(rt; " out of range");
    }
    let pick = Picker::new(|mask, turn| lowest_member(mask, turn));
    match serve(rt.alloc(), running, call, &pick) {
        Ok(served) => show_served(rt, &served),
        Err(_) => println!(rt; " no memory"),
    }
}

/// The call is a read or a fill that keeps to its limits and to so many blocks.
fn fits(call: &Call, length: u64) -> bool
    ensures limits { IsTrue result → IsWithinLimits call.now }
    ensures within { IsTrue result → start_of call.now + count_of call.now ≤ length }
{
    match call {
        Call::Read { start, count, .. } => is_within(*start, *count, length),
        Call::Fill { start, count, .. } => is_within(*start, *count, length),
        Call::Data { .. } => false,
    }
}

fn is_within(start: u64, count: u64, length: u64) -> bool
    ensures { IsTrue result → (start < 2 ^ 40) × (0 < count) × (count ≤ 2048) × (start + count ≤ length) }
{
    start < 1 << 40 && 0 < count && count <= 2048 && start + count <= length
}
