//! What a call says of its range.
ghost use Rattle.std.specs.Prelude.{◌≡◌, ◌+◌};
ghost use Rattle.vx_stages.specs.Calls.{count_of, start_of, volume_of};
ghost use Rattle.vx_group_calls.specs.Serving.{IsWithinLimits};

use vx_names::Name;
use vx_script_forms::Call;

pub(crate) fn volume_of(call: &Call) -> Name
    ensures { result ≡ volume_of call.now }
{
    match call {
        Call::Read { vol, .. } | Call::Fill { vol, .. } | Call::Data { vol, .. } => *vol,
    }
}

pub(crate) fn end_of(call: &Call) -> u64
    requires { IsWithinLimits call.now }
    ensures { result ≡ start_of call.now + count_of call.now }
{
    match call {
        Call::Read { start, count, .. } | Call::Fill { start, count, .. } => *start + *count,
        Call::Data { start, blocks, .. } => *start + blocks.count() as u64,
    }
}
