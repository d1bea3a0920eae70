ghost use Rattle.std.specs.Prelude.{◌≡◌, ◌≢◌, ◌⊎◌, ◌↔◌, ◌+◌, ◌<◌, ◌≤◌, ℕ, List, true, false, Ok, Err, map, length, codes};
ghost use Rattle.vx_base.specs.Counts.{Rose};
ghost use Rattle.vx_picker.specs.Picks.{PicksMember};
ghost use Rattle.vx_script.specs.Script.{Place, script_of};
ghost use Rattle.vx_house.specs.Closing.{NoneHeld};
ghost use Rattle.vx_house.specs.Scene.{shelved};
ghost use Rattle.vx_script.specs.declared.command.Command.{Command};
ghost use Rattle.vx_run.specs.Soundly.{StaysSound};
ghost use Rattle.vx_run.specs.Top.{is_form, longest, HasPassedMore, HasPassedFew, TellsLine, TellsPlace, TellsFault, IsSpelledRun, IsSpelledStop, IsCarriedThrough, IsCutOff, LeavesSound};

use crate::place::line_of_place;
use crate::source::{Unread, read_all};
use crate::words::folder_of;
use crate::{ServeFault, run_commands};
use std::alloc::Global;
use vx_flow::{Sink, Source};
use vx_picker::Picker;
use vx_power::PowerShelf;
use vx_script::{ScriptFault, read};

/// Runs the script of the source on the shelf, and writes the line of each answer to the sink. It answers the status:
/// 0 all answers are fine, 1 the words are not `--images DIR`, 2 the bytes are no script, 3 the source failed, 4 the
/// sink failed, 5 some answer is not fine, 6 memory was wanting, 7 the script has more than 16,777,216 bytes. A read of a
/// volume with policy `select` asks the function of `select` which of the plexes that may serve it does.
pub fn run<S: PowerShelf, A: Source, B: Sink, F: Fn(u64, u64) -> u32>(
    alloc: Global,
    words: &[&str],
    shelf: &mut S,
    source: &mut A,
    sink: &mut B,
    select: &Picker<F>,
) -> u8
    requires picks { PicksMember (F.pre select.now.select) (F.post select.now.select) }
    requires here { NoneHeld (S.held shelf.old) }

    // At 0 and 5, over a shelf, a source and a sink that tell what they hold: the source was read to its end, its bytes
    // spell commands, there is one transcript of these from the world that is read from the devices, its text was
    // written, the devices stand for its last world, and each fault or loss that it tells has its cause. At 0 all its
    // answers are fine, and at 5 they are not.
    ensures fine { result ≡ 0 → IsCarriedThrough (A.left source.old) (A.left source.new)
        (shelved S.free S.held S.counted S.faults shelf.old) (B.taken sink.old)
        (shelved S.free S.held S.counted S.faults shelf.new) (B.taken sink.new) true }
    ensures not_fine { result ≡ 5 → IsCarriedThrough (A.left source.old) (A.left source.new)
        (shelved S.free S.held S.counted S.faults shelf.old) (B.taken sink.old)
        (shelved S.free S.held S.counted S.faults shelf.new) (B.taken sink.new) false }

    // At 4 the same holds of the commands that were begun, and a front of their text was written; so it does at 6, or
    // nothing was begun. Both where all devices were given back.
    ensures sink_failed { result ≡ 4 → NoneHeld (S.held shelf.new) → IsCutOff (A.left source.old) (A.left source.new)
        (shelved S.free S.held S.counted S.faults shelf.old) (B.taken sink.old)
        (shelved S.free S.held S.counted S.faults shelf.new) (B.taken sink.new) }
    ensures no_memory { result ≡ 6 → NoneHeld (S.held shelf.new) → ((shelf.new ≡ shelf.old) × (sink.new ≡ sink.old)) ⊎ IsCutOff (A.left source.old) (A.left source.new)
        (shelved S.free S.held S.counted S.faults shelf.old) (B.taken sink.old)
        (shelved S.free S.held S.counted S.faults shelf.new) (B.taken sink.new) }

    // At every status, where all devices were given back: where the configuration copies of all groups were sound, so that no import takes an older one for
    // the newest, and no command puts a header at the front of a volume, they are sound at the end.
    ensures sound { NoneHeld (S.held shelf.new) → LeavesSound (A.left source.old) (shelved S.free S.held S.counted S.faults shelf.old) (shelved S.free S.held S.counted S.faults shelf.new) }

    // At 1 and 2 the line of the status was written, at 2 with the place where the bytes are no script, and at 3 and 7
    // nothing; no device was touched.
    ensures usage { result ≡ 1 → TellsLine (codes "usage: vxrun --images DIR [--generate N]\n") (B.taken sink.old) (B.taken sink.new) (B.faults sink.old) (B.faults sink.new) × (source.new ≡ source.old) }
    ensures script { result ≡ 2 → TellsFault (A.left source.old) (A.left source.new) (B.taken sink.old) (B.taken sink.new) (B.faults sink.old) (B.faults sink.new) }
    ensures silent { (result ≡ 3) ⊎ (result ≡ 7) → sink.new ≡ sink.old }
    ensures untouched { (result ≡ 1) ⊎ ((result ≡ 2) ⊎ ((result ≡ 3) ⊎ (result ≡ 7))) → shelf.new ≡ shelf.old }

    // Each status has its cause.
    ensures known { result ≤ 7 }
    ensures words { (result ≡ 1) ↔ (is_form (map (λ w. w.now) words.now) ≡ false) }
    ensures source { result ≡ 3 → Rose (A.faults source.old) (A.faults source.new) }
    ensures source_fine { result ≢ 3 → A.faults source.new ≡ A.faults source.old }
    ensures sink { result ≡ 4 → Rose (B.faults sink.old) (B.faults sink.new) }
    ensures sink_fine { (result ≡ 0) ⊎ ((result ≡ 5) ⊎ (result ≡ 6)) → B.faults sink.new ≡ B.faults sink.old }
    ensures too_long { result ≡ 7 → HasPassedMore (A.passed source.old) (A.passed source.new) }
    ensures not_too_long { result ≢ 7 → HasPassedFew (A.passed source.old) (A.passed source.new) }
    ensures one_past { A.passed source.new ≤ A.passed source.old + (longest + 1) }

    // All devices are given back; at 4 and 6 those of a group may still be held, where there was no memory to join their
    // parts.
    ensures back { (result ≡ 4 → ⊥) → (result ≡ 6 → ⊥) → NoneHeld (S.held shelf.new) }
{
    if folder_of(words).is_none() {
        tell(sink, b"usage: vxrun --images DIR [--generate N]\n");
        return 1;
    }
    match read_all(alloc, source) {
        Ok(bytes) => run_bytes(alloc, shelf, sink, bytes.as_slice(), select),
        Err(Unread::Failed) => 3,
        Err(Unread::TooLong) => 7,
        Err(Unread::OutOfMemory) => 6,
    }
}

/// Writes the line of a status. Where the sink fails, a front of it is written.
fn tell<B: Sink>(sink: &mut B, line: &[u8])
    ensures { TellsLine line.now (B.taken sink.old) (B.taken sink.new) (B.faults sink.old) (B.faults sink.new) }
{
    let _ = sink.write(line);
}

/// Runs the script that the bytes spell.
fn run_bytes<S: PowerShelf, B: Sink, F: Fn(u64, u64) -> u32>(
    alloc: Global,
    shelf: &mut S,
    sink: &mut B,
    bytes: &[u8],
    select: &Picker<F>,
) -> u8
    requires picks { PicksMember (F.pre select.now.select) (F.post select.now.select) }
    requires here { NoneHeld (S.held shelf.old) }
    ensures fine { result ≡ 0 → IsSpelledRun bytes.now
        (shelved S.free S.held S.counted S.faults shelf.old) (B.taken sink.old)
        (shelved S.free S.held S.counted S.faults shelf.new) (B.taken sink.new) true }
    ensures not_fine { result ≡ 5 → IsSpelledRun bytes.now
        (shelved S.free S.held S.counted S.faults shelf.old) (B.taken sink.old)
        (shelved S.free S.held S.counted S.faults shelf.new) (B.taken sink.new) false }
    ensures sink_failed { result ≡ 4 → NoneHeld (S.held shelf.new) → IsSpelledStop bytes.now
        (shelved S.free S.held S.counted S.faults shelf.old) (B.taken sink.old)
        (shelved S.free S.held S.counted S.faults shelf.new) (B.taken sink.new) }
    ensures no_memory { result ≡ 6 → NoneHeld (S.held shelf.new) → ((shelf.new ≡ shelf.old) × (sink.new ≡ sink.old)) ⊎ IsSpelledStop bytes.now
        (shelved S.free S.held S.counted S.faults shelf.old) (B.taken sink.old)
        (shelved S.free S.held S.counted S.faults shelf.new) (B.taken sink.new) }
    ensures sound { NoneHeld (S.held shelf.new) → (commands : List Command) → script_of bytes.now ≡ Ok commands → StaysSound commands (shelved S.free S.held S.counted S.faults shelf.old) (shelved S.free S.held S.counted S.faults shelf.new) }
    ensures script { result ≡ 2 → (place : Place) × TellsPlace place (B.taken sink.old) (B.taken sink.new) (B.faults sink.old) (B.faults sink.new) × (script_of bytes.now ≡ Err place) × (shelf.new ≡ shelf.old) }
    ensures known { (result ≡ 0) ⊎ ((result ≡ 2) ⊎ ((result ≡ 4) ⊎ ((result ≡ 5) ⊎ (result ≡ 6)))) }
    ensures sink { result ≡ 4 → Rose (B.faults sink.old) (B.faults sink.new) }
    ensures sink_fine { (result ≡ 0) ⊎ ((result ≡ 5) ⊎ (result ≡ 6)) → B.faults sink.new ≡ B.faults sink.old }
    ensures back { (result ≡ 4 → ⊥) → (result ≡ 6 → ⊥) → NoneHeld (S.held shelf.new) }
{
    match read(alloc, bytes) {
        Err(ScriptFault::OutOfMemory) => 6,
        Err(ScriptFault::Script(line, column)) => tell_place(alloc, sink, line, column),
        Ok(script) => match run_commands(alloc, shelf, sink, script.commands.as_slice(), select) {
            Ok(true) => 0,
            Ok(false) => 5,
            Err(ServeFault::OutOfMemory | ServeFault::HeldUp) => 6,
            Err(ServeFault::SinkFailed) => 4,
        },
    }
}

/// Writes the line of a place, and answers the status.
fn tell_place<B: Sink>(alloc: Global, sink: &mut B, line: u64, column: u64) -> u8
    ensures told { result ≡ 2 → TellsPlace (record { line = line; column = column }) (B.taken sink.old) (B.taken sink.new) (B.faults sink.old) (B.faults sink.new) }
    ensures refused { result ≡ 6 → sink.new ≡ sink.old }
    ensures known { (result ≡ 2) ⊎ (result ≡ 6) }
{
    match line_of_place(alloc, line, column) {
        Ok(text) => {
            tell(sink, text.as_slice());
            2
        }
        Err(_) => 6,
    }
}
