// One run of the program: from the bytes of a script to its report.

ghost use Rattle.std.specs.Prelude.{◌≡◌, ◌⊎◌, ℕ};
ghost use Rattle.std.specs.Prelude.{◌≤◌, [], length, map, string_bytes, None, MatchOption};
ghost use Rattle.std.specs.Prelude.{option_map, Some, true, false};
ghost use Rattle.callback_table.specs.Table.{callback_kinds};
ghost use Rattle.text_devices.specs.Causes.{Rose};
ghost use Rattle.text_devices.specs.Devices.{Grew};
ghost use Rattle.command_line.specs.Options.{options_asked, AreInRanges};
ghost use Rattle.script_generator.specs.Generated as made;
ghost use Rattle.script_run.specs.Setting.{plan_asked};
ghost use Rattle.script_run.specs.Headline.{RunsScript, RunsBytes, IsUntouched};
ghost use Rattle.script_run.specs.Headline.{status_of_fault, status_of_words};
ghost use Rattle.script_run.specs.Headline.{AskForScript, IsDone, IsStopped, IsTooLongInput, IsFaultyInput};
ghost use Rattle.script_run.specs.Headline.{reads_input, tells_of_input};

use super::own_heap::run_script;
use super::status::Status;
use callback_table::CallbackTable;
use command_line::{Generated, Options, OptionsFault, options_of};
use heap_engine::{Gate, Heap};
use heap_script::{
    NoMemory, ReadError, Script, ScriptFault, Sink, Source, read_script, read_whole,
};
use script_generator::generate;
use std::alloc::Global;
use std::sync::{Arc, Wait};
use std::thread::Threads;

const MOST_BYTES: usize = 16_777_216;

// `ScriptFault` tells the one where memory is wanting, and the other where the input is too long.
const NO_MEMORY: u32 = 0;

const NO_LINE: u32 = 0;

/// Reads a script or generates one, runs it on one heap, and writes its report or its summary. The
/// heap's markers run beside it, and pass the gate as it does. When memory is wanting is free.
pub fn run<
    'a,
    R: Threads + Wait + Copy + Send + 'static,
    S: Source,
    K: Sink,
    G: Gate + Send + Sync + 'static,
>(
    rt: &R,
    alloc: Global,
    words: &[String],
    source: &mut S,
    sink: &mut K,
    callbacks: &'a CallbackTable,
    gate: &Arc<G>,
    kept: &mut Option<Heap<'a, G>>,
) -> Status
    requires { kept.old ≡ None }
    ensures done { result ≡ Status.Done → MatchOption kept.new ⊥ (λ heap. IsDone
        (callback_kinds callbacks.now) (map string_bytes words.now) (S.left source.old)
        (S.left source.new) (K.written sink.old) (K.written sink.new) heap.core) }
    ensures stopped { result ≡ Status.WriteFault → IsStopped (callback_kinds callbacks.now)
        (map string_bytes words.now) (S.left source.old) (S.left source.new)
        (K.written sink.old) (K.written sink.new) }
    ensures too_long { result ≡ Status.TooLong →
        IsTooLongInput (S.left source.old) (S.left source.new) }
    ensures script { (line reason : ℕ) → result ≡ Status.Script line reason →
        IsFaultyInput (length (callback_kinds callbacks.now))
        (S.left source.old) (S.left source.new) line reason }
    ensures usage { result ≡ Status.Usage → options_asked (map string_bytes words.now) ≡ None }
    ensures refused { options_asked (map string_bytes words.now) ≡ None →
        (result ≡ Status.Usage) ⊎ (result ≡ Status.NoMemory) }
    ensures input { tells_of_input result ≡ true →
        reads_input (map string_bytes words.now) ≡ true }
    ensures source_untouched { reads_input (map string_bytes words.now) ≡ false → IsUntouched
        (S.left source.old) (S.left source.new) (S.faults source.old) (S.faults source.new) }
    ensures sink_untouched { result ≡ Status.Usage → IsUntouched
        (K.written sink.old) (K.written sink.new) (K.faults sink.old) (K.faults sink.new) }
    ensures read_fault { result ≡ Status.ReadFault →
        Rose (S.faults source.old) (S.faults source.new) }
    ensures write_fault { result ≡ Status.WriteFault →
        Rose (K.faults sink.old) (K.faults sink.new) }
    ensures source_faults { S.faults source.old ≤ S.faults source.new }
    ensures sink_faults { K.faults sink.old ≤ K.faults sink.new }
    ensures no_read_failed { ¬ (result ≡ Status.ReadFault) →
        S.faults source.new ≡ S.faults source.old }
    ensures no_write_failed { ¬ (result ≡ Status.WriteFault) →
        K.faults sink.new ≡ K.faults sink.old }
    ensures silent { ¬ (result ≡ Status.Done) → ¬ (result ≡ Status.WriteFault) →
        Grew (K.written sink.old) (K.written sink.new) [] }
    ensures kept { ¬ (result ≡ Status.Done) → kept.new ≡ None }
    ensures complete { AskForScript (length (callback_kinds callbacks.now))
        (map string_bytes words.now)
        (S.left source.old) → ¬ Rose (S.faults source.old) (S.faults source.new) →
        ¬ Rose (K.faults sink.old) (K.faults sink.new) →
        (result ≡ Status.Done) ⊎ (result ≡ Status.NoMemory) }
{
    gc_graph::texts_are_judged();
    let options = match options_of(alloc, words) {
        Ok(options) => options,
        Err(fault) => return status_without_options(fault),
    };
    if let Some(asked) = options.generated {
        return run_generated(rt, alloc, options, asked, sink, callbacks, gate, kept);
    }
    match read_whole(alloc, source, MOST_BYTES) {
        Ok(bytes) => run_bytes(rt, alloc, options, &bytes, sink, callbacks, gate, kept),
        Err(ReadError::Fault) => Status::ReadFault,
        Err(ReadError::Memory) => Status::NoMemory,
    }
}

/// Runs the script that the bytes are, with these options.
pub(crate) fn run_bytes<
    'a,
    R: Threads + Wait + Copy + Send + 'static,
    K: Sink,
    G: Gate + Send + Sync + 'static,
>(
    rt: &R,
    alloc: Global,
    options: Options,
    bytes: &[u8],
    sink: &mut K,
    callbacks: &'a CallbackTable,
    gate: &Arc<G>,
    kept: &mut Option<Heap<'a, G>>,
) -> Status
    requires empty { kept.old ≡ None }
    requires ranges { AreInRanges options }
    ensures answer { RunsBytes (callback_kinds callbacks.now) options bytes.now
        (K.written sink.old) (K.written sink.new) (option_map (λ heap. heap.core) kept.new) result }
    ensures fault { result ≡ Status.WriteFault → Rose (K.faults sink.old) (K.faults sink.new) }
    ensures later { K.faults sink.old ≤ K.faults sink.new }
    ensures steady { ¬ (result ≡ Status.WriteFault) → K.faults sink.new ≡ K.faults sink.old }
{
    gc_graph::scripts_are_in_ranges();
    match read_script(alloc, bytes, callbacks.len()) {
        Ok(script) => run_script(rt, alloc, options, script, sink, callbacks, gate, kept),
        Err(fault) => status_of(fault),
    }
}

/// Runs the script that is generated from a seed, with these options.
fn run_generated<
    'a,
    R: Threads + Wait + Copy + Send + 'static,
    K: Sink,
    G: Gate + Send + Sync + 'static,
>(
    rt: &R,
    alloc: Global,
    options: Options,
    asked: Generated,
    sink: &mut K,
    callbacks: &'a CallbackTable,
    gate: &Arc<G>,
    kept: &mut Option<Heap<'a, G>>,
) -> Status
    requires empty { kept.old ≡ None }
    requires ranges { AreInRanges options }
    requires some { 1 ≤ asked.count }
    requires few { asked.count ≤ 50000 }
    ensures answer { RunsScript (callback_kinds callbacks.now) options.summary (plan_asked options)
        (made.generated asked.seed asked.count)
        (K.written sink.old) (K.written sink.new) (option_map (λ heap. heap.core) kept.new) result }
    ensures fault { result ≡ Status.WriteFault → Rose (K.faults sink.old) (K.faults sink.new) }
    ensures later { K.faults sink.old ≤ K.faults sink.new }
    ensures steady { ¬ (result ≡ Status.WriteFault) → K.faults sink.new ≡ K.faults sink.old }
{
    script_generator::generated_is_in_ranges();
    match generate(alloc, asked.seed, asked.count) {
        Ok(script) => run_script(rt, alloc, options, script, sink, callbacks, gate, kept),
        Err(_) => Status::NoMemory,
    }
}

fn status_without_options(fault: OptionsFault) -> Status
    ensures { result ≡ status_of_words fault }
{
    match fault {
        OptionsFault::Usage => Status::Usage,
        OptionsFault::NoMemory => Status::NoMemory,
    }
}

fn status_of(fault: ScriptFault) -> Status
    ensures { result ≡ status_of_fault fault }
{
    if fault.reason == NO_MEMORY {
        return Status::NoMemory;
    }
    if fault.line == NO_LINE {
        return Status::TooLong;
    }
    Status::Script {
        line: fault.line,
        reason: fault.reason,
    }
}
