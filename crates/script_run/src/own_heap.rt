// A script on a heap of its own.

ghost use Rattle.std.specs.Prelude.{◌≡◌};
ghost use Rattle.std.specs.Prelude.{◌≤◌, [], length, None, IfOk};
ghost use Rattle.std.specs.Prelude.{option_map, Some, false};
ghost use Rattle.callback_table.specs.Table.{callback_kinds};
ghost use Rattle.text_devices.specs.Causes.{Rose};
ghost use Rattle.gc_graph.specs.Shapes.{IsShape};
ghost use Rattle.type_table.specs.Faults.{AreGoodTypes};
ghost use Rattle.command_line.specs.Options.{shape_asked};
ghost use Rattle.gc_graph.specs.State.{empty_state};
ghost use Rattle.report_text.specs.Pieces.{no_pieces};
ghost use Rattle.script_run.specs.Setting.{IsRunnable, plan_asked, plan_of, script_on};
ghost use Rattle.script_run.specs.Headline.{RunsScript};

use super::report::print_run;
use super::status::Status;
use callback_table::CallbackTable;
use command_line::Options;
use gc_graph::Command;
use heap_engine::{Config, Gate, Heap};
use heap_script::{NoMemory, Pieces, Script, Sink};
use std::alloc::Global;
use std::sync::{Arc, Wait};
use std::thread::Threads;
use type_table::{TypeDecl, TypeFault, TypeTable};

/// Runs a script on a heap of its own.
pub(crate) fn run_script<
    'a,
    R: Threads + Wait + Copy + Send + 'static,
    K: Sink,
    G: Gate + Send + Sync + 'static,
>(
    rt: &R,
    alloc: Global,
    options: Options,
    script: Script,
    sink: &mut K,
    callbacks: &'a CallbackTable,
    gate: &Arc<G>,
    kept: &mut Option<Heap<'a, G>>,
) -> Status
    requires empty { kept.old ≡ None }
    requires shape { IsShape (shape_asked options) }
    requires few { options.markers ≤ 8 }
    requires runnable { IsRunnable (length (callback_kinds callbacks.now)) script }
    ensures answer { RunsScript (callback_kinds callbacks.now) options.summary (plan_asked options)
        script (K.written sink.old) (K.written sink.new)
        (option_map (λ heap. heap.core) kept.new) result }
    ensures fault { result ≡ Status.WriteFault → Rose (K.faults sink.old) (K.faults sink.new) }
    ensures later { K.faults sink.old ≤ K.faults sink.new }
    ensures steady { ¬ (result ≡ Status.WriteFault) → K.faults sink.new ≡ K.faults sink.old }
{
    let mut pieces = match Pieces::new(alloc) {
        Ok(pieces) => pieces,
        Err(_) => return Status::NoMemory,
    };
    let count = script.types().len() as u32;
    let (types, commands) = script.into_parts();
    let table = match table_of(alloc, types, callbacks.len()) {
        Ok(table) => table,
        Err(_) => return Status::NoMemory,
    };
    let config = Config {
        pages: options.pages,
        page_words: options.page_words,
        markers: options.markers,
    };
    match Heap::new(alloc, config, table, callbacks, gate) {
        Ok(heap) => run_commands(
            rt,
            heap,
            options.summary,
            count,
            &commands,
            &mut pieces,
            sink,
            kept,
        ),
        Err(_) => Status::NoMemory,
    }
}

/// Runs commands on a new heap, which has so many types, and keeps it once all is printed. After a
/// failed write it is let go: its markers and threads were joined by then.
fn run_commands<
    'a,
    R: Threads + Wait + Copy + Send + 'static,
    K: Sink,
    G: Gate + Send + Sync + 'static,
>(
    rt: &R,
    mut heap: Heap<'a, G>,
    summary: bool,
    types: u32,
    commands: &[Command],
    pieces: &mut Pieces,
    sink: &mut K,
    kept: &mut Option<Heap<'a, G>>,
) -> Status
    requires vacant { kept.old ≡ None }
    requires runnable { IsRunnable (length heap.core.setup.callbacks)
        (script_on heap.core.setup commands.now) }
    requires types { types ≡ length heap.core.setup.types }
    requires start { heap.core.state ≡ empty_state }
    requires fresh { heap.core.history ≡ [] }
    requires opened { heap.core.closed ≡ false }
    requires empty { pieces.old ≡ no_pieces }
    ensures answer { RunsScript heap.entry.core.setup.callbacks summary
        (plan_of heap.entry.core.setup) (script_on heap.entry.core.setup commands.now)
        (K.written sink.old) (K.written sink.new) (option_map (λ heap. heap.core) kept.new) result }
    ensures begun { ¬ (result ≡ Status.NoMemory) }
    ensures fault { result ≡ Status.WriteFault → Rose (K.faults sink.old) (K.faults sink.new) }
    ensures later { K.faults sink.old ≤ K.faults sink.new }
    ensures steady { ¬ (result ≡ Status.WriteFault) → K.faults sink.new ≡ K.faults sink.old }
{
    match print_run(rt, &mut heap, summary, types, commands, pieces, sink) {
        Ok(()) => {
            keep(heap, kept);
            Status::Done
        }
        Err(_) => Status::WriteFault,
    }
}

/// Keeps a heap.
fn keep<'a, G: Gate + Send + Sync + 'static>(heap: Heap<'a, G>, kept: &mut Option<Heap<'a, G>>)
    requires { kept.old ≡ None }
    ensures { option_map (λ heap. heap.core) kept.new ≡ Some heap.entry.core }
{
    *kept = Some(heap);
}

/// The types that a script declares make a table, where memory suffices.
fn table_of(alloc: Global, types: Vec<TypeDecl>, callbacks: u32) -> Result<TypeTable, NoMemory>
    requires { AreGoodTypes callbacks types.items }
    ensures { IfOk result (λ table. table ≡ types.items) }
{
    match TypeTable::new(alloc, types, callbacks) {
        Ok(table) => Ok(table),
        Err(TypeFault::NoMemory) => Err(NoMemory),
        Err(TypeFault::TooManyTypes { .. }) => unreachable!(),
        Err(TypeFault::TooManyFields { .. }) => unreachable!(),
        Err(TypeFault::NoCallback { .. }) => unreachable!(),
        Err(TypeFault::TooManyWords { .. }) => unreachable!(),
    }
}
