// What is printed of a script: its report, while its commands are done, or its summary after them.

ghost use Rattle.std.specs.Prelude.{◌≡◌, ◌≤◌, true};
ghost use Rattle.std.specs.Prelude.{false, [], length, All, OnOk};
ghost use Rattle.gc_graph.specs.State.{empty_state};
ghost use Rattle.gc_graph.specs.Sections.{AreInSections};
ghost use Rattle.gc_graph.specs.Lawful.{IsAllowed};
ghost use Rattle.gc_graph.specs.Report.{line_bytes, lines_bytes};
ghost use Rattle.text_devices.specs.Causes.{FailsByFault};
ghost use Rattle.text_devices.specs.Devices.{Writes};
ghost use Rattle.report_text.specs.Pieces.{no_pieces, with_held_back, TookMore};
ghost use Rattle.script_run.specs.Setting.{IsRunnable, plan_of, script_on};
ghost use Rattle.script_run.specs.Printed.{HasRunAll, counted_lines};
ghost use Rattle.script_run.specs.Headline.{IsTold};

use super::outcome_lines::print_all;
use gc_graph::{Command, Line};
use heap_engine::{Gate, Heap};
use heap_script::{Failed, Pieces, Sink};
use std::sync::Wait;
use std::thread::Threads;

/// Does the commands of a script on a new heap, which has so many types, and prints the report or the
/// summary. The heap is closed then, also after a failed write, so that no marker and no thread goes
/// on.
pub(crate) fn print_run<
    R: Threads + Wait + Copy + Send + 'static,
    K: Sink,
    G: Gate + Send + Sync + 'static,
>(
    rt: &R,
    heap: &mut Heap<'_, G>,
    summary: bool,
    types: u32,
    commands: &[Command],
    pieces: &mut Pieces,
    sink: &mut K,
) -> Result<(), Failed>
    requires runnable { IsRunnable (length heap.old.core.setup.callbacks)
        (script_on heap.old.core.setup commands.now) }
    requires types { types ≡ length heap.old.core.setup.types }
    requires start { heap.old.core.state ≡ empty_state }
    requires fresh { heap.old.core.history ≡ [] }
    requires opened { heap.old.core.closed ≡ false }
    requires empty { pieces.old ≡ no_pieces }
    ensures told { IsTold summary heap.old.core.setup.callbacks (plan_of heap.old.core.setup)
        (script_on heap.old.core.setup commands.now)
        (K.written sink.old) (K.written sink.new) heap.new.core result }
    ensures closed { heap.new.core.closed ≡ true }
    ensures joined { heap.new.core.lent ≡ 0 }
    ensures cause { FailsByFault (K.faults sink.old) (K.faults sink.new) result }
{
    if summary {
        return print_summary(rt, heap, commands, pieces, sink);
    }
    print_report(rt, heap, types, commands, pieces, sink)
}

/// Does the commands and prints the report: the types, each outcome as it comes, and the end line. The
/// heap is closed before the end line, and where a write fails before it.
fn print_report<
    R: Threads + Wait + Copy + Send + 'static,
    K: Sink,
    G: Gate + Send + Sync + 'static,
>(
    rt: &R,
    heap: &mut Heap<'_, G>,
    types: u32,
    commands: &[Command],
    pieces: &mut Pieces,
    sink: &mut K,
) -> Result<(), Failed>
    requires runnable { IsRunnable (length heap.old.core.setup.callbacks)
        (script_on heap.old.core.setup commands.now) }
    requires types { types ≡ length heap.old.core.setup.types }
    requires start { heap.old.core.state ≡ empty_state }
    requires fresh { heap.old.core.history ≡ [] }
    requires opened { heap.old.core.closed ≡ false }
    requires empty { pieces.old ≡ no_pieces }
    ensures told { IsTold false heap.old.core.setup.callbacks (plan_of heap.old.core.setup)
        (script_on heap.old.core.setup commands.now)
        (K.written sink.old) (K.written sink.new) heap.new.core result }
    ensures closed { heap.new.core.closed ≡ true }
    ensures joined { heap.new.core.lent ≡ 0 }
    ensures cause { FailsByFault (K.faults sink.old) (K.faults sink.new) result }
{
    match print_types(types, pieces, sink) {
        Ok(()) => {}
        Err(failed) => {
            let _end = heap.close(rt);
            return Err(failed);
        }
    }
    match print_all(rt, heap, commands, pieces, sink) {
        Ok(()) => {}
        Err(failed) => {
            let _end = heap.close(rt);
            return Err(failed);
        }
    }
    let end = heap.close(rt);
    print_end(&end, pieces, sink)
}

/// Does the commands, and prints the one line that counts what came of them.
fn print_summary<
    R: Threads + Wait + Copy + Send + 'static,
    K: Sink,
    G: Gate + Send + Sync + 'static,
>(
    rt: &R,
    heap: &mut Heap<'_, G>,
    commands: &[Command],
    pieces: &mut Pieces,
    sink: &mut K,
) -> Result<(), Failed>
    requires runnable { IsRunnable (length heap.old.core.setup.callbacks)
        (script_on heap.old.core.setup commands.now) }
    requires start { heap.old.core.state ≡ empty_state }
    requires fresh { heap.old.core.history ≡ [] }
    requires opened { heap.old.core.closed ≡ false }
    requires empty { pieces.old ≡ no_pieces }
    ensures told { IsTold true heap.old.core.setup.callbacks (plan_of heap.old.core.setup)
        (script_on heap.old.core.setup commands.now)
        (K.written sink.old) (K.written sink.new) heap.new.core result }
    ensures closed { heap.new.core.closed ≡ true }
    ensures joined { heap.new.core.lent ≡ 0 }
    ensures cause { FailsByFault (K.faults sink.old) (K.faults sink.new) result }
{
    do_all(rt, heap, commands);
    let line = heap.summary();
    let _end = heap.close(rt);
    print_end(&line, pieces, sink)
}

/// Does the commands in order.
fn do_all<R: Threads + Wait + Copy + Send + 'static, G: Gate + Send + Sync + 'static>(
    rt: &R,
    heap: &mut Heap<'_, G>,
    commands: &[Command],
)
    requires start { heap.old.core.state ≡ empty_state }
    requires fresh { heap.old.core.history ≡ [] }
    requires opened { heap.old.core.closed ≡ false }
    requires allowed { All (IsAllowed (length heap.old.core.setup.types)) commands.now }
    requires few { length commands.now ≤ 1000000 }
    requires sections { AreInSections false commands.now }
    ensures done { HasRunAll heap.old.core.setup commands.now heap.new.core }
    ensures setup { heap.new.core.setup ≡ heap.old.core.setup }
    ensures count { heap.new.core.state.ordinal ≡ length commands.now }
{
    gc_graph::runs_are_replayed();
    gc_graph::steps_leave_threads();
    for command in commands {
        heap.nodes_are_few();
        let _lines = heap.act(rt, command);
    }
}

/// Prints the last line, and hands down all that is held.
fn print_end<K: Sink>(line: &Line, pieces: &mut Pieces, sink: &mut K) -> Result<(), Failed>
    ensures bytes { Writes (with_held_back (K.written sink.old) pieces.old)
        (with_held_back (K.written sink.new) pieces.new) (line_bytes line.now) result }
    ensures empty { OnOk result (pieces.new ≡ no_pieces) }
    ensures taken { TookMore (K.written sink.old) (K.written sink.new) }
    ensures cause { FailsByFault (K.faults sink.old) (K.faults sink.new) result }
{
    match pieces.print(line, sink) {
        Ok(()) => pieces.hand_down(sink),
        Err(failed) => Err(failed),
    }
}

/// Prints a line for each of so many types.
fn print_types<K: Sink>(count: u32, pieces: &mut Pieces, sink: &mut K) -> Result<(), Failed>
    ensures bytes { Writes (with_held_back (K.written sink.old) pieces.old)
        (with_held_back (K.written sink.new) pieces.new)
        (lines_bytes (counted_lines count)) result }
    ensures taken { TookMore (K.written sink.old) (K.written sink.new) }
    ensures cause { FailsByFault (K.faults sink.old) (K.faults sink.new) result }
{
    for t in 0..count {
        match pieces.print(&Line::TypeLine { t }, sink) {
            Ok(()) => {}
            Err(failed) => return Err(failed),
        }
    }
    Ok(())
}
