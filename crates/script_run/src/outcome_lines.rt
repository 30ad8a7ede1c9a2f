// The commands of a script in order, with the lines of each outcome.

ghost use Rattle.std.specs.Prelude.{◌≡◌, ◌<◌, ◌≤◌};
ghost use Rattle.std.specs.Prelude.{false, [], length, All, OnOk, OnErr};
ghost use Rattle.gc_graph.specs.State.{empty_state};
ghost use Rattle.gc_graph.specs.Sections.{AreInSections, IsInSection};
ghost use Rattle.gc_graph.specs.Outcomes.{finalise_lines};
ghost use Rattle.gc_graph.specs.Lawful.{IsAllowed};
ghost use Rattle.gc_graph.specs.Report.{lines_bytes};
ghost use Rattle.text_devices.specs.Causes.{FailsByFault};
ghost use Rattle.text_devices.specs.Devices.{Writes};
ghost use Rattle.report_text.specs.Pieces.{with_held_back, TookMore};
ghost use Rattle.heap_engine.specs.Acted.{IsActed};
ghost use Rattle.script_run.specs.Printed.{IsPrintedRun, IsPartRun};

use gc_graph::{Command, Line};
use heap_engine::{Gate, Heap};
use heap_script::{Failed, Pieces, Sink};
use std::sync::Wait;
use std::thread::Threads;

/// Does the commands in order, and prints each outcome.
pub(crate) fn print_all<
    R: Threads + Wait + Copy + Send + 'static,
    K: Sink,
    G: Gate + Send + Sync + 'static,
>(
    rt: &R,
    heap: &mut Heap<'_, G>,
    commands: &[Command],
    pieces: &mut Pieces,
    sink: &mut K,
) -> Result<(), Failed>
    requires start { heap.old.core.state ≡ empty_state }
    requires fresh { heap.old.core.history ≡ [] }
    requires opened { heap.old.core.closed ≡ false }
    requires allowed { All (IsAllowed (length heap.old.core.setup.types)) commands.now }
    requires few { length commands.now ≤ 1000000 }
    requires sections { AreInSections false commands.now }
    ensures done { OnOk result (IsPrintedRun heap.old.core.setup commands.now
        (with_held_back (K.written sink.old) pieces.old)
        (with_held_back (K.written sink.new) pieces.new) heap.new.core) }
    ensures part { OnErr result (IsPartRun heap.old.core.setup commands.now
        (with_held_back (K.written sink.old) pieces.old)
        (with_held_back (K.written sink.new) pieces.new) heap.new.core) }
    ensures taken { TookMore (K.written sink.old) (K.written sink.new) }
    ensures setup { heap.new.core.setup ≡ heap.old.core.setup }
    ensures count { OnOk result (heap.new.core.state.ordinal ≡ length commands.now) }
    ensures cause { FailsByFault (K.faults sink.old) (K.faults sink.new) result }
{
    gc_graph::runs_are_replayed();
    gc_graph::steps_leave_threads();
    for command in commands {
        match print_outcome(rt, heap, command, pieces, sink) {
            Ok(()) => {}
            Err(failed) => return Err(failed),
        }
    }
    Ok(())
}

/// Does a command, and prints the lines of its outcome.
fn print_outcome<
    R: Threads + Wait + Copy + Send + 'static,
    K: Sink,
    G: Gate + Send + Sync + 'static,
>(
    rt: &R,
    heap: &mut Heap<'_, G>,
    command: &Command,
    pieces: &mut Pieces,
    sink: &mut K,
) -> Result<(), Failed>
    requires few { heap.old.core.state.ordinal < 1000000 }
    requires opened { heap.old.core.closed ≡ false }
    requires allowed { IsAllowed (length heap.old.core.setup.types) command.now }
    requires section { IsInSection heap.old.core.state.awaiting command.now }
    ensures acted { IsActed heap.old.core heap.new.core command.now (length heap.new.core.lines) }
    ensures bytes { Writes (with_held_back (K.written sink.old) pieces.old)
        (with_held_back (K.written sink.new) pieces.new) (lines_bytes heap.new.core.lines) result }
    ensures taken { TookMore (K.written sink.old) (K.written sink.new) }
    ensures cause { FailsByFault (K.faults sink.old) (K.faults sink.new) result }
{
    heap.nodes_are_few();
    let count = heap.act(rt, command);
    if let Some(line) = heap.only_line() {
        return pieces.print(line, sink);
    }
    print_lines(heap, count, pieces, sink)
}

/// Prints the lines of the last outcome, so many.
#[inline(never)]
fn print_lines<K: Sink, G: Gate + Send + Sync + 'static>(
    heap: &mut Heap<'_, G>,
    count: u64,
    pieces: &mut Pieces,
    sink: &mut K,
) -> Result<(), Failed>
    requires { count ≡ length heap.old.core.lines }
    ensures bytes { Writes (with_held_back (K.written sink.old) pieces.old)
        (with_held_back (K.written sink.new) pieces.new) (lines_bytes heap.old.core.lines) result }
    ensures taken { TookMore (K.written sink.old) (K.written sink.new) }
    ensures same { heap.new.core ≡ heap.old.core }
    ensures cause { FailsByFault (K.faults sink.old) (K.faults sink.new) result }
{
    let numbers = heap.finalised();
    let first = numbers.len() as u64;
    match print_finalised(numbers, pieces, sink) {
        Ok(()) => {}
        Err(failed) => return Err(failed),
    }
    for index in first..count {
        let line = heap.line(index);
        match pieces.print(&line, sink) {
            Ok(()) => {}
            Err(failed) => return Err(failed),
        }
    }
    Ok(())
}

/// Prints a line for each node that was finalised.
fn print_finalised<K: Sink>(
    numbers: &[u32],
    pieces: &mut Pieces,
    sink: &mut K,
) -> Result<(), Failed>
    ensures bytes { Writes (with_held_back (K.written sink.old) pieces.old)
        (with_held_back (K.written sink.new) pieces.new)
        (lines_bytes (finalise_lines numbers.now)) result }
    ensures taken { TookMore (K.written sink.old) (K.written sink.new) }
    ensures cause { FailsByFault (K.faults sink.old) (K.faults sink.new) result }
{
    for number in numbers {
        match pieces.print(&Line::Finalise { k: *number }, sink) {
            Ok(()) => {}
            Err(failed) => return Err(failed),
        }
    }
    Ok(())
}
