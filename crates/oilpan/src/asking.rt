// A command, and the answer that its last line tells.

ghost use Rattle.std.specs.Prelude.{◌≡◌, ◌<◌, ◌⊎◌, false, true, length, None};
ghost use Rattle.gc_graph.specs.Lawful.{IsAllowed};
ghost use Rattle.gc_graph.specs.Commands.{SpeaksOf};
ghost use Rattle.heap_engine.specs.Acted.{HasNumber};
ghost use Rattle.oilpan.specs.Handles.{HasRoom};
ghost use Rattle.oilpan.specs.Asked.{IsAsked, is_of_face, is_write};
ghost use Rattle.oilpan.specs.Asked.{line_of_word, line_of_write, why_of};
ghost use Rattle.gc_graph.specs.declared.command.Command.TheVariants as C;
ghost use Rattle.gc_graph.specs.declared.line.Line.TheVariants as L;
ghost use Rattle.gc_graph.specs.declared.line.Refusal.TheVariants as R;
ghost use Rattle.gc_graph.specs.Outcomes.{slot_at};

use crate::errors::FieldError;
use gc_graph::{
    Command, Line, Refusal, calls_change_their_slot, last_lines_mean, step_keeps_valid,
    steps_follow_the_history, steps_leave_the_rest, steps_leave_threads,
    steps_stay_in_their_family, weak_slots_tell_lives,
};
use heap_engine::{Gate, Heap};
use std::sync::Wait;
use std::thread::Threads;

/// Does a command, and tells its last line.
#[inline(always)]
pub(crate) fn ask<R: Threads + Wait + Copy + Send + 'static, G: Gate + Send + Sync + 'static>(
    heap: &mut Heap<'_, G>,
    rt: &R,
    command: &Command,
) -> Line
    requires room { HasRoom heap.old.core.state 1 }
    requires numbered { HasNumber heap.old.core.state.nodes command.now }
    requires pages { 0 < heap.old.core.setup.shape.pages }
    requires opened { heap.old.core.closed ≡ false }
    requires allowed { IsAllowed (length heap.old.core.setup.types) command.now }
    requires face { is_of_face command.now ≡ true }
    ensures asked { IsAsked heap.old.core.setup heap.old.core.state heap.new.core.state
        command.now heap.new.core.piece heap.new.core.lines result }
    ensures setup { heap.new.core.setup ≡ heap.old.core.setup }
    ensures opened { heap.new.core.closed ≡ false }
{
    steps_leave_the_rest();
    last_lines_mean();
    step_keeps_valid();
    weak_slots_tell_lives();
    steps_stay_in_their_family();
    calls_change_their_slot();
    steps_follow_the_history();
    steps_leave_threads();
    heap.ask(rt, command)
}

/// Writes a field of an object that a slot names.
#[inline(always)]
pub(crate) fn write<R: Threads + Wait + Copy + Send + 'static, G: Gate + Send + Sync + 'static>(
    heap: &mut Heap<'_, G>,
    rt: &R,
    command: &Command,
) -> Result<(), FieldError>
    requires room { HasRoom heap.old.core.state 1 }
    requires pages { 0 < heap.old.core.setup.shape.pages }
    requires opened { heap.old.core.closed ≡ false }
    requires allowed { IsAllowed (length heap.old.core.setup.types) command.now }
    requires face { is_of_face command.now ≡ true }
    requires write { is_write command.now ≡ true }
    requires object { ¬ (SpeaksOf heap.old.core.state command.now None) }
    ensures asked { IsAsked heap.old.core.setup heap.old.core.state heap.new.core.state
        command.now heap.new.core.piece heap.new.core.lines (line_of_write result) }
    ensures setup { heap.new.core.setup ≡ heap.old.core.setup }
    ensures opened { heap.new.core.closed ≡ false }
{
    match ask(heap, rt, command) {
        Line::Fine => Ok(()),
        line => Err(field_error(line)),
    }
}

/// Reads a plain word of the object that slot p names.
#[inline(always)]
pub(crate) fn read_word<R: Threads + Wait + Copy + Send + 'static, G: Gate + Send + Sync + 'static>(
    heap: &mut Heap<'_, G>,
    rt: &R,
    p: u32,
    f: u32,
) -> Result<u64, FieldError>
    requires room { HasRoom heap.old.core.state 1 }
    requires pages { 0 < heap.old.core.setup.shape.pages }
    requires opened { heap.old.core.closed ≡ false }
    requires slot { p < 256 }
    requires field { f < 67108864 }
    requires object { ¬ (slot_at heap.old.core.state p ≡ None) }
    ensures asked { IsAsked heap.old.core.setup heap.old.core.state heap.new.core.state
        (C.Word p f) heap.new.core.piece heap.new.core.lines (line_of_word result) }
    ensures setup { heap.new.core.setup ≡ heap.old.core.setup }
    ensures opened { heap.new.core.closed ≡ false }
{
    match ask(heap, rt, &Command::Word { p, f }) {
        Line::Word { n } => Ok(n),
        line => Err(field_error(line)),
    }
}

/// Why a field is refused that a slot's object lacks, or has of another kind.
#[cold]
#[inline(never)]
pub(crate) fn field_error(line: Line) -> FieldError
    requires { (line ≡ L.Refused R.Field) ⊎ (line ≡ L.Refused R.Kind) }
    ensures { line ≡ L.Refused (why_of result) }
{
    match line {
        Line::Refused(Refusal::Field) => FieldError::Field,
        Line::Refused(Refusal::Kind) => FieldError::Kind,
        _ => unreachable!(),
    }
}
