// Collections (`include/cppgc/heap.h`): one is a cycle from its start through any number of steps
// to its pause, or all of it in one command.

ghost use Rattle.std.specs.Prelude.{◌≡◌, ◌*◌, ◌≤◌, ◌<◌, ℕ, true, false, [], ◌∷◌, length};
ghost use Rattle.gc_graph.specs.declared.line.Line.TheVariants as L;
ghost use Rattle.gc_graph.specs.declared.phase.Phase.TheVariants.{Marking};
ghost use Rattle.gc_graph.specs.Outcomes.{answered};
ghost use Rattle.gc_graph.specs.CycleSteps.{StepGcStart, StepGcStep, StepGcFinish, StepGcNow};
ghost use Rattle.gc_graph.specs.CycleSteps.{is_marking, is_stack_refused};
ghost use Rattle.heap_roots.specs.Pages.{word_count};
ghost use Rattle.callback_table.specs.Table.{callback_kinds};
ghost use Rattle.heap_cycle.specs.Cycles.{HasPaused, AreSlotsMarked, HasFoundAll, pause_line};
ghost use Rattle.heap_roots.specs.Calls.{TakesMore};
ghost use Rattle.heap_roots.specs.Crews.{KeepsTaken};
ghost use Rattle.heap_roots.specs.Owned.{piece_of};
ghost use Rattle.heap_cycle.specs.Parts.{setup_of, state_of, counted, IsReady, IsFrame};
ghost use Rattle.heap_cycle.specs.Region.{HasRegion};
ghost use Rattle.heap_cycle.specs.Printed.{lines_with, TellsThoseThatRan};

use crate::beginning::begin;
use crate::crew::start_crew;
use crate::outcome::Outcome;
use crate::parts::Parts;
use crate::states;
use callback_table::CallbackTable;
use gc_graph::{Line, Phase, Refusal, Want};
use heap_roots::{Finished, Gate};
use std::sync::{Arc, Wait};
use std::thread::Threads;

/// The start of a cycle, which is refused while marking goes on: an open sweep is ended, marking
/// begins, and the heap's markers are started. What the strong slots name, those of the region too,
/// is marked then. Want of memory is free.
#[inline(never)]
pub fn start<R: Threads + Wait, G: Gate + Send + Sync + 'static>(
    rt: &R,
    parts: &mut Parts,
    outcome: &mut Outcome,
    gate: &Arc<G>,
) -> Line
    requires ready { IsReady parts.old }
    requires region { HasRegion parts.old }
    requires quiet { parts.old.region.told ≡ [] }
    requires numbers { outcome.old.numbers ≡ [] }
    requires calm { outcome.old.calls_back ≡ false }
    requires room { word_count parts.old.objects.shape ≤ 2 * outcome.old.room }
    ensures step { StepGcStart (setup_of parts.old) (state_of parts.old)
        (piece_of parts.old.region parts.new.region)
        (lines_with outcome.new parts.new.cycle.ran result) (answered (state_of parts.new)) }
    ensures frame { IsFrame parts.old (counted parts.new) result }
    ensures region { HasRegion parts.new }
    ensures grown { TakesMore parts.old.region parts.new.region }
    ensures marked { result ≡ L.Started → AreSlotsMarked parts.new parts.new.region.taken }
    ensures calm { outcome.new.calls_back ≡ false }
    ensures room { outcome.new.room ≡ outcome.old.room }
{
    let open = parts.cycle.is_marking();
    if open {
        return Line::Refused(Refusal::Phase);
    }
    let Ok(lists) = parts.objects.crew_lists() else {
        return Line::Memory;
    };
    let Ok(()) = begin(rt, parts, &mut outcome.finalised) else {
        return Line::Memory;
    };
    start_crew(rt, parts, lists, gate);
    Line::Started
}

/// A step of a cycle, which is refused where none is open: so many objects are traced, or those
/// that are left to be found, alone or beside markers.
#[inline(never)]
pub fn step(parts: &mut Parts, n: u32) -> Line
    requires ready { IsReady parts.old }
    ensures step { StepGcStep (state_of parts.old) n (result ∷ []) (answered (state_of parts.new)) }
    ensures frame { IsFrame parts.old (counted parts.new) result }
    ensures region { parts.new.region ≡ parts.old.region }
    ensures done { (t : ℕ) → result ≡ L.Step t true → HasFoundAll parts.old parts.new }
    ensures took { 0 < length parts.old.objects.grey.running
        → KeepsTaken parts.old.objects.grey parts.new.objects.grey }
{
    if !parts.cycle.is_marking() {
        return Line::Refused(Refusal::Phase);
    }
    let count = parts.objects.step(n);
    let rest = states::traced(&parts.cycle.rest, count);
    parts.cycle.take(rest);
    Line::Step {
        t: count,
        done: count < n,
    }
}

/// The pause of a cycle, which is refused where none is open, and where the pause would be precise
/// and the stack isn't empty. Markers that run are stopped and joined first.
#[inline(never)]
pub fn finish<R: Threads + Wait>(
    rt: &R,
    parts: &mut Parts,
    outcome: &mut Outcome,
    callbacks: &CallbackTable,
    want: Want,
) -> Line
    requires ready { IsReady parts.old }
    requires region { HasRegion parts.old }
    requires quiet { parts.old.region.told ≡ [] }
    requires kinds { callback_kinds callbacks.now ≡ parts.old.objects.callbacks }
    requires numbers { outcome.old.numbers ≡ [] }
    requires calm { outcome.old.calls_back ≡ false }
    ensures step { StepGcFinish (setup_of parts.old) want (state_of parts.old)
        (piece_of parts.old.region parts.new.region)
        (lines_with outcome.new parts.new.cycle.ran result) (answered (state_of parts.new)) }
    ensures frame { IsFrame parts.old (counted parts.new) result }
    ensures region { HasRegion parts.new }
    ensures grown { TakesMore parts.old.region parts.new.region }
    ensures ran { TellsThoseThatRan outcome.new parts.new.cycle.ran }
    ensures room { outcome.new.room ≡ outcome.old.room }
{
    if !parts.cycle.is_marking() {
        return Line::Refused(Refusal::Phase);
    }
    if parts.handles.stack().refuses(want) {
        return Line::Refused(Refusal::Stack);
    }
    let result = pause(rt, parts, callbacks, want);
    outcome.call_back(parts.cycle.registered());
    line_of(result)
}

/// A whole collection, which is refused while marking goes on, and where its pause would be precise
/// and the stack isn't empty: an open sweep is ended, marking begins, and the pause ends it. No
/// marker is started.
#[inline(never)]
pub fn collect<R: Threads + Wait>(
    rt: &R,
    parts: &mut Parts,
    outcome: &mut Outcome,
    callbacks: &CallbackTable,
    want: Want,
) -> Line
    requires ready { IsReady parts.old }
    requires region { HasRegion parts.old }
    requires quiet { parts.old.region.told ≡ [] }
    requires kinds { callback_kinds callbacks.now ≡ parts.old.objects.callbacks }
    requires numbers { outcome.old.numbers ≡ [] }
    requires calm { outcome.old.calls_back ≡ false }
    requires room { word_count parts.old.objects.shape ≤ 2 * outcome.old.room }
    ensures step { StepGcNow (setup_of parts.old) want (state_of parts.old)
        (piece_of parts.old.region parts.new.region)
        (lines_with outcome.new parts.new.cycle.ran result) (answered (state_of parts.new)) }
    ensures frame { IsFrame parts.old (counted parts.new) result }
    ensures region { HasRegion parts.new }
    ensures grown { TakesMore parts.old.region parts.new.region }
    ensures ran { TellsThoseThatRan outcome.new parts.new.cycle.ran }
    ensures room { outcome.new.room ≡ outcome.old.room }
{
    let marks = parts.cycle.is_marking();
    if marks {
        return Line::Refused(Refusal::Phase);
    }
    if parts.handles.stack().refuses(want) {
        return Line::Refused(Refusal::Stack);
    }
    let Ok(()) = begin(rt, parts, &mut outcome.finalised) else {
        return Line::Memory;
    };
    let result = pause(rt, parts, callbacks, want);
    outcome.call_back(parts.cycle.registered());
    line_of(result)
}

/// The pause ends marking: what is not kept is condemned, and a sweep is open.
fn pause<R: Threads + Wait>(
    rt: &R,
    parts: &mut Parts,
    callbacks: &CallbackTable,
    want: Want,
) -> Finished
    requires ready { IsReady parts.old }
    requires region { HasRegion parts.old }
    requires quiet { parts.old.region.told ≡ [] }
    requires marking { parts.old.cycle.phase ≡ Marking }
    requires allowed { is_stack_refused want parts.old.handles.stack.words ≡ false }
    requires kinds { callback_kinds callbacks.now ≡ parts.old.objects.callbacks }
    ensures paused { (markers : ℕ) → (markers ≡ 0 → parts.old.objects.grey.running ≡ [])
        → HasPaused markers want parts.old parts.new result }
{
    gc_graph::reach_is_least();
    gc_graph::orders_keep_valid();
    let before = states::moment(parts);
    let cycle = &mut parts.cycle;
    let result = parts.handles.pause(
        rt,
        &mut parts.region,
        &mut parts.objects,
        &mut cycle.registered,
        callbacks,
        want,
    );
    cycle.counts.pauses = cycle.counts.pauses.saturating_add(1);
    cycle.rest = states::paused(&parts.region, &cycle.rest, &before);
    cycle.phase = Phase::Sweeping;
    cycle.sweep.begin();
    result
}

/// The line of a pause.
fn line_of(finished: Finished) -> Line
    ensures { result ≡ pause_line finished }
{
    Line::Pause {
        kept: finished.pause.kept,
        dead: finished.pause.dead,
        crew: finished.crew,
        traced: finished.pause.traced,
        walked: finished.pause.walked,
    }
}
