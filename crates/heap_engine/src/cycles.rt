// The commands of collections and sweeps, each of which ends its outcome (`include/cppgc/heap.h`).

ghost use Rattle.std.specs.Prelude.{◌≡◌, ◌*◌, ◌≤◌};
ghost use Rattle.gc_graph.specs.declared.command.Command.TheVariants as C;
ghost use Rattle.heap_cycle.specs.Pages.{word_count};
ghost use Rattle.callback_table.specs.Table.{callback_kinds};
ghost use Rattle.heap_cycle.specs.Parts.{IsReady};
ghost use Rattle.heap_engine.specs.CarriedOut.{IsAsked, IsCarriedOut, IsDoneAlone, TellsNothing};

use callback_table::CallbackTable;
use gc_graph::Want;
use heap_cycle::{Gate, Outcome, Parts};
use std::sync::{Arc, Wait};
use std::thread::Threads;

/// The start of a cycle.
#[inline(never)]
pub fn start<R: Threads + Wait, G: Gate + Send + Sync + 'static>(
    rt: &R,
    parts: &mut Parts,
    outcome: &mut Outcome,
    gate: &Arc<G>,
)
    requires asked { IsAsked parts.old outcome.old }
    ensures done { IsCarriedOut C.GcStart parts.old parts.new
        outcome.old outcome.new }
{
    let line = heap_cycle::start(rt, parts, outcome, gate);
    outcome.end(line);
}

/// A step of a cycle, which traces so many objects, or those that are left.
#[inline(never)]
pub fn step(parts: &mut Parts, outcome: &mut Outcome, n: u32)
    requires ready { IsReady parts.old }
    requires nothing { TellsNothing outcome.old }
    ensures done { IsDoneAlone (C.GcStep n) parts.old parts.new outcome.old outcome.new }
{
    outcome.end(heap_cycle::step(parts, n));
}

/// The pause of a cycle.
#[inline(never)]
pub fn finish<R: Threads + Wait>(
    rt: &R,
    parts: &mut Parts,
    outcome: &mut Outcome,
    callbacks: &CallbackTable,
    want: Want,
)
    requires asked { IsAsked parts.old outcome.old }
    requires kinds { callback_kinds callbacks.now ≡ parts.old.objects.callbacks }
    ensures done { IsCarriedOut (C.GcFinish want) parts.old parts.new
        outcome.old outcome.new }
{
    let line = heap_cycle::finish(rt, parts, outcome, callbacks, want);
    outcome.end(line);
}

/// A whole collection.
#[inline(never)]
pub fn collect<R: Threads + Wait>(
    rt: &R,
    parts: &mut Parts,
    outcome: &mut Outcome,
    callbacks: &CallbackTable,
    want: Want,
)
    requires asked { IsAsked parts.old outcome.old }
    requires kinds { callback_kinds callbacks.now ≡ parts.old.objects.callbacks }
    ensures done { IsCarriedOut (C.GcNow want) parts.old parts.new
        outcome.old outcome.new }
{
    let line = heap_cycle::collect(rt, parts, outcome, callbacks, want);
    outcome.end(line);
}

/// Goes on with the open sweep by so many pages, or those that are left.
pub fn sweep_some(parts: &mut Parts, outcome: &mut Outcome, n: u32)
    requires ready { IsReady parts.old }
    requires nothing { TellsNothing outcome.old }
    requires room { word_count parts.old.objects.shape ≤ 2 * outcome.old.room }
    ensures done { IsDoneAlone (C.Sweep n) parts.old parts.new outcome.old outcome.new }
{
    let line = heap_cycle::sweep_some(parts, outcome, n);
    outcome.end(line);
}

/// Ends the open sweep.
pub fn sweep_all(parts: &mut Parts, outcome: &mut Outcome)
    requires ready { IsReady parts.old }
    requires nothing { TellsNothing outcome.old }
    requires room { word_count parts.old.objects.shape ≤ 2 * outcome.old.room }
    ensures done { IsDoneAlone C.SweepAll parts.old parts.new outcome.old outcome.new }
{
    let line = heap_cycle::sweep_all(parts, outcome);
    outcome.end(line);
}
