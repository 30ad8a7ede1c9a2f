// The commands on the threads of a script (`include/cppgc/cross-thread-persistent.h`).

ghost use Rattle.std.specs.Prelude.{◌≡◌, ◌≤◌, true, false};
ghost use Rattle.gc_graph.specs.declared.command.Command.TheVariants as C;
ghost use Rattle.gc_graph.specs.Lawful.{IsAllowedOrder};
ghost use Rattle.heap_engine.specs.CarriedOut.{IsAsked, IsCarriedOut};

use gc_graph::{Line, NoMemory, Order};
use heap_cycle::{Gate, Outcome, Parts};
use std::sync::{Arc, Wait};
use std::thread::Threads;

/// The order waits for its thread. Want of memory is free.
pub fn at(parts: &mut Parts, outcome: &mut Outcome, j: u32, order: Order)
    requires asked { IsAsked parts.old outcome.old }
    requires joined { parts.old.region.awaiting ≡ false }
    requires first { 1 ≤ j }
    requires last { j ≤ 8 }
    requires allowed { IsAllowedOrder order }
    ensures done { IsCarriedOut (C.At j order) parts.old parts.new outcome.old outcome.new }
{
    let line = match parts.region.queue(j, order) {
        Ok(()) => Line::Queued,
        Err(NoMemory) => Line::Memory,
    };
    outcome.end(line);
}

/// A thread is started for each queue that isn't empty.
pub fn go<R: Threads + Wait + Copy + Send + 'static, G: Gate + Send + Sync + 'static>(
    rt: &R,
    parts: &mut Parts,
    outcome: &mut Outcome,
    gate: &Arc<G>,
)
    requires asked { IsAsked parts.old outcome.old }
    requires joined { parts.old.region.awaiting ≡ false }
    ensures done { IsCarriedOut C.ThreadsGo parts.old parts.new outcome.old outcome.new }
{
    let m = parts.region.go(rt, gate);
    outcome.end(Line::Going { m });
}

/// The threads are joined, and what they did is told.
pub fn join<R: Threads + Wait>(rt: &R, parts: &mut Parts, outcome: &mut Outcome)
    requires asked { IsAsked parts.old outcome.old }
    requires awaited { parts.old.region.awaiting ≡ true }
    ensures done { IsCarriedOut C.ThreadsJoin parts.old parts.new outcome.old outcome.new }
{
    gc_graph::orders_keep_valid();
    let before = heap_cycle::moment(parts);
    let m = parts.region.join(rt, &mut parts.objects);
    parts.take_since(&before);
    outcome.end(Line::Joined { m });
}
