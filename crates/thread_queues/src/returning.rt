// Threads come back: they are waited for one after the other, and then their passes are joined.

ghost use Rattle.std.specs.Prelude.{◌≡◌, ◌≤◌, [], length, vec_capacity};
ghost use Rattle.gc_graph.specs.Lawful.{TotalsNeverFall};
ghost use Rattle.cross_thread_region.specs.Calls.{RegionView, PassView};
ghost use Rattle.thread_queues.specs.Queues.{orders_of, passes_of, posted, replies_of};
ghost use Rattle.thread_queues.specs.Going.{AreBack, HaveMet, IsFirst, TellSomeOf};
ghost use Rattle.thread_queues.specs.Orders.{HasOut};
ghost use Rattle.thread_queues.specs.Runs.{AreAtWork, IsPosted};

use crate::published::TotalsLists;
use crate::script_thread::ScriptThread;
use cross_thread_region::{Pass, Region};
use ghost_values::GhostValue;
use heap_stats::{Board, Publisher};
use std::sync::Wait;
use std::thread::Threads;

/// Waits for each thread, thread 1 first. All that have orders are away.
pub(crate) fn wait_for_all<R: Threads + Wait>(
    rt: &R,
    threads: &mut Vec<ScriptThread>,
    board: &Board,
    publisher: &mut Publisher,
    since: &GhostValue<TotalsLists>,
    passes: &mut Vec<Pass>,
)
    requires eight { length threads.old.items ≡ 8 }
    requires work { AreAtWork threads.old.items }
    requires none { passes.old.items ≡ [] }
    requires room { 8 ≤ vec_capacity passes.old }
    requires posted { IsPosted board.now publisher.old since.now.value threads.old.items }
    ensures back { AreBack (orders_of threads.old.items) (passes_of threads.old.items)
        passes.new.items (replies_of threads.new.items) }
    ensures told { TellSomeOf (posted since.now.value publisher.old.last)
        (replies_of threads.new.items) }
    ensures fall { TotalsNeverFall (replies_of threads.new.items) }
    ensures orders { orders_of threads.new.items ≡ orders_of threads.old.items }
    ensures here { passes_of threads.new.items ≡ [] }
    ensures out { (region : RegionView) (pass : PassView)
        → HasOut region pass (passes_of threads.old.items) → HasOut region pass passes.new.items }
    ensures publisher { publisher.new ≡ publisher.old }
    ensures room { vec_capacity passes.new ≡ vec_capacity passes.old }
{
    publisher.totals_rise();
    for i in 0..threads.len() {
        let thread = &mut threads[i];
        thread.wait(rt, board, publisher, passes);
    }
}

/// Joins the passes, the last one first.
pub(crate) fn join_all(passes: &mut Vec<Pass>, region: &Region, pass: &mut Pass)
    requires first { IsFirst region.now pass.old }
    requires out { HasOut region.now pass.old passes.old.items }
    ensures none { passes.new.items ≡ [] }
    ensures pass { pass.new ≡ record pass.old { seen = pass.new.seen; out = [] } }
    ensures met { HaveMet passes.old.items pass.old pass.new.seen }
    ensures first { IsFirst region.now pass.new }
    ensures room { vec_capacity passes.new ≡ vec_capacity passes.old }
{
    while let Some(own) = passes.pop() {
        region.join_pass(pass, own);
    }
}
