// What is done with all threads of a script, thread 1 first.

ghost use Rattle.std.specs.Prelude.{◌≡◌, [], All, Contains, IfOk, None, length, replicate};
ghost use Rattle.std.specs.Arc.{arc_value};
ghost use Rattle.thread_queues.specs.Queues.{orders_of, passes_of, replies_of, threads_in};
ghost use Rattle.thread_queues.specs.Going.{HaveBegun, IsFirst};
ghost use Rattle.thread_queues.specs.Orders.{HasOutBelow};
ghost use Rattle.thread_queues.specs.Runs.{AreAtWork, IsLentBy, IsLentThen};

use crate::script_thread::ScriptThread;
use crate::starting::Shared;
use cross_thread_region::Pass;
use gc_graph::NoMemory;
use heap_stats::Publisher;
use std::alloc::Global;
use std::sync::Wait;
use std::thread::Threads;
use thread_gate::Gate;

pub(crate) const THREADS: u32 = 8;

pub(crate) fn idle_threads(alloc: Global) -> Result<Vec<ScriptThread>, NoMemory>
    ensures { IfOk result (λ threads. threads.items
        ≡ replicate 8 (record { orders = []; replies = []; run = None })) }
{
    let mut threads = Vec::with_capacity(alloc, THREADS as usize)?;
    for _thread in 0..THREADS {
        threads.push_reserved(ScriptThread::new(alloc));
    }
    Ok(threads)
}

/// How many threads have orders.
pub(crate) fn count_threads(threads: &Vec<ScriptThread>) -> u32
    requires eight { length threads.now.items ≡ 8 }
    requires here { passes_of threads.now.items ≡ [] }
    ensures { result ≡ length (threads_in (orders_of threads.now.items)) }
{
    let mut count = 0;
    for i in 0..THREADS {
        if !threads[i as usize].is_empty() {
            count += 1;
        }
    }
    count
}

/// The threads that have orders go, thread 1 first.
pub(crate) fn go_all<R: Threads + Wait + Copy + Send + 'static, G: Gate + Send + Sync + 'static>(
    rt: &R,
    threads: &mut Vec<ScriptThread>,
    shared: &Shared<'_, G>,
    pass: &mut Pass,
    publisher: &mut Publisher,
)
    requires eight { length threads.old.items ≡ 8 }
    requires here { passes_of threads.old.items ≡ [] }
    requires board { publisher.old.board ≡ arc_value shared.now.board.now }
    requires first { IsFirst (arc_value shared.now.region.now) pass.old }
    requires alone { pass.old.out ≡ [] }
    ensures orders { orders_of threads.new.items ≡ orders_of threads.old.items }
    ensures replies { replies_of threads.new.items ≡ [] }
    ensures began { HaveBegun (orders_of threads.old.items) pass.old.seen
        (passes_of threads.new.items) }
    ensures work { AreAtWork threads.new.items }
    ensures lent { All (IsLentBy publisher.old.board) threads.new.items }
    ensures then_lent { All (IsLentThen publisher.old.last.ordinal) threads.new.items }
    ensures pass { pass.new ≡ record pass.old { out = pass.new.out } }
    ensures first { IsFirst (arc_value shared.now.region.now) pass.new }
    ensures outs { HasOutBelow (arc_value shared.now.region.now) pass.new
        (passes_of threads.new.items) 9 }
    ensures running { All (Contains (threads_in (orders_of threads.old.items))) pass.new.out }
    ensures publisher { publisher.new ≡ publisher.old }
{
    for i in 0..threads.len() {
        let thread = &mut threads[i];
        thread.go(rt, i as u32 + 1, shared, pass, publisher);
    }
}

/// No order waits, and the replies stay to be told.
pub(crate) fn clear_all(threads: &mut Vec<ScriptThread>)
    requires eight { length threads.old.items ≡ 8 }
    requires here { passes_of threads.old.items ≡ [] }
    ensures orders { orders_of threads.new.items ≡ replicate 8 [] }
    ensures replies { replies_of threads.new.items ≡ replies_of threads.old.items }
    ensures here { passes_of threads.new.items ≡ [] }
{
    for i in 0..threads.len() {
        let thread = &mut threads[i];
        thread.clear();
    }
}
