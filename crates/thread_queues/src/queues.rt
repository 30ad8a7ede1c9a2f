// The threads of a script, with the board that they read.

ghost use Rattle.std.specs.Prelude.{◌≡◌, ◌<◌, ◌≤◌, [], true, false, IfOk, OnOk, OnErr, length};
ghost use Rattle.std.specs.Arc.{arc_value};
ghost use Rattle.gc_graph.specs.Lawful.{IsAllowedOrder, TotalsNeverFall};
ghost use Rattle.thread_queues.specs.Queues.{no_orders, with_order, threads_in, queues_left, posted};
ghost use Rattle.thread_queues.specs.Going.{AreOut, HaveBegun, HaveReturned, IsFirst, TellSomeOf};

use crate::all_threads::{THREADS, clear_all, count_threads, go_all, idle_threads};
use crate::published;
use crate::published::TotalsLists;
use crate::returning::{join_all, wait_for_all};
use crate::script_thread::ScriptThread;
use crate::starting::Shared;
use cross_thread_region::{Pass, Region};
use gc_graph::{NoMemory, Order};
use ghost_values::GhostValue;
use heap_stats::{Board, Publisher, Totals};
use std::alloc::Global;
use std::marker::Model;
use std::sync::{Arc, Wait};
use std::thread::Threads;
use thread_gate::Gate;

/// Threads 1 to 8 of a script: the orders that wait for each, the replies of those that were joined
/// last, and the board that they read, with the right to publish. Orders are queued, then the threads
/// go, and then they are joined. Only the thread that owns the heap calls it.
#[derive(Drop)]
pub struct ThreadQueues {
    pub(crate) threads: Vec<ScriptThread>,
    /// The passes of threads that came back, until they are joined: none between two calls.
    back: Vec<Pass>,
    board: Arc<Board>,
    publisher: Publisher,
    /// What was published since the threads went last, before what was published last.
    since: GhostValue<TotalsLists>,
    awaiting: bool,
    /// Whether threads went, and neither a join nor a dismissal has waited for them.
    away: bool,
}

impl Model for ThreadQueues {
    ghost use Rattle.std.specs.Prelude.{◌≡◌, [], vec_capacity};
    ghost use Rattle.std.specs.Arc.{arc_value};
    ghost use Rattle.thread_queues.specs.Queues.{QueuesView, view_of};
    ghost use Rattle.thread_queues.specs.Runs.{IsPosted, ThreadsAreHere};

    ghost Value = { QueuesView };

    ghost view = { λ q.
        view_of q.threads.items q.awaiting q.away q.publisher.last q.since.value };

    ghost invariant = { λ q.
        ThreadsAreHere q.threads.items q.awaiting q.away (vec_capacity q.back)
        × (q.back.items ≡ [])
        × IsPosted (arc_value q.board) q.publisher q.since.value q.threads.items };
}

impl ThreadQueues {
    /// Threads without orders, and a board with four zeros. Want of memory is free.
    pub fn new(alloc: Global) -> Result<ThreadQueues, NoMemory>
        ensures { IfOk result (λ made. made ≡ no_orders) }
    {
        let (board, publisher) = Board::new(alloc)?;
        Ok(ThreadQueues {
            threads: idle_threads(alloc)?,
            back: Vec::with_capacity(alloc, THREADS as usize)?,
            board: Arc::new(alloc, board)?,
            publisher,
            since: published::none(),
            awaiting: false,
            away: false,
        })
    }

    /// The order waits behind the others of its thread. Want of memory is free.
    pub fn queue(&mut self, thread: u32, order: Order) -> Result<(), NoMemory>
        requires first { 1 ≤ thread }
        requires last { thread ≤ 8 }
        requires allowed { IsAllowedOrder order }
        requires joined { self.old.awaiting ≡ false }
        ensures queued { OnOk result (self.new
            ≡ record self.old { queues = with_order self.old.queues thread order }) }
        ensures refused { OnErr result (self.new ≡ self.old) }
    {
        let thread = &mut self.threads[(thread - 1) as usize];
        thread.push(order)?;
        Ok(())
    }

    /// Publishes the totals of the heap, which threads that are away may read from now on.
    pub fn publish<R: Wait>(&mut self, rt: &R, totals: Totals)
        requires later { self.old.last.ordinal < totals.ordinal }
        ensures { self.new
            ≡ record self.old { since = posted self.old.since self.old.last; last = totals } }
    {
        self.since = published::with_last(&self.since, &self.publisher);
        self.board.publish(rt, &mut self.publisher, totals);
    }

    /// A thread is started for each queue that isn't empty, with a pass that is split off the first one,
    /// and one of the board that has seen what was published last. Where a thread is refused, or a clone
    /// for it, its orders are done here. A join is awaited then. Answers how many they are.
    pub fn go<R: Threads + Wait + Copy + Send + 'static, G: Gate + Send + Sync + 'static>(
        &mut self,
        rt: &R,
        region: &Arc<Region>,
        pass: &mut Pass,
        gate: &Arc<G>,
    ) -> u32
        requires joined { self.old.awaiting ≡ false }
        requires first { IsFirst (arc_value region.now) pass.old }
        requires alone { pass.old.out ≡ [] }
        ensures count { result ≡ length (threads_in self.old.queues) }
        ensures gone { self.new ≡ record self.old {
          running = threads_in self.old.queues;
          awaiting = true;
          away = true;
          replies = [];
          passes = self.new.passes;
          since = [];
        } }
        ensures began { HaveBegun self.old.queues pass.old.seen self.new.passes }
        ensures pass { pass.new ≡ record pass.old { out = pass.new.out } }
        ensures first { IsFirst (arc_value region.now) pass.new }
        ensures outs { AreOut (arc_value region.now) pass.new self.new }
    {
        let count = count_threads(&self.threads);
        self.since = published::none();
        let shared = Shared {
            region,
            board: &self.board,
            gate,
        };
        go_all(rt, &mut self.threads, &shared, pass, &mut self.publisher);
        self.awaiting = true;
        self.away = true;
        count
    }

    /// Waits for the threads that went, whose queues are empty then, and takes their passes back. The
    /// first pass has then seen what theirs have, and no other one is out. Answers how many they were.
    pub fn join<R: Threads + Wait>(&mut self, rt: &R, region: &Region, pass: &mut Pass) -> u32
        requires away { self.old.away ≡ true }
        requires awaited { self.old.awaiting ≡ true }
        requires first { IsFirst region.now pass.old }
        requires outs { AreOut region.now pass.old self.old }
        ensures count { result ≡ length self.old.running }
        ensures joined { self.new ≡ record self.old {
          queues = queues_left self.old.queues self.old.running;
          running = [];
          awaiting = false;
          away = false;
          replies = self.new.replies;
          passes = [];
        } }
        ensures pass { pass.new ≡ record pass.old { seen = pass.new.seen; out = [] } }
        ensures returned { HaveReturned self.old pass.old pass.new.seen self.new.replies }
        ensures told { TellSomeOf (posted self.old.since self.old.last) self.new.replies }
        ensures fall { TotalsNeverFall self.new.replies }
        ensures first { IsFirst region.now pass.new }
    {
        self.take_back(rt, region, pass);
        let count = count_threads(&self.threads);
        clear_all(&mut self.threads);
        self.awaiting = false;
        count
    }

    /// Waits for the threads that are away, and takes their passes back. Their orders stay.
    pub fn dismiss<R: Threads + Wait>(&mut self, rt: &R, region: &Region, pass: &mut Pass)
        requires first { IsFirst region.now pass.old }
        requires outs { AreOut region.now pass.old self.old }
        ensures dismissed { self.new ≡ record self.old {
          away = false;
          replies = self.new.replies;
          passes = [];
        } }
        ensures pass { pass.new ≡ record pass.old { seen = pass.new.seen; out = [] } }
        ensures returned { self.old.away ≡ true
            → HaveReturned self.old pass.old pass.new.seen self.new.replies }
        ensures same { self.old.away ≡ false → pass.new ≡ pass.old }
        ensures first { IsFirst region.now pass.new }
    {
        if self.away {
            self.take_back(rt, region, pass);
        }
    }

    /// Waits for the threads, and takes their passes back. Their orders stay.
    fn take_back<R: Threads + Wait>(&mut self, rt: &R, region: &Region, pass: &mut Pass)
        requires away { self.old.away ≡ true }
        requires first { IsFirst region.now pass.old }
        requires outs { AreOut region.now pass.old self.old }
        ensures back { self.new ≡ record self.old {
          away = false;
          replies = self.new.replies;
          passes = [];
        } }
        ensures pass { pass.new ≡ record pass.old { seen = pass.new.seen; out = [] } }
        ensures returned { HaveReturned self.old pass.old pass.new.seen self.new.replies }
        ensures told { TellSomeOf (posted self.old.since self.old.last) self.new.replies }
        ensures fall { TotalsNeverFall self.new.replies }
        ensures first { IsFirst region.now pass.new }
    {
        wait_for_all(
            rt,
            &mut self.threads,
            &self.board,
            &mut self.publisher,
            &self.since,
            &mut self.back,
        );
        join_all(&mut self.back, region, pass);
        self.away = false;
    }

    /// Whether a join is awaited.
    pub fn awaits(&self) -> bool
        ensures { result ≡ self.now.awaiting }
    {
        self.awaiting
    }

    /// Only threads that went run. Whoever calls this has the law.
    pub fn none_run_before_they_go(&self)
        ensures { self.now.awaiting ≡ false → self.now.running ≡ [] }
    {
        let _ = &self.awaiting;
    }
}
