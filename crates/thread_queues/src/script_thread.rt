// One of a script's threads.

ghost use Rattle.std.specs.Prelude.{◌≡◌, ◌+◌, ◌<◌, ◌≤◌, ◌^◌, ◌==◌, ◌++◌, ◌∷◌, [], All, None, length, is_ok};
ghost use Rattle.std.specs.Prelude.{if◌then◌else◌, vec_capacity, vec_len};
ghost use Rattle.std.specs.Arc.{arc_value};
ghost use Rattle.gc_graph.specs.Lawful.{IsAllowedOrder};
ghost use Rattle.thread_queues.specs.Going.{IsFirst};
ghost use Rattle.thread_queues.specs.Orders.{out_after};
ghost use Rattle.thread_queues.specs.Runs.{IsBack, IsGone, IsLentBy};

use crate::endings::{Begun, EndOf, Ended, InPlace};
use crate::queue::Queue;
use crate::starting::{Shared, started};
use crate::working::OwnPasses;
use cross_thread_region::Pass;
use gc_graph::{Line, NoMemory, Order};
use heap_stats::{Board, Publisher};
use std::alloc::Global;
use std::marker::Model;
use std::mem;
use std::sync::Wait;
use std::thread::{PromisedHandle, Threads};
use thread_gate::Gate;

/// Where the orders of a thread are.
#[derive(Drop)]
pub(crate) enum Work {
    /// They wait here.
    Waits(Queue),
    /// A thread does them.
    Runs(PromisedHandle<Ended, EndOf>),
    /// The caller did them, since no thread could be started.
    Ran(InPlace),
}

/// One of a script's threads: its orders wait, or it runs.
#[derive(Drop)]
pub(crate) struct ScriptThread {
    alloc: Global,
    work: Work,
}

impl Model for ScriptThread {
    ghost use Rattle.thread_queues.specs.Queues.{ThreadView};
    ghost use Rattle.thread_queues.specs.Runs.{thread_view};

    ghost Value = { ThreadView };

    ghost view = { λ t. thread_view t.work };
}

impl ScriptThread {
    pub(crate) fn new(alloc: Global) -> ScriptThread
        ensures { result ≡ record { orders = []; replies = []; run = None } }
    {
        ScriptThread {
            alloc,
            work: Work::Waits(Queue::new(alloc)),
        }
    }

    /// Want of memory is free, as is a refusal where there are so many orders as may be.
    pub(crate) fn push(&mut self, order: Order) -> Result<(), NoMemory>
        requires allowed { IsAllowedOrder order }
        requires here { self.old.run ≡ None }
        ensures { self.new ≡ (if is_ok result
            then record self.old { orders = self.old.orders ++ order ∷ [] } else self.old) }
    {
        match &mut self.work {
            Work::Waits(queue) => queue.push(order),
            _ => unreachable!(),
        }
    }

    /// The thread goes, where it has orders, with passes that are split off the owner's.
    pub(crate) fn go<R: Threads + Wait + Copy + Send + 'static, G: Gate + Send + Sync + 'static>(
        &mut self,
        rt: &R,
        thread: u32,
        shared: &Shared<'_, G>,
        pass: &mut Pass,
        publisher: &mut Publisher,
    )
        requires above { 1 ≤ thread }
        requires below { thread ≤ 8 }
        requires here { self.old.run ≡ None }
        requires board { publisher.old.board ≡ arc_value shared.now.board.now }
        requires first { IsFirst (arc_value shared.now.region.now) pass.old }
        requires new { All (λ n. n < thread) pass.old.out }
        ensures gone { IsGone thread self.old pass.old publisher.old self.new }
        ensures publisher { publisher.new ≡ publisher.old }
        ensures pass { pass.new
            ≡ record pass.old { out = out_after thread self.old.orders pass.old.out } }
        ensures first { IsFirst (arc_value shared.now.region.now) pass.new }
    {
        let Work::Waits(queue) = &mut self.work else {
            unreachable!();
        };
        if queue.is_empty() {
            queue.forget();
            return;
        }
        let queue = mem::replace(queue, Queue::new(self.alloc));
        let own = OwnPasses {
            region: shared.region.split_pass(pass, thread),
            board: shared.board.lend(publisher),
        };
        self.work = started(rt, thread, shared, Begun { queue, own });
    }

    /// Waits for the thread, where it runs. Its orders and replies are back, its pass of the board is
    /// taken back, and its pass of the region comes to the others.
    pub(crate) fn wait<R: Threads + Wait>(
        &mut self,
        rt: &R,
        board: &Board,
        publisher: &mut Publisher,
        passes: &mut Vec<Pass>,
    )
        requires board { publisher.old.board ≡ board.now }
        requires lent { IsLentBy board.now self.old }
        requires room { vec_len passes.old < vec_capacity passes.old }
        ensures back { IsBack self.old publisher.old.published passes.old.items passes.new.items
            self.new }
        ensures publisher { publisher.new ≡ publisher.old }
        ensures room { vec_capacity passes.new ≡ vec_capacity passes.old }
        ensures few { vec_len passes.new ≤ vec_len passes.old + 1 }
    {
        let ended = match mem::replace(&mut self.work, Work::Waits(Queue::new(self.alloc))) {
            Work::Waits(queue) => {
                self.work = Work::Waits(queue);
                return;
            }
            Work::Runs(handle) => handle.join(rt),
            Work::Ran(in_place) => in_place.into_end(),
        };
        let Ended { queue, own } = ended;
        let OwnPasses {
            region,
            board: read,
        } = own;
        read.reads_in_order();
        board.take_back(rt, publisher, read);
        passes.push_reserved(region);
        self.work = Work::Waits(queue);
    }

    /// No order waits, and the replies stay to be told.
    pub(crate) fn clear(&mut self)
        requires here { self.old.run ≡ None }
        ensures { self.new ≡ record self.old { orders = [] } }
    {
        match &mut self.work {
            Work::Waits(queue) => queue.clear(),
            _ => unreachable!(),
        }
    }

    /// Whether no order waits.
    pub(crate) fn is_empty(&self) -> bool
        requires here { self.now.run ≡ None }
        ensures { result ≡ (length self.now.orders == 0) }
    {
        match &self.work {
            Work::Waits(queue) => queue.is_empty(),
            _ => unreachable!(),
        }
    }

    /// What its orders were answered last; of a thread that is away nothing is known.
    pub(crate) fn replies(&self) -> &[Line]
        ensures replies { result.now ≡ self.now.replies }
        ensures few { length self.now.replies ≤ 2 ^ 27 }
    {
        match &self.work {
            Work::Waits(queue) => queue.replies(),
            _ => &[],
        }
    }
}
