// A thread does its orders, with passes of its own.

ghost use Rattle.std.specs.Prelude.{◌≡◌, ◌≤◌};
ghost use Rattle.gc_graph.specs.Lawful.{IsAllowedOrder};
ghost use Rattle.gc_graph.specs.declared.line.Line.TheVariants as L;
ghost use Rattle.thread_queues.specs.Orders.{IsOwn, IsReadOn, OrderDone, ThreadDone};

use crate::queue::Queue;
use cross_thread_region::{Pass, Region};
use gc_graph::{Line, Order, Reply};
use heap_stats::{Board, BoardPass};
use std::sync::Wait;
use thread_gate::Gate;

/// Thread j has the number 100 + j at the gate.
const FIRST_WORKER: u32 = 100;

/// The point before an order.
const BEFORE_ORDER: u32 = 5;

/// A thread's own passes: one of the region, and one of the board.
#[derive(Drop)]
pub(crate) struct OwnPasses {
    pub(crate) region: Pass,
    pub(crate) board: BoardPass,
}

/// Where a thread works: under which number, on which region, by which board, and at which gate.
#[derive(Drop)]
pub(crate) struct Workplace<'a, G> {
    pub(crate) thread: u32,
    pub(crate) region: &'a Region,
    pub(crate) board: &'a Board,
    pub(crate) gate: &'a G,
}

impl Queue {
    /// The thread does the orders, and is told what each was answered.
    pub(crate) fn do_orders<R: Wait, G: Gate>(
        &mut self,
        rt: &R,
        place: &Workplace<'_, G>,
        own: &mut OwnPasses,
    )
        requires few { place.now.thread ≤ 8 }
        requires own { IsOwn place.now.region.now own.old.region place.now.thread }
        requires board { own.old.board.board ≡ place.now.board.now }
        ensures done { ThreadDone place.now.thread self.old.orders own.old own.new
            self.new.replies }
        ensures orders { self.new.orders ≡ self.old.orders }
        ensures own { IsOwn place.now.region.now own.new.region place.now.thread }
        ensures board { IsReadOn own.old.board own.new.board }
    {
        self.replies.clear();
        for i in 0..self.orders.len() {
            place.gate.pass(FIRST_WORKER + place.thread, BEFORE_ORDER);
            let reply = do_order(rt, place, self.orders[i], own);
            self.replies.push_reserved(reply);
        }
    }
}

/// What the order was answered. Want of memory is free.
fn do_order<R: Wait, G>(rt: &R, place: &Workplace<'_, G>, order: Order, own: &mut OwnPasses) -> Line
    requires allowed { IsAllowedOrder order }
    requires own { IsOwn place.now.region.now own.old.region place.now.thread }
    requires board { own.old.board.board ≡ place.now.board.now }
    ensures done { OrderDone place.now.thread order own.old own.new result }
    ensures own { IsOwn place.now.region.now own.new.region place.now.thread }
    ensures board { IsReadOn own.old.board own.new.board }
{
    let (thread, region) = (place.thread, place.region);
    match order {
        Order::Copy { from, into } => { told(thread, region.copy(rt, &mut own.region, from, into)) }
        Order::Clear { slot } => told(thread, region.clear(rt, &mut own.region, slot)),
        Order::Weaken { slot } => told(thread, region.weaken(rt, &mut own.region, slot)),
        Order::Upgrade { from, into } => {
            told(thread, region.upgrade(rt, &mut own.region, from, into))
        }
        Order::Totals => {
            let totals = place.board.read(rt, &mut own.board);
            Line::ReplyTotals {
                j: thread,
                o: totals.ordinal,
                n: totals.objects,
                u: totals.used,
                f: totals.finalised,
            }
        }
    }
}

fn told(thread: u32, reply: Reply) -> Line
    ensures { result ≡ L.Reply thread reply }
{
    Line::Reply { j: thread, reply }
}
