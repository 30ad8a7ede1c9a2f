// The orders of one thread, and the replies to those that it did last.

ghost use Rattle.std.specs.Prelude.{◌≡◌, ◌≤◌, ◌^◌, ◌==◌, [], ◌∷◌, ◌++◌};
ghost use Rattle.std.specs.Prelude.{length, is_ok, if◌then◌else◌};
ghost use Rattle.gc_graph.specs.Lawful.{IsAllowedOrder};

use gc_graph::{Line, NoMemory, Order};
use std::alloc::Global;
use std::marker::Model;

/// More orders a queue never has, so that the replies of eight queues can be counted in 32 bits.
const MOST_ORDERS: usize = 0x0800_0000;

/// Orders that wait for a thread, the first one first, and the replies to those that it did last.
#[derive(Drop)]
pub(crate) struct Queue {
    pub(crate) orders: Vec<Order>,
    pub(crate) replies: Vec<Line>,
}

impl Model for Queue {
    ghost use Rattle.std.specs.Prelude.{vec_capacity};
    ghost use Rattle.thread_queues.specs.Queues.{QueueView, QueueHasRoom};

    ghost Value = { QueueView };

    ghost view = { λ q. record { orders = q.orders.items; replies = q.replies.items } };

    ghost invariant = { λ q.
        QueueHasRoom (record { orders = q.orders.items; replies = q.replies.items })
        (vec_capacity q.replies) };
}

impl Queue {
    pub fn new(alloc: Global) -> Queue
        ensures { result ≡ record { orders = []; replies = [] } }
    {
        Queue {
            orders: Vec::new(alloc),
            replies: Vec::new(alloc),
        }
    }

    /// Want of memory is free, as is a refusal where there are so many orders as may be.
    pub fn push(&mut self, order: Order) -> Result<(), NoMemory>
        requires { IsAllowedOrder order }
        ensures { self.new ≡ (if is_ok result
            then record self.old { orders = self.old.orders ++ order ∷ [] } else self.old) }
    {
        if self.orders.len() >= MOST_ORDERS {
            return Err(NoMemory);
        }
        // The room for its reply is taken now, so that threads that go need none.
        self.replies.reserve(self.orders.len() + 1)?;
        self.orders.push(order)?;
        Ok(())
    }

    /// No order waits, and the replies stay to be told.
    pub fn clear(&mut self)
        ensures { self.new ≡ record self.old { orders = [] } }
    {
        self.orders.clear();
    }

    /// No reply is told.
    pub fn forget(&mut self)
        ensures { self.new ≡ record self.old { replies = [] } }
    {
        self.replies.clear();
    }

    /// Whether no order waits.
    pub fn is_empty(&self) -> bool
        ensures { result ≡ (length self.now.orders == 0) }
    {
        self.orders.is_empty()
    }

    pub fn replies(&self) -> &[Line]
        ensures replies { result.now ≡ self.now.replies }
        ensures few { length self.now.replies ≤ 2 ^ 27 }
    {
        &self.replies
    }
}
