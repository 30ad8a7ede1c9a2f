// The threads of a script: orders are queued, the threads go, and are joined.

ghost use Rattle.std.specs.Prelude.{◌≡◌, ◌+◌, ◌<◌, ◌≤◌, ℕ, [], true, false, Contains, length};
ghost use Rattle.std.specs.Prelude.{OnOk, OnErr};
ghost use Rattle.gc_graph.specs.Lawful.{IsAllowedOrder};
ghost use Rattle.thread_queues.specs.Queues.{threads_in, with_order};
ghost use Rattle.heap_objects.specs.Nodes.{AreOfValid};
ghost use Rattle.heap_objects.specs.Objects.{setup_of_objects};
ghost use Rattle.heap_region.specs.Calls.{HasJoined, HasPublished, HaveGoneOut};
ghost use Rattle.heap_region.specs.Handled.{IsHandled, LooksAgain};
ghost use Rattle.heap_region.specs.Owned.{HasBegun};

use crate::owned::OwnedRegion;
use crate::taking::look_again;
use gc_graph::{NoMemory, Order};
use heap_objects::{Gate, Objects};
use std::sync::{Arc, Wait};
use std::thread::Threads;
use thread_queues::Totals;

impl OwnedRegion {
    /// The order waits for its thread. Want of memory is free.
    pub fn queue(&mut self, thread: u32, order: Order) -> Result<(), NoMemory>
        requires opened { self.old.closed ≡ false }
        requires joined { self.old.awaiting ≡ false }
        requires first { 1 ≤ thread }
        requires last { thread ≤ 8 }
        requires allowed { IsAllowedOrder order }
        ensures queued { OnOk result (self.new
            ≡ record self.old { queues = with_order self.old.queues thread order }) }
        ensures same { OnErr result (self.new ≡ self.old) }
    {
        self.threads.queue(thread, order)?;
        Ok(())
    }

    /// Publishes the totals of the heap, which threads may read from now on.
    pub fn publish<R: Wait>(&mut self, rt: &R, totals: Totals)
        requires later { self.old.last.ordinal < totals.ordinal }
        ensures { HasPublished self.old totals self.new }
    {
        self.threads.publish(rt, totals);
    }

    /// A thread is started for each queue that isn't empty. Where one is refused, its orders are done
    /// here. Answers how many they are.
    pub fn go<R: Threads + Wait + Copy + Send + 'static, G: Gate + Send + Sync + 'static>(
        &mut self,
        rt: &R,
        gate: &Arc<G>,
    ) -> u32
        requires opened { self.old.closed ≡ false }
        requires quiet { self.old.told ≡ [] }
        requires joined { self.old.awaiting ≡ false }
        ensures count { result ≡ length (threads_in self.old.queues) }
        ensures gone { HaveGoneOut self.old self.new }
    {
        self.threads.go(rt, &self.region, &mut self.pass, gate)
    }

    /// Waits for the threads that went, and what they have done is taken, and told. Answers how many they
    /// were.
    pub fn join<R: Threads + Wait>(&mut self, rt: &R, objects: &mut Objects) -> u32
        requires opened { self.old.closed ≡ false }
        requires awaited { self.old.awaiting ≡ true }
        requires valid { AreOfValid (setup_of_objects objects.old) objects.old.nodes }
        requires handled { IsHandled objects.old.nodes self.old.taken }
        ensures joined { HasJoined self.old self.new result }
        ensures looked { LooksAgain objects.old self.old self.new objects.new }
    {
        let count = self.threads.join(rt, &self.region, &mut self.pass);
        self.pass.is_legal();
        let held = self.region.look(rt, &mut self.pass);
        let taken = held.len();
        look_again(&held, objects, self.taken, taken);
        let lines = self.threads.reply_count() + (taken - self.printed);
        self.shown = self.printed;
        self.taken = taken;
        self.printed = taken;
        // The turn is kept while there are lines to tell.
        if lines > 0 {
            self.held = Some(held);
        } else {
            self.region.end_look(&mut self.pass, held);
        }
        count
    }

    /// Waits for the threads that run, if some do, and takes nothing of what they have done. Of their
    /// entries those that were taken are the first ones of their orders.
    pub fn close<R: Threads + Wait>(&mut self, rt: &R)
        ensures begun { (j : ℕ) → Contains self.old.running j → HasBegun self.old j }
        ensures closed { self.new ≡ record self.old { out = []; closed = true } }
    {
        // While a join holds the history no thread runs.
        if self.held.is_none() {
            self.threads.dismiss(rt, &self.region, &mut self.pass);
        }
        self.closed = true;
    }
}
