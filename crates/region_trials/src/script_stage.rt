// A region and the threads of a script, and what a test lets them do.

ghost use Rattle.std.specs.Prelude.{◌≡◌, ◌≤◌, ◌<◌, [], false, IfOk};
ghost use Rattle.std.specs.Arc.{arc_value};
ghost use Rattle.gc_graph.specs.Lawful.{IsAllowedOrder};
ghost use Rattle.region_trials.specs.ScriptRounds.{AreHere, AreAway};

use crate::region_calls::export;
use cross_thread_region::{Pass, Region};
use gc_graph::{NoMemory, Order};
use std::alloc::Global;
use std::sync::{Arc, Wait};
use std::thread::Threads;
use thread_gate::Gate;
use thread_queues::{ThreadQueues, Totals};

/// A region whose slot 0 is strong for node 3, with its first pass, and the threads of a script.
#[derive(Drop)]
pub(crate) struct Stage {
    pub(crate) region: Arc<Region>,
    pub(crate) pass: Pass,
    pub(crate) queues: ThreadQueues,
}

impl Stage {
    /// No thread has an order, and four zeros are published.
    pub(crate) fn new<R: Wait>(rt: &R, alloc: Global) -> Result<Stage, NoMemory>
        ensures here { IfOk result
            (λ made. AreHere (arc_value made.region) made.pass made.queues) }
        ensures zero { IfOk result (λ made. made.queues.last.ordinal ≡ 0) }
    {
        let (region, mut pass) = Region::new(alloc, 32)?;
        export(rt, &region, &mut pass, 0, 3, 30);
        Ok(Stage {
            region: Arc::new(alloc, region)?,
            pass,
            queues: ThreadQueues::new(alloc)?,
        })
    }

    pub(crate) fn queue(&mut self, thread: u32, order: Order) -> Result<(), NoMemory>
        requires here { AreHere (arc_value self.old.region) self.old.pass self.old.queues }
        requires above { 1 ≤ thread }
        requires below { thread ≤ 8 }
        requires allowed { IsAllowedOrder order }
        ensures here { AreHere (arc_value self.new.region) self.new.pass self.new.queues }
        ensures last { self.new.queues.last ≡ self.old.queues.last }
    {
        self.queues.queue(thread, order)
    }

    /// Answers how many threads went.
    pub(crate) fn go<R: Threads + Wait + Copy + Send + 'static, G: Gate + Send + Sync + 'static>(
        &mut self,
        rt: &R,
        gate: &Arc<G>,
    ) -> u32
        requires here { AreHere (arc_value self.old.region) self.old.pass self.old.queues }
        ensures away { AreAway (arc_value self.new.region) self.new.pass self.new.queues }
        ensures last { self.new.queues.last ≡ self.old.queues.last }
    {
        self.queues.go(rt, &self.region, &mut self.pass, gate)
    }

    /// Publishes while threads are away.
    pub(crate) fn publish<R: Wait>(&mut self, rt: &R, totals: Totals)
        requires away { AreAway (arc_value self.old.region) self.old.pass self.old.queues }
        requires later { self.old.queues.last.ordinal < totals.ordinal }
        ensures away { AreAway (arc_value self.new.region) self.new.pass self.new.queues }
        ensures last { self.new.queues.last ≡ totals }
    {
        self.queues.publish(rt, totals);
    }

    /// Answers how many threads went.
    pub(crate) fn join<R: Threads + Wait>(&mut self, rt: &R) -> u32
        requires away { AreAway (arc_value self.old.region) self.old.pass self.old.queues }
        ensures here { AreHere (arc_value self.new.region) self.new.pass self.new.queues }
        ensures last { self.new.queues.last ≡ self.old.queues.last }
    {
        self.queues.join(rt, &*self.region, &mut self.pass)
    }
}
