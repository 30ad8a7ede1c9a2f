// Sweeps, and what the heap holds.

ghost use Rattle.std.specs.Prelude.{◌≡◌, ◌+◌, ◌≤◌, IfOk, IfErr};
ghost use Rattle.gc_graph.specs.declared.phase.Phase.TheVariants.{Sweeping};
ghost use Rattle.gc_graph.specs.CycleSteps.{HasSwept};
ghost use Rattle.gc_graph.specs.Outcomes.{answered};
ghost use Rattle.heap_engine.specs.Printed.{finalised_in};
ghost use Rattle.oilpan.specs.declared.handles.Root.{Root};
ghost use Rattle.oilpan.specs.declared.handles.SharedRoot.{SharedRoot};
ghost use Rattle.oilpan.specs.declared.handles.WeakRoot.{WeakRoot};
ghost use Rattle.oilpan.specs.Cycles.{AreTotals, IsOutOf, pages_after};
ghost use Rattle.oilpan.specs.Handles.{HasRoom, Holds, Shares, Watches};

use crate::asking::ask;
use crate::errors::NotSweeping;
use crate::heap::Oilpan;
use crate::told::Totals;
use gc_graph::{Command, Line};
use heap_engine::Gate;
use std::sync::Wait;
use std::thread::Threads;

impl<'a, G: Gate + Send + Sync + 'static> Oilpan<'a, G> {
    /// Sweeps up to so many pages more, at least one being asked for, and tells how many are swept by
    /// then. When all are, the collection is over.
    pub fn sweep<R: Threads + Wait + Copy + Send + 'static>(
        &mut self,
        rt: &R,
        count: u32,
    ) -> Result<u32, NotSweeping>
        requires room { HasRoom self.old.heap.core.state 1 }
        requires some { 1 ≤ count }
        ensures setup { self.new.heap.core.setup ≡ self.old.heap.core.setup }
        ensures ordinal { self.new.heap.core.state.ordinal ≡ self.old.heap.core.state.ordinal + 1 }
        ensures pages { IfOk result (λ pages.
            pages ≡ pages_after self.old.heap.core.setup self.old.heap.core.state count) }
        ensures swept { IfOk result (λ pages. HasSwept self.old.heap.core.setup
            self.old.heap.core.state pages self.new.heap.core.lines self.new.heap.core.state) }
        ensures fault { IfErr result (λ _.
            IsOutOf Sweeping self.old.heap.core.state self.new.heap.core.state) }
        ensures stays { (o : Root) →
            Holds self.old.heap.core.state o → Holds self.new.heap.core.state o }
        ensures watches { (o : WeakRoot) →
            Watches self.old.heap.core.state self.old.watched o →
            Watches self.new.heap.core.state self.new.watched o }
        ensures shares { (o : SharedRoot) →
            Shares self.old.heap.core.state self.old.shared o →
            Shares self.new.heap.core.state self.new.shared o }
    {
        match ask(&mut self.heap, rt, &Command::Sweep { n: count }) {
            Line::Swept { c } => Ok(c),
            Line::Refused(_) => Err(NotSweeping),
            _ => unreachable!(),
        }
    }

    /// What the heap holds.
    pub fn totals<R: Threads + Wait + Copy + Send + 'static>(&mut self, rt: &R) -> Totals
        requires room { HasRoom self.old.heap.core.state 1 }
        ensures setup { self.new.heap.core.setup ≡ self.old.heap.core.setup }
        ensures state { self.new.heap.core.state ≡ answered self.old.heap.core.state }
        ensures totals { AreTotals self.old.heap.core.setup self.old.heap.core.state result }
        ensures stays { (o : Root) →
            Holds self.old.heap.core.state o → Holds self.new.heap.core.state o }
        ensures watches { (o : WeakRoot) →
            Watches self.old.heap.core.state self.old.watched o →
            Watches self.new.heap.core.state self.new.watched o }
        ensures shares { (o : SharedRoot) →
            Shares self.old.heap.core.state self.old.shared o →
            Shares self.new.heap.core.state self.new.shared o }
    {
        match ask(&mut self.heap, rt, &Command::Stat) {
            Line::Objects { n, u, g } => Totals {
                objects: n,
                words: u,
                pages: g,
            },
            _ => unreachable!(),
        }
    }

    /// The numbers of the objects that the last call finalised, in their order.
    pub fn finalised(&self) -> &[u32]
        ensures { result.now ≡ finalised_in self.now.heap.core.lines }
    {
        self.heap.finalised()
    }
}
