// Collections.

ghost use Rattle.std.specs.Prelude.{◌≡◌, ◌≢◌, ◌+◌, ◌≤◌, IfOk, IfErr};
ghost use Rattle.gc_graph.specs.declared.command.Want.TheVariants.{Precise};
ghost use Rattle.gc_graph.specs.declared.phase.Phase.TheVariants.{Marking, Sweeping};
ghost use Rattle.gc_graph.specs.CycleSteps.{IsBegun, IsFinished};
ghost use Rattle.gc_graph.specs.CollectionLaw.{CondemnsUnreached};
ghost use Rattle.oilpan.specs.declared.handles.Root.{Root};
ghost use Rattle.oilpan.specs.declared.handles.SharedRoot.{SharedRoot};
ghost use Rattle.oilpan.specs.declared.handles.WeakRoot.{WeakRoot};
ghost use Rattle.oilpan.specs.Cycles.{IsOutOf, IsStartFault, IsStepped};
ghost use Rattle.oilpan.specs.Handles.{HasRoom, Holds, Shares, Watches};

use crate::asking::ask;
use crate::errors::{NotMarking, StartError};
use crate::heap::Oilpan;
use crate::told::Stepped;
use gc_graph::{Command, Line, NoMemory, Want, precise_collection_is_exact};
use heap_engine::Gate;
use std::sync::Wait;
use std::thread::Threads;

impl<'a, G: Gate + Send + Sync + 'static> Oilpan<'a, G> {
    /// A whole collection, or the rest of the one that was started. Its sweep is left open.
    pub fn collect<R: Threads + Wait + Copy + Send + 'static>(
        &mut self,
        rt: &R,
    ) -> Result<(), NoMemory>
        requires room { HasRoom self.old.heap.core.state 2 }
        ensures setup { self.new.heap.core.setup ≡ self.old.heap.core.setup }
        ensures ordinal { self.new.heap.core.state.ordinal ≤ self.old.heap.core.state.ordinal + 2 }
        ensures phase { IfOk result (λ _. self.new.heap.core.state.phase ≡ Sweeping) }
        ensures exact { IfOk result (λ _. self.old.heap.core.state.phase ≢ Marking →
            CondemnsUnreached self.old.heap.core.state self.new.heap.core.state) }
        ensures stays { (o : Root) →
            Holds self.old.heap.core.state o → Holds self.new.heap.core.state o }
        ensures watches { (o : WeakRoot) →
            Watches self.old.heap.core.state self.old.watched o →
            Watches self.new.heap.core.state self.new.watched o }
        ensures shares { (o : SharedRoot) →
            Shares self.old.heap.core.state self.old.shared o →
            Shares self.new.heap.core.state self.new.shared o }
    {
        precise_collection_is_exact();
        let now = Command::GcNow {
            want: Want::Precise,
        };
        match ask(&mut self.heap, rt, &now) {
            Line::Memory => Err(NoMemory),
            // The stack is empty, so that only the phase can be in the way: marking goes on.
            Line::Refused(_) => {
                let finish = Command::GcFinish {
                    want: Want::Precise,
                };
                let _line = ask(&mut self.heap, rt, &finish);
                Ok(())
            }
            _ => Ok(()),
        }
    }

    /// Begins a collection, which `step` and `finish` go on with (`StartGarbageCollection`,
    /// `include/cppgc/testing.h`). An open sweep is ended first. Markers run from here to the pause.
    pub fn start<R: Threads + Wait + Copy + Send + 'static>(
        &mut self,
        rt: &R,
    ) -> Result<(), StartError>
        requires room { HasRoom self.old.heap.core.state 1 }
        ensures setup { self.new.heap.core.setup ≡ self.old.heap.core.setup }
        ensures ordinal { self.new.heap.core.state.ordinal ≡ self.old.heap.core.state.ordinal + 1 }
        ensures begun { IfOk result (λ _. IsBegun self.old.heap.core.setup
            self.old.heap.core.state self.new.heap.core.piece self.new.heap.core.lines
            self.new.heap.core.state) }
        ensures phase { IfOk result (λ _. self.new.heap.core.state.phase ≡ Marking) }
        ensures fault { IfErr result
            (IsStartFault self.old.heap.core.state self.new.heap.core.state) }
        ensures stays { (o : Root) →
            Holds self.old.heap.core.state o → Holds self.new.heap.core.state o }
        ensures watches { (o : WeakRoot) →
            Watches self.old.heap.core.state self.old.watched o →
            Watches self.new.heap.core.state self.new.watched o }
        ensures shares { (o : SharedRoot) →
            Shares self.old.heap.core.state self.old.shared o →
            Shares self.new.heap.core.state self.new.shared o }
    {
        match ask(&mut self.heap, rt, &Command::GcStart) {
            Line::Memory => Err(StartError::Memory),
            Line::Refused(_) => Err(StartError::Marking),
            _ => Ok(()),
        }
    }

    /// Traces up to so many objects, at least one being asked for (`PerformMarkingStep`,
    /// `include/cppgc/testing.h`).
    pub fn step<R: Threads + Wait + Copy + Send + 'static>(
        &mut self,
        rt: &R,
        count: u32,
    ) -> Result<Stepped, NotMarking>
        requires room { HasRoom self.old.heap.core.state 1 }
        requires some { 1 ≤ count }
        ensures setup { self.new.heap.core.setup ≡ self.old.heap.core.setup }
        ensures ordinal { self.new.heap.core.state.ordinal ≡ self.old.heap.core.state.ordinal + 1 }
        ensures stepped { IfOk result (λ t.
            IsStepped self.old.heap.core.state count t self.new.heap.core.state) }
        ensures fault { IfErr result (λ _.
            IsOutOf Marking self.old.heap.core.state self.new.heap.core.state) }
        ensures stays { (o : Root) →
            Holds self.old.heap.core.state o → Holds self.new.heap.core.state o }
        ensures watches { (o : WeakRoot) →
            Watches self.old.heap.core.state self.old.watched o →
            Watches self.new.heap.core.state self.new.watched o }
        ensures shares { (o : SharedRoot) →
            Shares self.old.heap.core.state self.old.shared o →
            Shares self.new.heap.core.state self.new.shared o }
    {
        match ask(&mut self.heap, rt, &Command::GcStep { n: count }) {
            Line::Step { t, done } => Ok(Stepped { traced: t, done }),
            Line::Refused(_) => Err(NotMarking),
            _ => unreachable!(),
        }
    }

    /// The pause of the collection that was started (`FinalizeGarbageCollection`,
    /// `include/cppgc/testing.h`). Its sweep is left open.
    pub fn finish<R: Threads + Wait + Copy + Send + 'static>(
        &mut self,
        rt: &R,
    ) -> Result<(), NotMarking>
        requires room { HasRoom self.old.heap.core.state 1 }
        ensures setup { self.new.heap.core.setup ≡ self.old.heap.core.setup }
        ensures ordinal { self.new.heap.core.state.ordinal ≡ self.old.heap.core.state.ordinal + 1 }
        ensures finished { IfOk result (λ _. IsFinished self.old.heap.core.setup Precise
            self.old.heap.core.state self.new.heap.core.piece self.new.heap.core.lines
            self.new.heap.core.state) }
        ensures phase { IfOk result (λ _. self.new.heap.core.state.phase ≡ Sweeping) }
        ensures fault { IfErr result (λ _.
            IsOutOf Marking self.old.heap.core.state self.new.heap.core.state) }
        ensures stays { (o : Root) →
            Holds self.old.heap.core.state o → Holds self.new.heap.core.state o }
        ensures watches { (o : WeakRoot) →
            Watches self.old.heap.core.state self.old.watched o →
            Watches self.new.heap.core.state self.new.watched o }
        ensures shares { (o : SharedRoot) →
            Shares self.old.heap.core.state self.old.shared o →
            Shares self.new.heap.core.state self.new.shared o }
    {
        let finish = Command::GcFinish {
            want: Want::Precise,
        };
        match ask(&mut self.heap, rt, &finish) {
            Line::Refused(_) => Err(NotMarking),
            _ => Ok(()),
        }
    }
}
