// A heap that does commands, as its callers have it.

ghost use Rattle.std.specs.Prelude.{◌≡◌, ◌-◌, ◌^◌, ◌<◌, ◌≤◌, ℕ, Contains};
ghost use Rattle.std.specs.Prelude.{false, true, [], ◌∷◌, length, take, Some};
ghost use Rattle.std.specs.Prelude.{IfOk, IfSome, IfNone, slice_get};
ghost use Rattle.gc_graph.specs.declared.line.Line.{Line};
ghost use Rattle.gc_graph.specs.RegionSteps.{HasDoneFirst};
ghost use Rattle.gc_graph.specs.State.{empty_state};
ghost use Rattle.gc_graph.specs.Outcomes.{finalise_lines};
ghost use Rattle.gc_graph.specs.Sections.{IsInSection};
ghost use Rattle.gc_graph.specs.Lawful.{IsAllowed, IsEndLine, summary_line};
ghost use Rattle.gc_graph.specs.Shapes.{IsShape};
ghost use Rattle.gc_graph.specs.Valid.{IsValid};
ghost use Rattle.callback_table.specs.Table.{callback_kinds};
ghost use Rattle.heap_engine.specs.Acted.{HasNumber, IsActed};
ghost use Rattle.heap_engine.specs.Going.{totals_of};
ghost use Rattle.heap_cycle.specs.Objects.{HaveCallbacks};
ghost use Rattle.heap_engine.specs.View.{no_refusals, IsClosed};
ghost use Rattle.heap_cycle.specs.Printed.{finalised_in, TellsNode};

use crate::heap_core::Core;
use callback_table::CallbackTable;
use gc_graph::{Command, Line, NoMemory};
use heap_cycle::Gate;
use std::alloc::Global;
use std::sync::{Arc, Wait};
use std::thread::Threads;
use type_table::TypeTable;

/// The owner's number at the gate.
const OWNER: u32 = 0;

/// The point before a command of the owner.
const BEFORE_COMMAND: u32 = 3;

/// The point after the owner's answer.
const AFTER_ANSWER: u32 = 4;

/// How many pages a heap has, how many words a page, and how many markers run beside its owner.
#[derive(Clone, Copy, Debug, PartialEq, Eq, Drop)]
pub struct Config {
    pub pages: u32,
    pub page_words: u32,
    pub markers: u32,
}

/// A heap, with the callbacks of its program. It belongs to one thread (`include/cppgc/heap.h`), beside
/// which its markers have threads of their own while marking goes on, and so have those of its script
/// until they are joined; all of them pass the gate. It is closed before it is let go, since a thread
/// whose heap is gone goes on by itself.
#[derive(Drop)]
pub struct Heap<'a, G> {
    callbacks: &'a CallbackTable,
    gate: Arc<G>,
    core: Core,
    pub ghost kinds: { callback_kinds callbacks.now ≡ core.setup.callbacks },
}

impl<'a, G: Gate + Send + Sync + 'static> Heap<'a, G> {
    /// An empty heap for objects of these types, which takes all the memory that its commands need
    /// but for collections, prefinalizers, calls on the region and orders of threads. Want of memory
    /// is free.
    pub fn new(
        alloc: Global,
        config: Config,
        types: TypeTable,
        callbacks: &'a CallbackTable,
        gate: &Arc<G>,
    ) -> Result<Heap<'a, G>, NoMemory>
        requires shape { IsShape (record { pages = config.pages; page_words = config.page_words }) }
        requires few { config.markers ≤ 8 }
        requires called { HaveCallbacks (length (callback_kinds callbacks.now)) types }
        ensures setup { IfOk result (λ h. h.core.setup ≡ record {
          shape = record { pages = config.pages; page_words = config.page_words };
          markers = config.markers;
          types = types;
          callbacks = callback_kinds callbacks.now;
        }) }
        ensures state { IfOk result (λ h. h.core.state ≡ empty_state) }
        ensures history { IfOk result (λ h. h.core.history ≡ []) }
        ensures out { IfOk result (λ h. h.core.out ≡ []) }
        ensures published { IfOk result (λ h. h.core.published ≡ totals_of empty_state) }
        ensures lines { IfOk result (λ h. h.core.lines ≡ []) }
        ensures closed { IfOk result (λ h. h.core.closed ≡ false) }
        ensures marked { IfOk result (λ h. h.core.marked ≡ []) }
        ensures traced { IfOk result (λ h. h.core.traced ≡ []) }
        ensures refusals { IfOk result (λ h. h.core.refusals ≡ no_refusals) }
        ensures lent { IfOk result (λ h. h.core.lent ≡ 0) }
    {
        let core = Core::new(alloc, config, types, callbacks)?;
        let Ok(gate) = Arc::try_clone(gate) else {
            return Err(NoMemory);
        };
        Ok(Heap {
            callbacks,
            gate,
            core,
        })
    }

    /// Runs a command, and publishes the heap's totals. The answer is the number of lines that `line` then
    /// tells. `threads join` waits for the threads of the script, and a pause for the markers.
    pub fn act<R: Threads + Wait + Copy + Send + 'static>(
        &mut self,
        rt: &R,
        command: &Command,
    ) -> u64
        requires few { self.old.core.state.ordinal < 2 ^ 64 - 1 }
        requires numbered { HasNumber self.old.core.state.nodes command.now }
        requires opened { self.old.core.closed ≡ false }
        requires allowed { IsAllowed (length self.old.core.setup.types) command.now }
        requires section { IsInSection self.old.core.state.awaiting command.now }
        ensures acted { IsActed self.old.core self.new.core command.now result }
        ensures told { 0 < result }
    {
        self.gate.pass(OWNER, BEFORE_COMMAND);
        let count = self.core.act(rt, command, self.callbacks, &self.gate);
        self.gate.pass(OWNER, AFTER_ANSWER);
        count
    }

    /// Runs a command as `act` does, and tells the last line of its outcome.
    pub fn ask<R: Threads + Wait + Copy + Send + 'static>(
        &mut self,
        rt: &R,
        command: &Command,
    ) -> Line
        requires few { self.old.core.state.ordinal < 2 ^ 64 - 1 }
        requires numbered { HasNumber self.old.core.state.nodes command.now }
        requires opened { self.old.core.closed ≡ false }
        requires allowed { IsAllowed (length self.old.core.setup.types) command.now }
        requires section { IsInSection self.old.core.state.awaiting command.now }
        ensures acted { IsActed self.old.core self.new.core command.now
            (length self.new.core.lines) }
        ensures line { slice_get self.new.core.lines (length self.new.core.lines - 1)
            ≡ Some result }
    {
        let _count = self.act(rt, command);
        self.core.last_line()
    }

    /// A line of the last outcome.
    pub fn line(&mut self, index: u64) -> Line
        requires { index < length self.old.core.lines }
        ensures line { slice_get self.old.core.lines index ≡ Some result }
        ensures same { self.new.core ≡ self.old.core }
    {
        self.core.line(index)
    }

    /// The line of the last outcome, where it has one alone, unless that tells a finalised node or
    /// a prefinalizer.
    pub fn only_line(&self) -> Option<&Line>
        ensures line { IfSome result (λ line. self.now.core.lines ≡ line.now ∷ []) }
        ensures none { IfNone result ((line : Line) → self.now.core.lines ≡ line ∷ []
            → TellsNode line) }
    {
        self.core.only_line()
    }

    /// The numbers of all nodes that the last command finalised, whose lines come first.
    pub fn finalised(&self) -> &[u32]
        ensures few { length result.now ≤ length self.now.core.lines }
        ensures lines { take (length result.now) self.now.core.lines ≡ finalise_lines result.now }
        ensures all { result.now ≡ finalised_in self.now.core.lines }
    {
        self.core.finalised()
    }

    /// The state of a heap that isn't closed is valid. Whoever calls this has the law.
    pub fn is_valid(&self)
        requires { self.now.core.closed ≡ false }
        ensures { IsValid self.now.core.setup self.now.core.state }
    {
        self.core.is_valid();
    }

    /// No more nodes were made than commands were done. Whoever calls this has the law.
    pub fn nodes_are_few(&self)
        ensures { length self.now.core.state.nodes ≤ self.now.core.state.ordinal }
    {
        self.core.nodes_are_few();
    }

    /// The line that tells how many commands, pauses, finalised objects and full outcomes there were,
    /// and what the heap holds.
    pub fn summary(&self) -> Line
        ensures { result ≡ summary_line self.now.core.state }
    {
        self.core.summary()
    }

    /// Ends the heap's run: markers that run are stopped and joined, and so are threads that run. Answers
    /// the line that counts what is not finalised.
    pub fn close<R: Threads + Wait>(&mut self, rt: &R) -> Line
        ensures line { IsEndLine self.old.core.setup self.old.core.state result }
        ensures begun { (j : ℕ) → Contains self.old.core.state.running j
            → HasDoneFirst self.old.core.state self.old.core.state.unprinted j }
        ensures closed { IsClosed self.old.core self.new.core }
    {
        self.core.close(rt)
    }
}
