// The parts of a heap, and the outcome of its last command. Each command is one step of the graph;
// `commands` says which function does it.

ghost use Rattle.std.specs.Prelude.{◌≡◌, ◌-◌, ◌^◌, ◌<◌, ℕ, Contains};
ghost use Rattle.std.specs.Prelude.{true, false, [], ◌∷◌, length, take, Some};
ghost use Rattle.std.specs.Prelude.{◌≤◌, IfOk, IfSome, IfNone, slice_get};
ghost use Rattle.gc_graph.specs.declared.line.Line.{Line};
ghost use Rattle.gc_graph.specs.RegionSteps.{HasDoneFirst};
ghost use Rattle.gc_graph.specs.State.{empty_state};
ghost use Rattle.gc_graph.specs.Sections.{IsInSection};
ghost use Rattle.gc_graph.specs.Outcomes.{finalise_lines};
ghost use Rattle.gc_graph.specs.Lawful.{IsAllowed, IsEndLine, summary_line};
ghost use Rattle.gc_graph.specs.Shapes.{IsShape};
ghost use Rattle.gc_graph.specs.Valid.{IsValid};
ghost use Rattle.callback_table.specs.Table.{callback_kinds};
ghost use Rattle.heap_engine.specs.Acted.{HasNumber, IsActed};
ghost use Rattle.heap_engine.specs.Going.{totals_of};
ghost use Rattle.heap_cycle.specs.Objects.{HaveCallbacks};
ghost use Rattle.heap_engine.specs.View.{no_refusals, IsClosed};
ghost use Rattle.heap_cycle.specs.Printed.{finalised_in, TellsNode};

use crate::commands::run;
use crate::heap::Config;
use crate::publishing::publish;
use crate::since::{StateLists, after, no_states};
use callback_table::CallbackTable;
use cross_thread_region::Histories;
use gc_graph::{Command, Line, NoMemory};
use ghost_values::GhostValue;
use heap_cycle::{Cycle, Gate, Handles, Objects, Outcome, OwnedRegion, Parts};
use std::alloc::Global;
use std::marker::Model;
use std::sync::{Arc, Wait};
use std::thread::Threads;
use type_table::TypeTable;

/// A heap but for its callbacks: what contracts speak of.
#[derive(Drop)]
pub struct Core {
    parts: Parts,
    /// What commands had taken of the region's history just before the last one.
    before: GhostValue<Histories>,
    /// The states since threads went last.
    since: GhostValue<StateLists>,
    outcome: Outcome,
    closed: bool,
}

impl Model for Core {
    ghost use Rattle.heap_engine.specs.View.{View};

    ghost Value = { View };

    ghost use Rattle.heap_engine.specs.Sound.{view_of, IsSound};

    ghost view = { view_of };

    ghost invariant = { IsSound };
}

impl Core {
    /// An empty heap. Want of memory is free.
    pub fn new(
        alloc: Global,
        config: Config,
        types: TypeTable,
        callbacks: &CallbackTable,
    ) -> Result<Core, NoMemory>
        requires shape { IsShape (record { pages = config.pages; page_words = config.page_words }) }
        requires few { config.markers ≤ 8 }
        requires called { HaveCallbacks (length (callback_kinds callbacks.now)) types }
        ensures setup { IfOk result (λ h. h.setup ≡ record {
          shape = record { pages = config.pages; page_words = config.page_words };
          markers = config.markers;
          types = types;
          callbacks = callback_kinds callbacks.now;
        }) }
        ensures state { IfOk result (λ h. h.state ≡ empty_state) }
        ensures history { IfOk result (λ h. h.history ≡ []) }
        ensures out { IfOk result (λ h. h.out ≡ []) }
        ensures published { IfOk result (λ h. h.published ≡ totals_of empty_state) }
        ensures lines { IfOk result (λ h. h.lines ≡ []) }
        ensures closed { IfOk result (λ h. h.closed ≡ false) }
        ensures marked { IfOk result (λ h. h.marked ≡ []) }
        ensures traced { IfOk result (λ h. h.traced ≡ []) }
        ensures refusals { IfOk result (λ h. h.refusals ≡ no_refusals) }
        ensures lent { IfOk result (λ h. h.lent ≡ 0) }
    {
        gc_graph::empty_is_valid();
        // A header can name each type.
        let _count = types.count();
        let objects = Objects::new(
            alloc,
            config.pages,
            config.page_words,
            config.markers,
            types,
            callbacks,
        )?;
        let outcome = Outcome::new(alloc, objects.word_count() as usize / 2 + 1)?;
        let handles = Handles::new(alloc)?;
        let region = OwnedRegion::new(alloc)?;
        let cycle = Cycle::new(alloc, config.pages);
        Ok(Core {
            before: region.history(),
            parts: Parts {
                objects,
                handles,
                cycle,
                region,
            },
            since: no_states(),
            outcome,
            closed: false,
        })
    }

    pub fn act<R: Threads + Wait + Copy + Send + 'static, G: Gate + Send + Sync + 'static>(
        &mut self,
        rt: &R,
        command: &Command,
        callbacks: &CallbackTable,
        gate: &Arc<G>,
    ) -> u64
        requires few { self.old.state.ordinal < 2 ^ 64 - 1 }
        requires numbered { HasNumber self.old.state.nodes command.now }
        requires opened { self.old.closed ≡ false }
        requires allowed { IsAllowed (length self.old.setup.types) command.now }
        requires section { IsInSection self.old.state.awaiting command.now }
        requires kinds { callback_kinds callbacks.now ≡ self.old.setup.callbacks }
        ensures acted { IsActed self.old self.new command.now result }
        ensures told { 0 < result }
    {
        self.parts.objects.shape_is_valid();
        gc_graph::step_keeps_valid();
        gc_graph::steps_count();
        gc_graph::steps_follow_the_history();
        gc_graph::nodes_stay_put();
        gc_graph::commands_are_answered_in_kind();
        self.before = self.parts.region.history();
        self.since = after(&self.since, &self.parts, command);
        self.outcome.begin();
        self.parts.region.begin();
        run(
            rt,
            &mut self.parts,
            &mut self.outcome,
            callbacks,
            gate,
            command,
        );
        self.parts.objects.seat_has_all_words();
        self.parts.cycle.count_command();
        publish(rt, &mut self.parts);
        u64::from(self.parts.region.told_count())
            + self.outcome.count(self.parts.cycle.registered())
    }

    pub fn line(&mut self, index: u64) -> Line
        requires { index < length self.old.lines }
        ensures line { slice_get self.old.lines index ≡ Some result }
        ensures same { self.new ≡ self.old }
    {
        let told = u64::from(self.parts.region.told_count());
        if index < told {
            return self.parts.region.told_line(index as u32);
        }
        self.outcome
            .line(index - told, self.parts.cycle.registered())
    }

    pub fn only_line(&self) -> Option<&Line>
        ensures line { IfSome result (λ line. self.now.lines ≡ line.now ∷ []) }
        ensures none { IfNone result ((line : Line) → self.now.lines ≡ line ∷ [] → TellsNode line) }
    {
        if self.parts.region.told_count() > 0 {
            return None;
        }
        self.outcome.only_line()
    }

    pub fn last_line(&self) -> Line
        requires { 0 < length self.now.lines }
        ensures { slice_get self.now.lines (length self.now.lines - 1) ≡ Some result }
    {
        self.outcome.last_line(self.parts.cycle.registered())
    }

    pub fn finalised(&self) -> &[u32]
        ensures few { length result.now ≤ length self.now.lines }
        ensures lines { take (length result.now) self.now.lines ≡ finalise_lines result.now }
        ensures all { result.now ≡ finalised_in self.now.lines }
    {
        self.outcome.finalised()
    }

    pub fn is_valid(&self)
        requires { self.now.closed ≡ false }
        ensures { IsValid self.now.setup self.now.state }
    {
        let _parts = &self.parts;
    }

    pub fn nodes_are_few(&self)
        ensures { length self.now.state.nodes ≤ self.now.state.ordinal }
    {
        let _parts = &self.parts;
    }

    pub fn summary(&self) -> Line
        ensures { result ≡ summary_line self.now.state }
    {
        let (objects, used, _pages) = self.parts.objects.totals();
        let counts = self.parts.cycle.counts();
        Line::Summary {
            c: counts.ordinal,
            y: counts.pauses,
            n: u64::from(objects),
            u: u64::from(used),
            f: counts.finalised,
            full: counts.full,
        }
    }

    pub fn close<R: Threads + Wait>(&mut self, rt: &R) -> Line
        ensures line { IsEndLine self.old.setup self.old.state result }
        ensures begun { (j : ℕ) → Contains self.old.state.running j
            → HasDoneFirst self.old.state self.old.state.unprinted j }
        ensures closed { IsClosed self.old self.new }
    {
        let (n, u, g) = self.parts.objects.totals();
        self.stop(rt);
        Line::End { n, u, g }
    }

    /// Joins the markers of an open cycle, which is left without a pause, and the threads that run.
    fn stop<R: Threads + Wait>(&mut self, rt: &R)
        ensures begun { (j : ℕ) → Contains self.old.state.running j
            → HasDoneFirst self.old.state self.old.state.unprinted j }
        ensures closed { IsClosed self.old self.new }
    {
        if !self.closed {
            heap_cycle::join_crew(rt, &mut self.parts);
        }
        self.parts.region.close(rt);
        self.closed = true;
    }
}
