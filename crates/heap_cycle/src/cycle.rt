// The collection cycle: its phase, which is one of three stages, and its registered callbacks.

ghost use Rattle.std.specs.Prelude.{◌≡◌, ◌-◌, ◌<◌, ◌≤◌, true, false};
ghost use Rattle.std.specs.Prelude.{[], ◌++◌, IfOk, OnOk, OnErr, length, map, take};
ghost use Rattle.gc_graph.specs.declared.phase.Phase.TheVariants.{Idle, Marking};
ghost use Rattle.gc_graph.specs.State.{empty_state};
ghost use Rattle.gc_graph.specs.Outcomes.{answered};
ghost use Rattle.gc_graph.specs.CycleSteps.{is_marking};
ghost use Rattle.callback_table.specs.Registry.{registered};
ghost use Rattle.callback_table.specs.Registrations.{weakly_registered_all, last_of};
ghost use Rattle.callback_table.specs.Registrations.{weakly_without, weakly_placed_last};
ghost use Rattle.heap_cycle.specs.Changes.{filled, placed_last, with_new};
ghost use Rattle.heap_cycle.specs.Counts.{counts_of};
ghost use Rattle.heap_cycle.specs.Views.{ran_of};

use crate::states::{self, States};
use callback_table::{LastRegistered, Registrations};
use gc_graph::{NoMemory, Phase};
use ghost_values::GhostValue;
use heap_roots::Sweep;
use std::alloc::Global;
use std::marker::Model;

/// How many commands were answered, how many pauses there were, how many objects were finalised, and
/// how many outcomes were full. A count that comes to its type's last value stays there.
#[derive(Clone, Copy, Drop)]
pub struct Counts {
    pub ordinal: u64,
    pub pauses: u64,
    pub finalised: u64,
    pub full: u64,
}

/// The phase of the cycle, how far its sweep has come, the registered callbacks, and what is
/// counted.
#[derive(Drop)]
pub struct Cycle {
    pub(crate) phase: Phase,
    pub(crate) sweep: Sweep,
    pub(crate) registered: Registrations,
    pub(crate) counts: Counts,
    /// What no other part holds of the state.
    pub(crate) rest: GhostValue<States>,
}

impl Model for Cycle {
    ghost use Rattle.heap_cycle.specs.Views.{CycleView};
    ghost use Rattle.heap_cycle.specs.Views.{ran_of};
    ghost use Rattle.heap_cycle.specs.Counts.{counts_of};
    ghost use Rattle.std.specs.Prelude.{◌≡◌};

    ghost Value = { CycleView };

    ghost view = { λ c. record {
      phase = c.phase;
      sweep = c.sweep;
      registered = c.registered.prefinalizers.entries;
      weakly = c.registered.weak_callbacks.entries;
      ran = ran_of c.registered;
      rest = c.rest.value;
    } };

    ghost invariant = { λ c. c.counts ≡ counts_of c.rest.value };
}

impl Cycle {
    /// The cycle of a heap of so many pages that has done nothing.
    pub fn new(alloc: Global, pages: u32) -> Cycle
        ensures { result ≡ record {
          phase = Idle;
          sweep = record { pages = pages; cursor = pages };
          registered = [];
          weakly = [];
          ran = record { weak = []; prefinalised = [] };
          rest = empty_state;
        } }
    {
        Cycle {
            phase: Phase::Idle,
            sweep: Sweep::idle(pages),
            registered: Registrations::new(alloc),
            counts: Counts {
                ordinal: 0,
                pauses: 0,
                finalised: 0,
                full: 0,
            },
            rest: states::empty(),
        }
    }

    /// The phase.
    pub fn phase(&self) -> Phase
        ensures { result ≡ self.now.phase }
    {
        self.phase
    }

    /// Whether marking goes on.
    pub fn is_marking(&self) -> bool
        ensures { result ≡ is_marking self.now.phase }
    {
        matches!(self.phase, Phase::Marking)
    }

    /// What is counted.
    pub fn counts(&self) -> Counts
        ensures { result ≡ counts_of self.now.rest }
    {
        self.counts
    }

    /// Marking has begun, and this is what no other part holds of the state.
    pub(crate) fn begin(&mut self, rest: GhostValue<States>)
        requires { counts_of rest.value ≡ counts_of self.old.rest }
        ensures { self.new ≡ record self.old { phase = Marking; rest = rest.value } }
    {
        self.rest = rest;
        self.phase = Phase::Marking;
    }

    /// This is now what no other part holds of the state, in the same phase.
    pub(crate) fn take(&mut self, rest: GhostValue<States>)
        requires { counts_of rest.value ≡ counts_of self.old.rest }
        ensures { self.new ≡ record self.old { rest = rest.value } }
    {
        self.rest = rest;
    }

    /// A new object may be kept, where marking goes on.
    pub fn keep_new(&mut self)
        ensures { self.new ≡ record self.old { rest = with_new self.old.phase self.old.rest } }
    {
        self.rest = states::with_new(self.phase, &self.rest);
    }

    /// Counts a command that was answered.
    pub fn count_command(&mut self)
        ensures { self.new ≡ record self.old { rest = answered self.old.rest } }
    {
        self.counts.ordinal = self.counts.ordinal.saturating_add(1);
        self.rest = states::answered(&self.rest);
    }

    /// Counts an outcome that was full.
    pub fn count_full(&mut self)
        ensures { self.new ≡ record self.old { rest = filled self.old.rest } }
    {
        self.counts.full = self.counts.full.saturating_add(1);
        self.rest = states::filled(&self.rest);
    }

    /// Registers the callbacks of the object with this number, which has no place yet, and answers
    /// which of the last registrations these are. Want of memory is free.
    pub fn register(
        &mut self,
        number: u32,
        prefinalizers: &[u32],
        weak_callbacks: &[u32],
    ) -> Result<LastRegistered, NoMemory>
        requires { length prefinalizers.now ≤ 4294967295 }
        ensures entries { OnOk result (self.new ≡ record self.old {
          registered = self.old.registered ++ map (registered number 0) prefinalizers.now;
          weakly = self.old.weakly ++ weakly_registered_all number 0 weak_callbacks.now;
        }) }
        ensures last { IfOk result (λ last. last
            ≡ last_of prefinalizers.now weak_callbacks.now) }
        ensures full { OnErr result (self.new ≡ self.old) }
    {
        self.registered
            .register(number, prefinalizers, weak_callbacks)
    }

    /// The object of the last registrations got its place.
    pub fn place_last(&mut self, last: LastRegistered, place: u32)
        requires prefinalizers { last.prefinalizers ≤ length self.old.registered }
        requires weak { last.weakly ≡ true → 0 < length self.old.weakly }
        ensures { self.new ≡ record self.old {
          registered = placed_last last.prefinalizers place self.old.registered;
          weakly = weakly_placed_last last place self.old.weakly;
        } }
    {
        self.registered.place_last(last, place);
    }

    /// Takes the last registrations away.
    pub fn unregister_last(&mut self, last: LastRegistered)
        requires prefinalizers { last.prefinalizers ≤ length self.old.registered }
        requires weak { last.weakly ≡ true → 0 < length self.old.weakly }
        ensures { self.new ≡ record self.old {
          registered = take (length self.old.registered - last.prefinalizers) self.old.registered;
          weakly = weakly_without last self.old.weakly;
        } }
    {
        self.registered.unregister_last(last);
    }

    /// The registrations, which tell the callbacks that the last pause ran.
    pub fn registered(&self) -> &Registrations
        ensures { ran_of result.now ≡ self.now.ran }
    {
        &self.registered
    }
}
