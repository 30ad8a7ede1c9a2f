// The registrations of weak callbacks (`WeakCallback`, `include/cppgc/visitor.h`).

ghost use Rattle.std.specs.Prelude.{◌≡◌, ◌-◌, ◌<◌, ◌≤◌, [], ◌∷◌, ◌++◌, OnOk, OnErr, length, map, take};
ghost use Rattle.std.specs.Prelude.{drop, if◌then◌else◌};
ghost use Rattle.callback_table.specs.Asking.{MayBeAsked};
ghost use Rattle.callback_table.specs.WeakRegistry.{WeakRegistryView, weakly_registered};
ghost use Rattle.callback_table.specs.WeakRegistry.{weakly_placed_at, places_of};
ghost use Rattle.callback_table.specs.WeakRegistry.{weak_registration_of, AreLeftByAnswers};

use crate::registry::reserve_ran;
use gc_graph::NoMemory;
use std::alloc::Global;
use std::marker::Model;

/// How many callbacks can be registered in all.
const MOST_CALLS: usize = 4_294_967_295;

/// The weak callbacks of the node at the place, and the mask that it was given last.
#[derive(Drop)]
pub struct WeakRegistered {
    pub node: u32,
    pub place: u32,
    pub callbacks: Vec<u32>,
    pub mask: u64,
}

/// Registrations in the order in which they were made, how many callbacks they have, and what was run
/// last.
#[derive(Drop)]
pub struct WeakRegistry {
    pub(crate) entries: Vec<WeakRegistered>,
    pub(crate) calls: usize,
    pub(crate) ran: Vec<(u32, u32)>,
}

impl Model for WeakRegistry {
    ghost use Rattle.std.specs.Prelude.{◌≡◌, ◌≤◌, length, sum_by, vec_capacity};
    ghost use Rattle.callback_table.specs.WeakRegistry.{WeakRegistryView, weak_registrations_of};

    ghost Value = { WeakRegistryView };

    ghost view = { λ r. record { entries = weak_registrations_of r.entries.items; ran = r.ran.items } };

    ghost invariant = { λ r. (r.calls ≡ sum_by (λ entry. length entry.callbacks.items) r.entries.items)
        × (r.calls ≤ vec_capacity r.ran) × (r.calls ≤ 4294967295)
        × (length r.ran.items ≤ 4294967295) };
}

impl WeakRegistry {
    /// No registrations. Takes no memory.
    pub fn new(alloc: Global) -> WeakRegistry
        ensures { result ≡ record { entries = []; ran = [] } }
    {
        WeakRegistry {
            entries: Vec::new(alloc),
            calls: 0,
            ran: Vec::new(alloc),
        }
    }

    /// Registers the weak callbacks of the node at the place (`Visitor::RegisterWeakCallback`,
    /// `include/cppgc/visitor.h`). Want of memory is free; over 4,294,967,295 callbacks find none.
    pub fn register(&mut self, node: u32, place: u32, callbacks: &[u32]) -> Result<(), NoMemory>
        ensures entries { OnOk result (self.new.entries
            ≡ self.old.entries ++ weakly_registered node place callbacks.now ∷ []) }
        ensures ran { self.new.ran ≡ self.old.ran }
        ensures full { OnErr result (self.new ≡ self.old) }
    {
        if callbacks.len() > MOST_CALLS - self.calls {
            return Err(NoMemory);
        }
        self.entries.reserve(1)?;
        // Each callback may be run, and has its room in what ran.
        let calls = self.calls + callbacks.len();
        reserve_ran(&mut self.ran, calls)?;
        let alloc = *self.entries.allocator();
        let callbacks = callbacks.iter().copied().collect(alloc)?;
        self.entries.push_reserved(WeakRegistered {
            node,
            place,
            callbacks,
            mask: 0,
        });
        self.calls = calls;
        Ok(())
    }

    /// Takes the last registration away.
    pub fn unregister_last(&mut self)
        requires { 0 < length self.old.entries }
        ensures entries { self.new.entries ≡ take (length self.old.entries - 1) self.old.entries }
        ensures ran { self.new.ran ≡ self.old.ran }
    {
        let last = self.entries.len() - 1;
        self.calls -= self.entries[last].callbacks.len();
        self.entries.truncate(last);
    }

    /// Gives the place to the last registration.
    pub fn place_last(&mut self, place: u32)
        requires { 0 < length self.old.entries }
        ensures entries { self.new.entries
            ≡ take (length self.old.entries - 1) self.old.entries
            ++ map (weakly_placed_at place) (drop (length self.old.entries - 1) self.old.entries) }
        ensures ran { self.new.ran ≡ self.old.ran }
    {
        let last = self.entries.len() - 1;
        self.entries[last].place = place;
    }

    /// Asks for the mask of each place, from the first registration to the last. A registration for
    /// which there is none goes, and the others keep the mask. Takes no memory.
    pub fn prepare<F: FnMut(u32) -> Option<u64>>(&mut self, mask: &mut F)
        requires { MayBeAsked F.pre F.step mask.old (places_of self.old.entries) }
        ensures left { AreLeftByAnswers F.step mask.old mask.new
            self.old.entries self.new.entries }
        ensures ran { self.new.ran ≡ self.old.ran }
    {
        let mut kept = 0;
        let mut calls = 0;
        for i in 0..self.entries.len() {
            if ask(&mut self.entries[i], mask) {
                calls += self.entries[i].callbacks.len();
                self.entries.swap(kept, i);
                kept += 1;
            }
        }
        self.entries.truncate(kept);
        self.calls = calls;
    }

    /// The node and the callback of each that the last `run` ran, in the order in which they ran.
    pub fn ran(&self) -> &[(u32, u32)]
        ensures ran { result.now ≡ self.now.ran }
        ensures few { length result.now ≤ 4294967295 }
    {
        &self.ran
    }
}

/// Whether there is a mask for the place. If so the registration has it.
fn ask<F: FnMut(u32) -> Option<u64>>(entry: &mut WeakRegistered, mask: &mut F) -> bool
    requires { MayBeAsked F.pre F.step mask.old (entry.old.place ∷ []) }
    ensures left { AreLeftByAnswers F.step mask.old mask.new
        (weak_registration_of entry.old ∷ [])
        (if result then weak_registration_of entry.new ∷ [] else []) }
    ensures callbacks { entry.new.callbacks ≡ entry.old.callbacks }
{
    match mask(entry.place) {
        Some(given) => {
            entry.mask = given;
            true
        }
        None => false,
    }
}
