// The handles of a heap: its strong slots and its weak ones (`Persistent` and `WeakPersistent`,
// `include/cppgc/persistent.h`), and its stack.

ghost use Rattle.std.specs.Prelude.{◌≡◌, ◌<◌, None, IfOk, length, replicate};
ghost use Rattle.std.specs.Prelude.{slice_index_or, slice_set, option_map};
ghost use Rattle.gc_graph.specs.Fields.{content_of};
ghost use Rattle.gc_graph.specs.ObjectSteps.{part_of};
ghost use Rattle.heap_roots.specs.Handles.{slot_word, slot_part};
ghost use Rattle.heap_roots.specs.Stack.{empty_stack};
ghost use Rattle.heap_roots.specs.Handles.{put_in, copied_in, weakened_in};

use crate::slot_lists::{self, SlotLists};
use crate::stack::Stack;
use gc_graph::NoMemory;
use ghost_values::GhostValue;
use heap_region::{Content, Names};
use object_headers::reference_to;
use persistent_slots::Slots;
use std::alloc::Global;
use std::marker::Model;

const STRONG: u32 = 256;

const WEAK: u32 = 64;

/// The strong slots and the weak ones, and the stack. Each slot holds a place; which node it names
/// is known to contracts alone.
#[derive(Drop)]
pub struct Handles {
    pub(crate) strong: Slots,
    pub(crate) strong_nodes: GhostValue<SlotLists>,
    pub(crate) weak: Slots,
    pub(crate) weak_nodes: GhostValue<SlotLists>,
    pub(crate) stack: Stack,
}

impl Model for Handles {
    ghost use Rattle.std.specs.Prelude.{◌≡◌, length};
    ghost use Rattle.heap_roots.specs.Handles.{HandlesView};

    ghost Value = { HandlesView };

    ghost view = { λ h. record {
      places = h.strong;
      slots = h.strong_nodes.value;
      weak_places = h.weak;
      weak = h.weak_nodes.value;
      stack = h.stack;
    } };

    ghost invariant = { λ h. (length h.strong ≡ 256) × (length h.weak ≡ 64) };
}

impl Handles {
    /// Slots that are all null, and a stack without words. Want of memory is free.
    pub fn new(alloc: Global) -> Result<Handles, NoMemory>
        ensures { IfOk result (λ h. h ≡ record {
          places = replicate 256 None;
          slots = replicate 256 None;
          weak_places = replicate 64 None;
          weak = replicate 64 None;
          stack = empty_stack;
        }) }
    {
        let strong = Slots::new(alloc, STRONG)?;
        let weak = Slots::new(alloc, WEAK)?;
        let stack = Stack::new(alloc)?;
        Ok(Handles {
            strong,
            strong_nodes: slot_lists::null(STRONG),
            weak,
            weak_nodes: slot_lists::null(WEAK),
            stack,
        })
    }

    /// The place of what slot p names.
    pub fn place(&self, p: u32) -> Option<u32>
        requires { p < 256 }
        ensures { result ≡ slice_index_or self.now.places p None }
    {
        self.strong.get(p)
    }

    /// The place of what weak slot w names.
    pub fn weak_place(&self, w: u32) -> Option<u32>
        requires { w < 64 }
        ensures { result ≡ slice_index_or self.now.weak_places w None }
    {
        self.weak.get(w)
    }

    /// Slot p gets the place and the number of the target, or becomes null.
    pub fn put(&mut self, p: u32, target: Option<(u32, u32)>)
        requires { p < 256 }
        ensures { self.new ≡ put_in self.old p target }
    {
        fill(&mut self.strong, p, place_in(target));
        self.strong_nodes = slot_lists::with_target(&self.strong_nodes, p, target);
    }

    /// Slot q gets what slot p holds.
    pub fn copy(&mut self, p: u32, q: u32)
        requires from { p < 256 }
        requires into { q < 256 }
        ensures { self.new ≡ copied_in self.old p q }
    {
        self.strong.copy(p, q);
        self.strong_nodes = slot_lists::copied(&self.strong_nodes, p, &self.strong_nodes, q);
    }

    /// Weak slot w gets what slot p holds.
    pub fn weaken(&mut self, w: u32, p: u32)
        requires into { w < 64 }
        requires from { p < 256 }
        ensures { self.new ≡ weakened_in self.old w p }
    {
        fill(&mut self.weak, w, self.strong.get(p));
        self.weak_nodes = slot_lists::copied(&self.strong_nodes, p, &self.weak_nodes, w);
    }

    /// Which node slot p names, for contracts alone.
    pub fn named(&self, p: u32) -> GhostValue<Names>
        ensures { result.value ≡ slice_index_or self.now.slots p None }
    {
        slot_lists::named(&self.strong_nodes, p)
    }

    /// What slot q holds, as the content of a field.
    pub fn content(&self, q: u32) -> Content
        requires { q < 256 }
        ensures word { result.word ≡ slot_word (slice_index_or self.now.places q None) }
        ensures value { result.value.value
            ≡ content_of (slice_index_or self.now.slots q None) }
    {
        Content {
            word: reference_of(self.strong.get(q)),
            value: slot_lists::value_of(&self.strong_nodes, q),
        }
    }

    /// What slot q holds, as one part of a pair whose other part slot `other` holds: null where
    /// either slot is.
    pub fn part(&self, q: u32, other: u32) -> Content
        requires own { q < 256 }
        requires other { other < 256 }
        ensures word { result.word ≡ slot_part (slice_index_or self.now.places q None)
            (slice_index_or self.now.places other None) }
        ensures value { result.value.value ≡ part_of (slice_index_or self.now.slots q None)
            (slice_index_or self.now.slots other None) }
    {
        Content {
            word: part_reference(self.strong.get(q), self.strong.get(other)),
            value: slot_lists::part_of(&self.strong_nodes, q, other),
        }
    }
}

/// The reference word of what a slot holds, where another slot holds something too.
fn part_reference(slot: Option<u32>, other: Option<u32>) -> u64
    ensures { result ≡ slot_part slot other }
{
    match (slot, other) {
        (Some(place), Some(_)) => reference_to(place),
        _ => 0,
    }
}

/// The reference word of what a slot holds.
fn reference_of(slot: Option<u32>) -> u64
    ensures { result ≡ slot_word slot }
{
    match slot {
        Some(place) => reference_to(place),
        None => 0,
    }
}

/// What a slot holds that names the target.
fn place_in(target: Option<(u32, u32)>) -> Option<u32>
    ensures { result ≡ option_map (λ t. t.0) target }
{
    match target {
        Some((place, _)) => Some(place),
        None => None,
    }
}

/// Slot i holds the place, or nothing.
fn fill(slots: &mut Slots, i: u32, place: Option<u32>)
    requires { i < length slots.old }
    ensures { slots.new ≡ slice_set slots.old i place }
{
    match place {
        Some(place) => slots.set(i, place),
        None => slots.clear(i),
    }
}
