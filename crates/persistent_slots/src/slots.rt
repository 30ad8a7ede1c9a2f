// Slots, each of which holds a place or nothing (`include/cppgc/persistent.h`).

ghost use Rattle.std.specs.Prelude.{◌≡◌, ℕ, ◌<◌, Bool, [], ◌∷◌, None, Some, IfOk};
ghost use Rattle.std.specs.Prelude.{length, map, replicate, slice_index_or, slice_set};
ghost use Rattle.gc_graph.specs.Pause.{clear_slot};
ghost use Rattle.persistent_slots.specs.Clearing.{AsksInTurn, MayBeAsked, ClearsOne};
ghost use Rattle.persistent_slots.specs.Clearing.{ClearsInTurn, AnswersBy};

use gc_graph::NoMemory;
use std::alloc::Global;
use std::marker::Model;

/// Slots, numbered from 0. A place is the address of an object's first word.
#[derive(Drop)]
pub struct Slots {
    places: Vec<Option<u32>>,
}

impl Model for Slots {
    ghost use Rattle.std.specs.Prelude.{List, ℕ, Option};

    ghost Value = { List (Option ℕ) };

    ghost view = { λ s. s.places.items };

    ghost use Rattle.std.specs.Prelude.{◌<◌, ◌^◌, length};

    ghost invariant = { λ s. length s.places.items < 2 ^ 32 };
}

impl Slots {
    /// So many slots, all empty. Want of memory is free.
    pub fn new(alloc: Global, n: u32) -> Result<Slots, NoMemory>
        ensures { IfOk result (λ slots. slots ≡ replicate n None) }
    {
        let mut places = Vec::with_capacity(alloc, n as usize)?;
        for _slot in 0..n {
            places.push_reserved(None);
        }
        Ok(Slots { places })
    }

    /// How many slots there are.
    pub fn len(&self) -> u32
        ensures { result ≡ length self.now }
    {
        self.places.len() as u32
    }

    /// The place that slot i holds.
    pub fn get(&self, i: u32) -> Option<u32>
        requires { i < length self.now }
        ensures { result ≡ slice_index_or self.now i None }
    {
        self.places[i as usize]
    }

    /// Slot i holds the place.
    pub fn set(&mut self, i: u32, place: u32)
        requires { i < length self.old }
        ensures { self.new ≡ slice_set self.old i (Some place) }
    {
        self.places[i as usize] = Some(place);
    }

    /// Slot i becomes empty.
    pub fn clear(&mut self, i: u32)
        requires { i < length self.old }
        ensures { self.new ≡ slice_set self.old i None }
    {
        self.places[i as usize] = None;
    }

    /// A slot holds what another one holds.
    pub fn copy(&mut self, from: u32, into: u32)
        requires from { from < length self.old }
        requires into { into < length self.old }
        ensures { self.new ≡ slice_set self.old into (slice_index_or self.old from None) }
    {
        self.places[into as usize] = self.places[from as usize];
    }

    /// Asks the test of each place, from the first slot to the last, and empties the slots whose
    /// place it calls dead.
    pub fn clear_dead<F: FnMut(u32) -> bool>(&mut self, mut dead: F)
        requires { MayBeAsked F.pre F.step dead self.old }
        ensures cleared { ClearsInTurn F.step dead self.old self.new }
        ensures exactly { (rule : ℕ → Bool)
            → AnswersBy F.step rule dead self.old
            → self.new ≡ map (clear_slot rule) self.old }
    {
        for i in 0..self.places.len() {
            let slot = self.places[i];
            let slot = unless_dead(slot, &mut dead);
            self.places[i] = slot;
        }
    }
}

/// The slot, emptied where the test calls its place dead.
fn unless_dead<F: FnMut(u32) -> bool>(slot: Option<u32>, dead: &mut F) -> Option<u32>
    requires { AsksInTurn F.pre F.step dead.old (slot ∷ []) }
    ensures { ClearsOne F.step dead.old slot result dead.new }
{
    match slot {
        Some(place) if dead(place) => None,
        _ => slot,
    }
}
