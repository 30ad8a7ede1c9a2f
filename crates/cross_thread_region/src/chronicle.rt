// What a region keeps: its history, and what the slots hold after it.

ghost use Rattle.std.specs.Prelude.{◌≡◌, ◌≢◌, ◌+◌, ◌<◌, ◌≤◌, ◌^◌, ℕ, Bool, Some, true, None, [], ◌∷◌, ◌++◌};
ghost use Rattle.std.specs.Prelude.{IfOk, length, slice_get, slice_index_or};
ghost use Rattle.gc_graph.specs.declared.region.Op.TheVariants as O;
ghost use Rattle.gc_graph.specs.declared.region.Reply.TheVariants as R;
ghost use Rattle.gc_graph.specs.History.{IsLegal, NamesWeakSlots};
ghost use Rattle.gc_graph.specs.Outcomes.{IsThreadOp};
ghost use Rattle.persistent_slots.specs.Clearing.{MayBeAsked, AnswersBy, ClearsInTurn};
ghost use Rattle.cross_thread_region.specs.Histories.{entries_of, slots_of, is_started};
ghost use Rattle.cross_thread_region.specs.Histories.{place_at, strong_place, weak_places};
ghost use Rattle.cross_thread_region.specs.Histories.{start_told, told_of_slot};
ghost use Rattle.cross_thread_region.specs.WeakReads.{weak_read_at};
ghost use Rattle.cross_thread_region.specs.Pauses.{dying_of};
ghost use Rattle.cross_thread_region.specs.Calls.{AreByRight};
ghost use Rattle.cross_thread_region.specs.Contents.{MayAdd, IsCallWithin, placed_entry};

use crate::contents::{
    change, clear_emptied, fill_weak, no_places, null_slots, reply_of, weak_read,
};
use crate::slot::Slot;
use gc_graph::{Entry, NoMemory, Op, Reply};
use persistent_slots::Slots;
use std::alloc::Global;
use std::marker::Model;

/// How many slots are kept, so many as the history's slots.
const SLOTS: u32 = 32;

/// More entries there never are, so that they can be counted in 32 bits.
const MOST_ENTRIES: u64 = 0x4000_0000;

/// An entry of the history. That of an export has the place that was given to the call.
#[derive(Clone, Copy, Drop)]
pub struct PlacedEntry {
    pub entry: Entry,
    pub place: u32,
}

/// The history, what each entry read from a weak slot, what the 32 slots hold after it, and room for
/// the places that a pause asks of.
#[derive(Drop)]
pub(crate) struct Chronicle {
    slots: Vec<Slot>,
    places: Vec<u32>,
    history: Vec<PlacedEntry>,
    reads: Vec<Option<u32>>,
    asked: Slots,
}

impl Model for Chronicle {
    ghost use Rattle.std.specs.Prelude.{◌≡◌, length, vec_capacity};
    ghost use Rattle.cross_thread_region.specs.Contents.{ChronicleView, ContentsAreKept, AreNoted};

    ghost Value = { ChronicleView };

    ghost view = { λ c. record { history = c.history.items; asked = c.asked } };

    ghost invariant = { λ c.
        ContentsAreKept c.slots.items c.places.items c.history.items (vec_capacity c.history)
        × (length c.asked ≡ 32)
        × AreNoted c.reads.items c.history.items (vec_capacity c.reads) };
}

impl region_lock::Chronicle for Chronicle {
    type Entry = PlacedEntry;

    ghost use Rattle.cross_thread_region.specs.Calls.{named};

    ghost entries = { λ c. c.history };

    ghost number = { named };
}

impl Chronicle {
    /// An empty history. Want of memory is free.
    pub fn new(alloc: Global) -> Result<Chronicle, NoMemory>
        ensures { IfOk result (λ c. c.history ≡ []) }
    {
        Ok(Chronicle {
            slots: null_slots(alloc, SLOTS)?,
            places: no_places(alloc, SLOTS)?,
            history: Vec::new(alloc),
            reads: Vec::new(alloc),
            asked: Slots::new(alloc, SLOTS)?,
        })
    }

    /// How many entries there are.
    pub fn len(&self) -> u64
        ensures count { result ≡ length self.now.history }
        ensures few { length self.now.history ≤ 2 ^ 30 }
    {
        self.history.len() as u64
    }

    /// Entry i.
    pub fn entry(&self, i: u64) -> Entry
        requires { i < length self.now.history }
        ensures { slice_get (entries_of self.now.history) i ≡ Some result }
    {
        self.history[i as usize].entry
    }

    /// The place that entry i read from a weak slot.
    pub fn read_place(&self, i: u64) -> Option<u32>
        requires { i < length self.now.history }
        ensures { result ≡ weak_read_at self.now.history i }
    {
        self.reads[i as usize]
    }

    /// The history is legal, and each entry of another number than 0 is an order of a thread.
    pub fn is_legal(&self)
        ensures legal { IsLegal (entries_of self.now.history) }
        ensures right { AreByRight self.now.history }
    {
        let _ = &self.history;
    }

    /// The place of a slot that isn't null.
    pub fn place(&self, slot: u32) -> u32
        requires { slot < 32 }
        ensures { result ≡ place_at self.now.history slot }
    {
        self.places[slot as usize]
    }

    /// The place of a strong slot.
    pub fn strong_place(&self, slot: u32) -> Option<u32>
        requires { slot < 32 }
        ensures place { result ≡ strong_place self.now.history slot }
        ensures small { place_at self.now.history slot + 1 < 2 ^ 32 }
    {
        self.slots[slot as usize].strong_place(self.places[slot as usize])
    }

    /// Writes down what a start tells of the strong slots.
    pub fn tell_strong(&self, strong: &mut [u32])
        requires { length strong.old ≤ 32 }
        ensures { strong.new ≡ start_told self.now.history (length strong.old) }
    {
        for i in 0..strong.len() {
            strong[i] = self.told(i as u32);
        }
    }

    fn told(&self, slot: u32) -> u32
        requires { slot < 32 }
        ensures { result ≡ told_of_slot (strong_place self.now.history slot) }
    {
        match self.strong_place(slot) {
            Some(place) => place + 1,
            None => 0,
        }
    }

    /// Makes an entry that is no pause's. Want of memory is free.
    pub fn add(&mut self, thread: u32, op: Op, place: u32) -> Reply
        requires within { IsCallWithin 32 op }
        requires right { thread ≢ 0 → IsThreadOp op }
        requires small { place + 1 < 2 ^ 32 }
        ensures added { MayAdd self.old thread op place result self.new }
        ensures legal { IsLegal (entries_of self.new.history) }
    {
        // The second one is a pause's, which may come next.
        if self.history.len() as u64 + 2 > MOST_ENTRIES {
            return Reply::NoMemory;
        }
        if self.history.reserve(2).is_err() || self.reads.reserve(2).is_err() {
            return Reply::NoMemory;
        }
        let reply = reply_of(&self.slots, op);
        let read = weak_read(&self.slots, &self.places, op);
        change(&mut self.slots, &mut self.places, op, place);
        let entry = Entry { thread, op, reply };
        self.history.push_reserved(PlacedEntry { entry, place });
        self.reads.push_reserved(read);
        reply
    }

    /// Writes down the places of the weak slots, for a pause's test.
    pub fn begin_pause(&mut self)
        ensures history { self.new.history ≡ self.old.history }
        ensures asked { self.new.asked ≡ weak_places self.old.history }
    {
        fill_weak(&self.slots, &self.places, &mut self.asked);
    }

    /// The place of a weak slot, after the beginning of a pause.
    pub fn asked(&self, slot: u32) -> Option<u32>
        requires { slot < 32 }
        ensures { result ≡ slice_index_or self.now.asked slot None }
    {
        self.asked.get(slot)
    }

    /// Clears the weak slots whose place the test calls dead, and makes the pause's entry.
    pub fn end_pause<F: FnMut(u32) -> bool>(&mut self, thread: u32, dead: F) -> u32
        requires first { thread ≡ 0 }
        requires started { is_started self.old.history ≡ true }
        requires asked { self.old.asked ≡ weak_places self.old.history }
        requires asks { MayBeAsked F.pre F.step dead self.old.asked }
        ensures history { self.new.history ≡ self.old.history
            ++ placed_entry thread (O.Pause result) R.Done 0 ∷ [] }
        ensures legal { IsLegal (entries_of self.new.history) }
        ensures weak { NamesWeakSlots result (slots_of self.old.history) }
        ensures cleared { ClearsInTurn F.step dead self.old.asked
            (weak_places self.new.history) }
        ensures exactly { (rule : ℕ → Bool)
            → AnswersBy F.step rule dead self.old.asked
            → result ≡ dying_of rule self.old.history }
    {
        self.asked.clear_dead(dead);
        let cleared = clear_emptied(&mut self.slots, &self.asked);
        let entry = Entry {
            thread,
            op: Op::Pause { cleared },
            reply: Reply::Done,
        };
        self.history.push_reserved(PlacedEntry { entry, place: 0 });
        self.reads.push_reserved(None);
        cleared
    }
}
