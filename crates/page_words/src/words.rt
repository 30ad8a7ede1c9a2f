// The words, and the calls on words and seat that don't mark. Each reads or writes one word, or sets
// or clears a bit of one.

ghost use Rattle.std.specs.Prelude.{◌≡◌, ℕ, ◌≤◌, ◌<◌, ◌-◌, ◌%◌, ◌^◌, ◌++◌, ◌∷◌, [], true, false, IfOk, bit_and};
ghost use Rattle.marker_core.specs.declared.states.Body.{Body};
ghost use Rattle.marker_core.specs.Bodies.{IsInBody, IsPlace, holds};
ghost use Rattle.marker_core.specs.declared.states.Why.TheVariants.{Read, Weak};
ghost use Rattle.marker_core.specs.Layout.{bitmap_at, stop_at};
ghost use Rattle.marker_core.specs.Laws.{IsLeastOver};
ghost use Rattle.marker_core.specs.SeatLaws.{IsReadyToPublish};
ghost use Rattle.marker_core.specs.SeatSteps.{seat_can_load, seat_can_store};
ghost use Rattle.page_words.specs.Roles.{kind_lists};
ghost use Rattle.page_words.specs.Rule.{IsStepOf};
ghost use Rattle.page_words.specs.Seat.{side, TellsWordAt, empty_view, loaded, OnlyLooked, filled_with};
ghost use Rattle.page_words.specs.Seat.{stored, rewritten, published, IsUnnamed, retracted};
ghost use Rattle.page_words.specs.Seat.{with_mutator};
ghost use Rattle.page_words.specs.Heaps.{IsCount};

use crate::mutator::MutatorSeat;
use crate::reasons::Reason;
use crate::views::{AboutNew, CoreRule, Next, Views};
use atomic_table::Table;
use gc_graph::NoMemory;
use ghost_values::GhostValue;
use marker_core::{
    fills_are_steps, idle_is_ok, loads_are_steps, publishes_are_steps, reach_over_is_least,
    retracts_are_steps, stores_are_steps,
};
use std::alloc::Global;
use std::marker::{Brand, Model};
use type_table::TypeTable;

/// So many words of the heap have their start bits in one word.
pub const BLOCK_WORDS: u32 = 64;

/// The words that markers and mutator share: a table of words that change in single steps, each
/// sequentially consistent. Contracts see how many the heap has, and which table it is.
#[derive(Drop)]
pub struct Words {
    pub(crate) count: u32,
    pub(crate) table: Table<(), Views, GhostValue<Views>, CoreRule, Global>,
}

impl Model for Words {
    ghost use Rattle.page_words.specs.Heaps.{AreWords};
    ghost use Rattle.page_words.specs.Seat.{Heap};

    ghost Value = { Heap };

    ghost view = { λ w. record { count = w.count; table = w.table.shared.table_id } };

    ghost invariant = { λ w. AreWords w.count w.table.shared.table_id.words };
}

impl Words {
    /// The words of a heap whose objects are of these types, all 0, and the one seat of its
    /// mutator. Want of memory is free.
    pub fn new(
        alloc: Global,
        count: u32,
        types: &TypeTable,
    ) -> Result<(Words, MutatorSeat), NoMemory>
        requires { IsCount count }
        ensures words { IfOk result (λ made. made.0.count ≡ count) }
        ensures view { IfOk result (λ made. made.1 ≡ empty_view made.0 types.now) }
    {
        idle_is_ok();
        // The table tells by its count that its types are few, and short.
        let _few = types.count();
        let length = (count + count / BLOCK_WORDS) as usize + 1;
        let words = vec![in alloc; 0u64; length]?;
        let view = GhostValue::chosen(&AboutNew { count, types });
        let (table, seat) = Table::of_words(alloc, words.as_slice(), &view)?;
        Ok((Words { count, table }, MutatorSeat { seat }))
    }

    /// How many words the heap has.
    pub fn count(&self) -> u32
        ensures count { result ≡ self.now.count }
        ensures valid { IsCount self.now.count }
    {
        self.count
    }

    /// The word at an address of the heap, of the bitmap, or of the stop word. To trace, the word
    /// that the hand wants is loaded, or the header of the key in hand; a weak read loads a header.
    pub fn load<W: Reason>(&self, seat: &mut MutatorSeat, a: u32) -> u64
        requires heap { seat.old.heap ≡ self.now }
        requires address { a ≤ stop_at seat.old.count }
        requires allowed { seat_can_load (side seat.old) a W.why ≡ true }
        ensures word { TellsWordAt seat.old a result }
        ensures view { seat.new ≡ loaded seat.old a W.why result }
        ensures read { W.why ≡ Read → OnlyLooked seat.old seat.new }
        ensures beside { W.why ≡ Read → (IsPlace seat.old.bodies a → ⊥) → seat.new ≡ seat.old }
        ensures weak { W.why ≡ Weak → seat.old.on ≡ true → IsLeastOver (kind_lists seat.old.types)
            seat.old.bodies (seat.old.may ++ a ∷ []) seat.new.may }
    {
        reach_over_is_least();
        loads_are_steps();
        let _seat = &seat.seat;
        self.load_at::<Brand>(seat, a)
    }

    /// Writes a word that belongs to no object.
    pub fn fill(&self, seat: &mut MutatorSeat, a: u32, w: u64)
        requires heap { seat.old.heap ≡ self.now }
        requires address { a < seat.old.count }
        requires outside { IsInBody seat.old.bodies a → ⊥ }
        ensures { seat.new ≡ filled_with seat.old a w }
    {
        fills_are_steps();
        self.store_at::<Brand>(seat, a, w);
    }

    /// Writes a field word of an object: a number into a plain one, and a reference into any other.
    /// While marking goes on, what a strong word or a pair's value then names waits for its mark.
    pub fn store(&self, seat: &mut MutatorSeat, a: u32, w: u64)
        requires heap { seat.old.heap ≡ self.now }
        requires allowed { seat_can_store (side seat.old) a w ≡ true }
        ensures view { seat.new ≡ stored seat.old a w }
        ensures alone { seat.old.on ≡ false → seat.new ≡ rewritten seat.old a w }
    {
        stores_are_steps();
        seat.bodies_lie_apart();
        self.store_at::<Brand>(seat, a, w);
    }

    /// Sets the start bit of an object whose words were filled.
    pub fn publish(&self, seat: &mut MutatorSeat, a: u32)
        ghost body: { Body }
        requires heap { seat.old.heap ≡ self.now }
        requires place { body.place ≡ a }
        requires ready { IsReadyToPublish (side seat.old) body }
        ensures { seat.new ≡ published seat.old body }
    {
        publishes_are_steps();
        let at = self.count + a / BLOCK_WORDS;
        // Header, serial number and fields stand before the bit is set: whoever finds the bit must
        // find a whole object behind it. The other bits of the word stay as they are at that moment.
        self.set_bits_at::<Brand>(seat, at, 1u64 << (a % BLOCK_WORDS));
    }

    /// Clears the start bit of a dead object that no object outside the dead names, while no marking
    /// goes on.
    pub fn retract(&self, seat: &mut MutatorSeat, a: u32)
        requires heap { seat.old.heap ≡ self.now }
        requires off { seat.old.on ≡ false }
        requires dead { holds seat.old.dead a ≡ true }
        requires unnamed { IsUnnamed seat.old.types seat.old.bodies seat.old.dead a }
        ensures { seat.new ≡ retracted seat.old a }
    {
        retracts_are_steps();
        seat.bodies_lie_apart();
        self.clear_start::<Brand>(seat, a);
    }

    fn clear_start<N: Next>(&self, seat: &mut MutatorSeat, a: u32)
        requires heap { seat.old.heap ≡ self.now }
        requires address { a < seat.old.count }
        requires step { IsStepOf seat.old (bitmap_at seat.old.count a)
            (λ n. bit_and n (18446744073709551615 - 2 ^ (a % 64))) N.next }
        ensures { (n : ℕ) × (seat.new ≡ with_mutator seat.old (N.next n)) }
    {
        let bit = 1u64 << (a % BLOCK_WORDS);
        self.keep_bits_at::<N>(seat, self.count + a / BLOCK_WORDS, !bit);
    }
}
