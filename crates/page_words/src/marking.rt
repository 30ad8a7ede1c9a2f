// The calls on words and seat that mark: each reads a header and sets or clears bits of it, or sets
// the stop word.

ghost use Rattle.std.specs.Prelude.{◌≡◌, ℕ, List, not, true, false, None, Contains};
ghost use Rattle.object_headers.specs.Layout.{header_word};
ghost use Rattle.marker_core.specs.declared.states.Body.{Body};
ghost use Rattle.marker_core.specs.Bodies.{IsPlace, holds};
ghost use Rattle.marker_core.specs.Layout as layout;
ghost use Rattle.marker_core.specs.Laws.{IsLeastOver};
ghost use Rattle.marker_core.specs.SeatSteps.{is_grey};
ghost use Rattle.page_words.specs.Roles.{kind_lists};
ghost use Rattle.page_words.specs.Seat.{TellsWordAt, marked_at, is_grey_at, claimed_at, unmarked_at};
ghost use Rattle.page_words.specs.Seat.{MaySetStop, ended, stop_set};

use crate::mutator::MutatorSeat;
use crate::words::{BLOCK_WORDS, Words};
use marker_core::{
    begins_are_steps, claims_are_steps, marks_are_steps, reach_over_is_least, stops_are_steps,
    unmarks_are_steps,
};
use object_headers::{with_mark, with_traced};
use std::marker::Brand;

/// The bit of a header's mark, and that of its traced bit.
const MARK: u64 = 2;

const TRACED: u64 = 4;

impl Words {
    /// Marks an object while marking goes on. True where this call set the mark. Where the object
    /// was in hand to be marked, the hand moves on.
    pub fn mark(&self, seat: &mut MutatorSeat, a: u32) -> bool
        requires heap { seat.old.heap ≡ self.now }
        requires on { seat.old.on ≡ true }
        requires place { IsPlace seat.old.bodies a }
        requires may { holds seat.old.may a ≡ true }
        ensures fresh { seat.old.lent ≡ 0 → result ≡ not (holds seat.old.marked a) }
        ensures view { seat.new ≡ marked_at seat.old a (not result) }
    {
        marks_are_steps();
        seat.bodies_lie_apart();
        let found = self.set_bits_at::<Brand>(seat, a, MARK);
        !has_mark(found)
    }

    /// Claims a marked object for tracing. `header` is its header word with the mark and without
    /// the traced bit. True where the object was marked and not yet traced; this call has then set
    /// the traced bit, and the object is in hand.
    pub fn claim(&self, seat: &mut MutatorSeat, a: u32, header: u64) -> bool
        requires heap { seat.old.heap ≡ self.now }
        requires on { seat.old.on ≡ true }
        requires hand { seat.old.hand ≡ None }
        requires place { IsPlace seat.old.bodies a }
        requires header { (b : Body) → Contains seat.old.bodies b → b.place ≡ a
            → header ≡ header_word true true false b.ty b.size }
        ensures grey { seat.old.lent ≡ 0 → result ≡ is_grey_at seat.old a }
        ensures view { (found : ℕ) × TellsWordAt seat.old a found × (result ≡ is_grey found)
            × (seat.new ≡ claimed_at seat.old a found) }
    {
        claims_are_steps();
        seat.bodies_lie_apart();
        // The whole word is compared, and nothing comes between test and write: of two that claim an
        // object one alone finds the word without the traced bit, and traces it.
        let traced = with_traced(header, true);
        self.exchange_at::<Brand>(seat, a, header, traced) == header
    }

    /// Clears the mark and the traced bit of an object, while no marking goes on.
    pub fn unmark(&self, seat: &mut MutatorSeat, a: u32)
        requires heap { seat.old.heap ≡ self.now }
        requires off { seat.old.on ≡ false }
        requires place { IsPlace seat.old.bodies a }
        ensures { seat.new ≡ unmarked_at seat.old a }
    {
        unmarks_are_steps();
        seat.bodies_lie_apart();
        self.keep_bits_at::<Brand>(seat, a, !(MARK + TRACED));
    }

    /// Sets the stop word: `false` begins marking on a quiet heap, and what the roots reach may be
    /// kept; `true` ends it where no view is lent, and what is not marked is then dead.
    pub fn set_stop(&self, seat: &mut MutatorSeat, on: bool)
        ghost roots: { List ℕ }
        requires heap { seat.old.heap ≡ self.now }
        requires allowed { MaySetStop seat.old on }
        ensures view { seat.new ≡ stop_set seat.old roots on }
        ensures ended { on ≡ true → seat.old.on ≡ true → seat.old.lent ≡ 0
            → seat.new ≡ ended seat.old }
        ensures may { on ≡ false → IsLeastOver (kind_lists seat.old.types) seat.old.bodies roots
            seat.new.may }
    {
        reach_over_is_least();
        begins_are_steps();
        stops_are_steps();
        let _seat = &seat.seat;
        seat.bodies_lie_apart();
        let at = self.count + self.count / BLOCK_WORDS;
        self.store_at::<Brand>(seat, at, u64::from(on));
    }
}

/// Whether the mark is set in the word of a header. By itself it is a test of one bit.
pub fn has_mark(header: u64) -> bool
    ensures { result ≡ layout.has_mark header }
{
    header == with_mark(header, true)
}
