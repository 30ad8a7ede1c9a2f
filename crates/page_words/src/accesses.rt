// One step of the table, as the mutator's seat makes it. Whoever calls one of these shows that it is a
// step of the machine, and picks the view that comes after it.

ghost use Rattle.std.specs.Prelude.{◌≡◌, ◌≤◌, bit_and, bit_or};
ghost use Rattle.marker_core.specs.Layout.{stop_at};
ghost use Rattle.marker_core.specs.SeatLaws.{exchanged};
ghost use Rattle.page_words.specs.Rule.{IsStepOf};
ghost use Rattle.page_words.specs.Seat.{TellsWordAt, with_mutator};

use crate::mutator::MutatorSeat;
use crate::views::{Finding, Next, Writing};
use crate::words::Words;
use marker_core::{every_step_keeps, views_are_ok, words_may_be_found};

impl Words {
    /// Reads the word at an address.
    pub(crate) fn load_at<N: Next>(&self, seat: &mut MutatorSeat, at: u32) -> u64
        requires heap { seat.old.heap ≡ self.now }
        requires address { at ≤ stop_at seat.old.count }
        requires step { IsStepOf seat.old at (λ n. n) N.next }
        ensures word { TellsWordAt seat.old at result }
        ensures view { seat.new ≡ with_mutator seat.old (N.next result) }
    {
        words_may_be_found();
        views_are_ok();
        every_step_keeps();
        self.table
            .shared
            .load::<Finding<N>>(&mut seat.seat, at as usize)
    }

    /// Writes a word.
    pub(crate) fn store_at<N: Next>(&self, seat: &mut MutatorSeat, at: u32, w: u64)
        requires heap { seat.old.heap ≡ self.now }
        requires address { at ≤ stop_at seat.old.count }
        requires step { IsStepOf seat.old at (λ _. w) (λ _. N.next w) }
        ensures { seat.new ≡ with_mutator seat.old (N.next w) }
    {
        views_are_ok();
        every_step_keeps();
        self.table
            .shared
            .store::<Writing<N>>(&mut seat.seat, at as usize, w);
    }

    /// Sets bits of a word, which is answered as it was.
    pub(crate) fn set_bits_at<N: Next>(&self, seat: &mut MutatorSeat, at: u32, bits: u64) -> u64
        requires heap { seat.old.heap ≡ self.now }
        requires address { at ≤ stop_at seat.old.count }
        requires step { IsStepOf seat.old at (λ n. bit_or n bits) N.next }
        ensures word { TellsWordAt seat.old at result }
        ensures view { seat.new ≡ with_mutator seat.old (N.next result) }
    {
        words_may_be_found();
        views_are_ok();
        every_step_keeps();
        self.table
            .shared
            .fetch_or::<Finding<N>>(&mut seat.seat, at as usize, bits)
    }

    /// Clears the bits of a word that these are not, which is answered as it was.
    pub(crate) fn keep_bits_at<N: Next>(&self, seat: &mut MutatorSeat, at: u32, bits: u64) -> u64
        requires heap { seat.old.heap ≡ self.now }
        requires address { at ≤ stop_at seat.old.count }
        requires step { IsStepOf seat.old at (λ n. bit_and n bits) N.next }
        ensures word { TellsWordAt seat.old at result }
        ensures view { seat.new ≡ with_mutator seat.old (N.next result) }
    {
        words_may_be_found();
        views_are_ok();
        every_step_keeps();
        self.table
            .shared
            .fetch_and::<Finding<N>>(&mut seat.seat, at as usize, bits)
    }

    /// Writes a word where the expected one is found, which is answered as it was.
    pub(crate) fn exchange_at<N: Next>(
        &self,
        seat: &mut MutatorSeat,
        at: u32,
        expected: u64,
        new: u64,
    ) -> u64
        requires heap { seat.old.heap ≡ self.now }
        requires address { at ≤ stop_at seat.old.count }
        requires step { IsStepOf seat.old at (exchanged expected new) N.next }
        ensures word { TellsWordAt seat.old at result }
        ensures view { seat.new ≡ with_mutator seat.old (N.next result) }
    {
        words_may_be_found();
        views_are_ok();
        every_step_keeps();
        self.table
            .shared
            .compare_exchange::<Finding<N>>(&mut seat.seat, at as usize, expected, new)
    }
}
