// Seats that the mutator lends to markers, and takes back.

ghost use Rattle.std.specs.Prelude.{◌≡◌, ◌<◌, true, None};
ghost use Rattle.page_words.specs.Markers.{lent_from, new_marker, joined_with};

use crate::marker_views::{Lending, LookingAgain, TakingBack};
use crate::markers::MarkerSeat;
use crate::mutator::MutatorSeat;
use crate::words::{BLOCK_WORDS, Words};
use marker_core::{
    every_step_keeps, joins_are_steps, lent_while_on, splits_are_steps, views_are_ok,
};

impl Words {
    /// Lends a seat to a marker, which knows nothing yet, while marking goes on.
    pub fn split(&self, seat: &mut MutatorSeat) -> MarkerSeat
        requires heap { seat.old.heap ≡ self.now }
        requires on { seat.old.on ≡ true }
        ensures view { seat.new ≡ lent_from seat.old }
        ensures marker { result ≡ new_marker seat.old }
    {
        splits_are_steps();
        every_step_keeps();
        let given = self.table.shared.split_seat::<Lending>(&mut seat.seat);
        MarkerSeat { seat: given }
    }

    /// Takes back a marker's seat that has no object in hand: what it marked, traced, noted, found
    /// traced or missed is then the mutator's.
    pub fn join(&self, seat: &mut MutatorSeat, marker: MarkerSeat)
        requires heap { seat.old.heap ≡ self.now }
        requires same { marker.heap ≡ self.now }
        requires hand { marker.hand ≡ None }
        ensures on { seat.old.on ≡ true }
        ensures lent { 0 < seat.old.lent }
        ensures view { seat.new ≡ joined_with seat.old marker }
    {
        joins_are_steps();
        lent_while_on();
        views_are_ok();
        every_step_keeps();
        self.table
            .shared
            .join_seat::<TakingBack>(&mut seat.seat, marker.seat);
        // Each of the two seats told of the words as they were at a step of its own. One look more, at
        // any word, tells the mutator's seat of words that fit both.
        let at = self.count + self.count / BLOCK_WORDS;
        self.table
            .shared
            .load::<LookingAgain>(&mut seat.seat, at as usize);
    }
}
