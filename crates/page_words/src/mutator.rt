// The mutator's seat of the words, with the view of them that contracts see.

ghost use Rattle.page_words.specs.Seat.{IsView};

use crate::views::Views;
use atomic_table::Seat;
use marker_core::views_are_ok;
use std::marker::Model;

/// The right of the one mutator to read and write the words. It stays on the mutator's thread.
/// `load` may come at any time; the other calls come in this order:
///
/// | the words from a place on | calls, and what they make of the words |
/// |---|---|
/// | belong to no object | `fill` of each of them, in any order and again |
/// | filled: a header without mark and traced bit, a serial number, null references | `publish` makes them an object |
/// | an object | `store` to its fields, while nothing is in hand and nothing waits for its mark |
/// | an object, while marking goes on | `mark`; after it `claim`, which succeeds once |
/// | the object in hand | loads to trace it, by offset: each strong word and each pair; `mark` of what they name |
/// | an object, while no marking goes on | `unmark` |
/// | a dead object that dead ones alone name, while no marking goes on | `retract`: they belong to no object |
///
/// `set_stop(false)` begins marking where nothing is marked, traced or dead and pairs are whole;
/// `set_stop(true)` ends it where each marked object is traced and the marked ones are closed, and
/// each object without a mark is dead from then on.
#[derive(Drop)]
pub struct MutatorSeat {
    pub(crate) seat: Seat<(), Views>,
}

impl Model for MutatorSeat {
    ghost use Rattle.page_words.specs.Seat.{SeatView};

    ghost Value = { SeatView };

    ghost use Rattle.page_words.specs.Rule.{IsOwner, seat_view};

    ghost view = { λ s. seat_view s.seat.table_id s.seat.me.0 };

    ghost invariant = { λ s. IsOwner s.seat.me };
}

impl MutatorSeat {
    /// What is true of every view: bodies lie apart and within the heap, what is marked, traced or
    /// dead is a body, and what is in hand or may be kept is as the step machine has it. Whoever
    /// calls this has the law. It reads nothing.
    pub fn bodies_lie_apart(&self)
        ensures { IsView self.now }
    {
        views_are_ok();
        let _seat = &self.seat;
    }
}
