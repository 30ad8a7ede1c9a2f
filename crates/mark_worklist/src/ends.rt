// The ends of one list: its owner's, and those at which others steal.

ghost use Rattle.std.specs.Prelude.{◌≡◌, ◌<◌, ℕ, List, [], ◌∷◌, ◌++◌, length, MatchOption};
ghost use Rattle.std.specs.Prelude.{IfErr, IfOk, IfSome, OnErr, OnOk};
ghost use Rattle.mark_worklist.specs.Hands.{hand, all_parts, with_put, with_taken, hands_joined};
ghost use Rattle.mark_worklist.specs.Hands.{WasEmpty, HasLeft, IsLeft};
ghost use Rattle.mark_worklist.specs.Ends.{OwnState, OtherState, FoundNone, Moved, hand_of, one_part_less};

use crate::rule::{Brings, Cut, Fair, Hand, Moves, Pops, Puts, Takes, Total};
use crossbeam_deque::{Pass, Steal, Stealer, Worker};
use std::alloc::{AllocError, Global};
use std::marker::Model;

/// How often a steal looks at one list.
const TRIES: u32 = 4;

const FIRST_ROOM: usize = 4;

/// The end of a list at which its owner puts and takes.
#[derive(Drop)]
pub(crate) struct OwnEnd {
    worker: Worker<u32, Global, Hand, Fair>,
}

impl Model for OwnEnd {
    ghost use Rattle.std.specs.Prelude.{◌≡◌, ◌<◌};
    ghost use Rattle.crossbeam_deque.specs.Handles.{worker_deque, worker_flavor, worker_view};
    ghost use Rattle.mark_worklist.specs.Ends.{OwnState};

    ghost Value = { OwnState };

    ghost view = { λ e. record { list = (worker_deque e.worker).0; hand = worker_view e.worker } };

    ghost invariant = { λ e. (worker_flavor e.worker ≡ 0) × (0 < (worker_view e.worker).parts) };
}

/// An end at which another one steals.
#[derive(Drop)]
pub(crate) struct OtherEnd {
    stealer: Stealer<u32, Global, Hand, Fair>,
    pass: Pass<u32, Hand>,
}

impl Model for OtherEnd {
    ghost use Rattle.std.specs.Prelude.{◌≡◌};
    ghost use Rattle.crossbeam_deque.specs.Handles.{stealer_deque, stealer_flavor};
    ghost use Rattle.crossbeam_deque.specs.Handles.{taken, IsPassOf};
    ghost use Rattle.mark_worklist.specs.Ends.{OtherState, hand_in, other_hand};

    ghost Value = { OtherState };

    ghost view = { λ e. record {
      list = (stealer_deque e.stealer).0;
      taken = (hand_in e.pass).taken;
      moved = (hand_in e.pass).moved;
      seen = taken e.pass;
    } };

    ghost invariant = { λ e. (stealer_flavor e.stealer ≡ 0)
        × IsPassOf (stealer_deque e.stealer) e.pass
        × (hand_in e.pass ≡ other_hand (hand_in e.pass).taken (hand_in e.pass).moved) };
}

impl OwnEnd {
    /// A list without items, which has one end. Want of memory is free.
    pub(crate) fn new(alloc: Global) -> Result<OwnEnd, AllocError>
        ensures { IfOk result (λ made. made.hand ≡ hand all_parts [] []) }
    {
        Ok(OwnEnd {
            worker: Worker::fifo_as(alloc, FIRST_ROOM)?,
        })
    }

    /// Another end of the list, with one of the parts. Want of memory is free.
    pub(crate) fn other_end(&mut self) -> Result<OtherEnd, AllocError>
        requires { 1 < self.old.hand.parts }
        ensures kept { OnErr result (self.new ≡ self.old) }
        ensures parts { OnOk result (self.new ≡ one_part_less self.old) }
        ensures made { IfOk result (λ end.
            (end.list ≡ self.old.list) × (end.taken ≡ []) × (end.moved ≡ [])) }
    {
        let stealer = self.worker.stealer()?;
        let pass = self.worker.another::<Cut>();
        Ok(OtherEnd { stealer, pass })
    }

    /// Puts an item at the back. Want of memory is free: the item is handed back.
    pub(crate) fn put(&mut self, a: u32) -> Result<(), u32>
        ensures done { OnOk result (self.new
            ≡ record self.old { hand = with_put self.old.hand (a ∷ []) }) }
        ensures refused { IfErr result (λ back. (back ≡ a) × (self.new ≡ self.old)) }
    {
        self.worker.push_as::<Puts>(a)
    }

    /// Takes the first item. None only where the list was empty at one step of the call.
    pub(crate) fn take(&mut self) -> Option<u32>
        ensures taken { MatchOption result ((self.new ≡ self.old) × WasEmpty self.old.hand)
            (λ a. self.new ≡ record self.old { hand = with_taken self.old.hand (a ∷ []) }) }
        ensures left { IfSome result (λ a. self.old.hand.parts ≡ all_parts
            → HasLeft self.new.hand) }
    {
        self.worker.pop_as::<Pops>()
    }

    /// Takes another end in, with all that it put and took.
    pub(crate) fn join(&mut self, other: OtherEnd)
        requires { other.list ≡ self.old.list }
        ensures { self.new ≡ record self.old { hand = hands_joined self.old.hand (hand_of other) } }
    {
        self.worker.absorb::<Cut>(other.pass);
    }

    /// How many items are left. All other ends were joined.
    pub(crate) fn count_left(&mut self) -> usize
        requires { self.old.hand.parts ≡ all_parts }
        ensures same { self.new ≡ self.old }
        ensures left { (items : List ℕ) × (length items ≡ result) × IsLeft self.old.hand items }
    {
        self.worker.len_as::<Total>()
    }
}

impl OtherEnd {
    /// Takes the first item. None only where the list was empty at one step of the call, or lost items
    /// to another one since the last look.
    pub(crate) fn steal(&mut self) -> Option<u32>
        ensures list { self.new.list ≡ self.old.list }
        ensures moved { self.new.moved ≡ self.old.moved }
        ensures taken { MatchOption result (FoundNone self.old self.new)
            (λ a. self.new.taken ≡ self.old.taken ++ a ∷ []) }
    {
        for _try in 0..TRIES {
            match self.stealer.steal_as::<Takes>(&mut self.pass) {
                Steal::Success(a) => return Some(a),
                Steal::Empty => return None,
                Steal::Retry => {}
            }
        }
        None
    }

    /// Moves about half of the items, and `most` of them at most, to an owner's list: none where there
    /// are none, or others take some at the same time, and fewer where memory is wanting.
    pub(crate) fn move_some(&mut self, own: &mut OwnEnd, most: usize)
        requires some { 0 < most }
        ensures { Moved most self.old own.old self.new own.new }
    {
        let _ = self
            .stealer
            .steal_batch_as::<Global, Hand, Fair, Moves, Brings>(
                &mut self.pass,
                &mut own.worker,
                most,
            );
    }
}
