// A share as one of its family: how it gets its ends and gives them back, and what the owner asks of it once
// it was taken in.

ghost use Rattle.std.specs.Prelude.{◌≡◌, ◌≤◌, ◌<◌, ◌^◌, ℕ, List, [], ◌∷◌, ◌++◌, length, true, false};
ghost use Rattle.std.specs.Prelude.{IfOk, IfSome, OnOk, MatchOption};
ghost use Rattle.mark_worklist.specs.Hands.{all_parts, WasEmpty, HasLeft, IsLeft};
ghost use Rattle.mark_worklist.specs.Ends.{one_part_less};
ghost use Rattle.mark_worklist.specs.Shares.{put_of};
ghost use Rattle.mark_worklist.specs.Families.{alone, with_joined};
ghost use Rattle.mark_worklist.specs.Joining.{with_own_taken};

use crate::ends::{OtherEnd, OwnEnd};
use crate::share::Share;
use gc_graph::NoMemory;
use std::alloc::Global;

impl Share {
    /// A share that knows no other.
    pub(crate) fn alone(alloc: Global, number: u32) -> Result<Share, NoMemory>
        ensures { IfOk result (λ made. made ≡ alone number made.own.list) }
    {
        Ok(Share {
            number,
            own: OwnEnd::new(alloc)?,
            others: Vec::new(alloc),
            pushed: 0,
            moved: 0,
            refused: 0,
            pop_found_none: false,
            steal_found_none: false,
        })
    }

    /// Another end of its own list.
    pub(crate) fn other_end(&mut self) -> Result<OtherEnd, NoMemory>
        requires { 1 < self.old.own.hand.parts }
        ensures parts { OnOk result (self.new
            ≡ record self.old { own = one_part_less self.old.own }) }
        ensures made { IfOk result (λ end.
            (end.list ≡ self.old.own.list) × (end.taken ≡ []) × (end.moved ≡ [])) }
    {
        Ok(self.own.other_end()?)
    }

    /// Gets an end of another one's list.
    pub(crate) fn add_end(&mut self, end: OtherEnd) -> Result<(), NoMemory>
        ensures { OnOk result (self.new
            ≡ record self.old { others = self.old.others ++ end ∷ [] }) }
    {
        self.others.push(end)?;
        Ok(())
    }

    /// Gives the last of its ends of others' lists.
    pub(crate) fn pop_end(&mut self) -> OtherEnd
        requires { 0 < length self.old.others }
        ensures last { self.old.others ≡ self.new.others ++ result ∷ [] }
        ensures rest { self.new ≡ record self.old { others = self.new.others } }
    {
        match self.others.pop() {
            Some(end) => end,
            None => unreachable!(),
        }
    }

    /// Its own end takes in another one of the same list.
    pub(crate) fn join_end(&mut self, end: OtherEnd)
        requires { end.list ≡ self.old.own.list }
        ensures { self.new ≡ with_joined self.old end }
    {
        self.own.join(end);
    }

    /// Takes the first item of its own list, and leaves open whether the share is idle.
    pub(crate) fn take(&mut self) -> Option<u32>
        ensures taken { MatchOption result ((self.new ≡ self.old) × WasEmpty self.old.own.hand)
            (λ a. self.new ≡ with_own_taken self.old a) }
        ensures left { IfSome result (λ a. self.old.own.hand.parts ≡ all_parts
            → HasLeft self.new.own.hand) }
    {
        self.own.take()
    }

    /// How many items are left on its own list, of which all other ends were joined.
    pub(crate) fn count_left(&mut self) -> u64
        requires { self.old.own.hand.parts ≡ all_parts }
        ensures same { self.new ≡ self.old }
        ensures few { result ≤ 2 ^ 60 }
        ensures left { (items : List ℕ) × (length items ≡ result)
            × IsLeft self.old.own.hand items }
    {
        self.own.count_left() as u64
    }

    /// How many items it put.
    pub(crate) fn pushed(&self) -> u64
        ensures all { result ≡ length (put_of self.now) }
        ensures few { result ≤ 2 ^ 60 }
    {
        self.pushed
    }

    /// A pop found nothing.
    pub(crate) fn note_no_pop(&mut self)
        ensures { self.new ≡ record self.old { pop_found_none = true } }
    {
        self.pop_found_none = true;
    }

    /// So many pushes were refused, and the share isn't idle.
    pub(crate) fn settle(&mut self, refused: u64)
        ensures { self.new ≡ record self.old {
          refused = refused;
          pop_found_none = false;
          steal_found_none = false;
        } }
    {
        self.refused = refused;
        self.wake();
    }
}
