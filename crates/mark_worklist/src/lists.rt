// The owner's list, and how its shares come and go.

ghost use Rattle.std.specs.Prelude.{◌≡◌, ◌≤◌, ◌<◌, ◌&&◌, ◌+◌, ℕ, List, true, false, [], ◌++◌, All};
ghost use Rattle.std.specs.Prelude.{length, min, slice_set, IfErr, IfOk, OnOk, MatchOption};
ghost use Rattle.mark_worklist.specs.Hands.{all_parts, WasEmpty};
ghost use Rattle.mark_worklist.specs.Shares.{share_pushed, refused_once, last_count};
ghost use Rattle.mark_worklist.specs.Shares.{Stole, StoleNone};
ghost use Rattle.mark_worklist.specs.Families.{at, names_of, IsFresh, IsShareOf};
ghost use Rattle.mark_worklist.specs.Joining.{put_by, taken_by, refused_by, TookOne, IsTakenOrLeft};
ghost use Rattle.mark_worklist.specs.Joining.{AreAllShares, EndsAreJoined, AreFresh, HaveSameItems};
ghost use Rattle.mark_worklist.specs.Joining.{KnowLeft, IsPopped};
ghost use Rattle.mark_worklist.specs.Joining.{IsSameList};

use crate::counting::{count_left, count_pushed, count_refused};
use crate::joining::join_all;
use crate::linking::linked;
use crate::share::{Refused, Share};
use gc_graph::NoMemory;
use std::alloc::Global;
use std::marker::Model;

/// The owner's share and the others of its family are no more than so many.
const MOST_SHARES: usize = 9;

/// What was put on the lists of all shares, what was taken from them, and what is left.
#[derive(Clone, Copy, Debug, Drop, PartialEq)]
pub struct Tally {
    pub pushed: u64,
    pub taken: u64,
    pub left: u64,
}

/// The owner's list. Its own share is the first; behind it come the shares that it took in.
#[derive(Drop)]
pub struct SharedList {
    family: Vec<Share>,
}

impl Model for SharedList {
    ghost use Rattle.std.specs.Prelude.{◌<◌, ◌≤◌, List, length, vec_capacity};
    ghost use Rattle.mark_worklist.specs.Hands.{all_parts};
    ghost use Rattle.mark_worklist.specs.Shares.{ShareState};

    ghost Value = { List ShareState };

    ghost view = { λ l. l.family.items };

    ghost invariant = { λ l. (0 < length l.family.items)
        × (all_parts ≤ vec_capacity l.family) };
}

impl SharedList {
    ghost use Rattle.std.specs.Borrow.{sem};
    ghost use Rattle.mark_worklist.specs.SharedLending.{LendsFirstShare};

    /// A list of the owner's own, and so many shares. Want of memory is free.
    pub fn new(alloc: Global, shares: u32) -> Result<(SharedList, Vec<Share>), NoMemory>
        requires few { shares < all_parts }
        ensures { IfOk result (λ made. AreFresh shares made.0 made.1.items) }
    {
        let mut others = linked(alloc, shares + 1)?;
        let mut family = Vec::with_capacity(alloc, MOST_SHARES)?;
        family.push_reserved(others.remove(0));
        Ok((SharedList { family }, others))
    }

    /// The owner's share, for calls that take a share. It is to be left in its place.
    pub fn own(&mut self) -> &mut Share
        ensures* lends { sem 𝓛 (LendsFirstShare self.entry result) }
        ensures share { result.now ≡ at self.old 0 }
        ensures some { 0 < length self.old }
    {
        &mut self.family[0]
    }

    /// Puts an item on its own list. Want of memory is free, and so is a push once 2^60 items may have
    /// come onto the list: the item is handed back.
    pub fn push(&mut self, a: u32) -> Result<(), Refused>
        ensures done { OnOk result (self.new
            ≡ slice_set self.old 0 (share_pushed (at self.old 0) a)) }
        ensures refused { IfErr result (λ back. (back.0 ≡ a)
            × (self.new ≡ slice_set self.old 0 (refused_once (at self.old 0)))) }
        ensures same { IsSameList self.old self.new }
        ensures fits { (at self.old 0).refused ≤ last_count }
        ensures some { 0 < length self.old }
    {
        self.family[0].push(a)
    }

    /// Takes the first item of its own list, or of one that it took in. None only where each of these
    /// was empty at one step of the call.
    pub fn pop(&mut self) -> Option<u32>
        ensures taken { MatchOption result
            ((self.new ≡ slice_set self.old 0 (record (at self.old 0) { pop_found_none = true }))
            × All (λ s. WasEmpty s.own.hand) self.old)
            (λ a. TookOne self.old a self.new) }
        ensures left { EndsAreJoined self.old → KnowLeft self.old
            → IsPopped self.old result self.new }
        ensures same { IsSameList self.old self.new }
    {
        for i in 0..self.family.len() {
            if let Some(a) = self.family[i].take() {
                self.family[0].wake();
                return Some(a);
            }
        }
        self.family[0].note_no_pop();
        None
    }

    /// Takes the first item of a share's list, and moves some of those behind it to its own, as
    /// `Share::steal` does. None only where each share's list was empty at one step of the call, or lost
    /// items to others since this list last looked at it, and always once the shares were taken in.
    pub fn steal(&mut self) -> Option<u32>
        ensures first { self.new ≡ slice_set self.old 0 (at self.new 0) }
        ensures taken { MatchOption result (StoleNone (at self.old 0) (at self.new 0))
            (λ a. Stole (at self.old 0) a (at self.new 0)) }
        ensures same { IsSameList self.old self.new }
    {
        self.family[0].steal()
    }

    /// Takes in all shares with their lists, without memory.
    pub fn finish(&mut self, shares: Vec<Share>) -> Tally
        requires all { AreAllShares self.old shares.items }
        ensures pushed { result.pushed ≡ length (put_by (self.old ++ shares.items)) }
        ensures taken { result.taken ≡ length (taken_by (self.old ++ shares.items)) }
        ensures left { (left : List ℕ) × (length left ≡ result.left)
            × IsTakenOrLeft (self.old ++ shares.items) left × IsTakenOrLeft self.new left }
        ensures same { HaveSameItems (self.old ++ shares.items) self.new × EndsAreJoined self.new }
        ensures known { KnowLeft self.new }
        ensures refused { (at self.new 0).refused
            ≡ min (refused_by (self.old ++ shares.items)) last_count }
        ensures awake { ((at self.new 0).pop_found_none ≡ false)
            × ((at self.new 0).steal_found_none ≡ false) }
    {
        join_all(&mut self.family, shares);
        let left = count_left(&mut self.family);
        let pushed = count_pushed(&self.family);
        let refused = count_refused(&self.family);
        self.family[0].settle(refused);
        Tally {
            pushed,
            taken: pushed - left,
            left,
        }
    }

    /// Whether a pop and a steal have both found nothing since `new`, since `finish`, since the last
    /// accepted push, and since an item was given.
    pub fn idle(&self) -> bool
        ensures { result ≡ ((at self.now 0).pop_found_none && (at self.now 0).steal_found_none) }
    {
        self.family[0].idle()
    }

    /// How many pushes were refused, those of the shares among them once they were taken in. It stays
    /// at its last value once it is there.
    pub fn refused(&self) -> u64
        ensures { result ≡ (at self.now 0).refused }
    {
        self.family[0].refused()
    }
}
