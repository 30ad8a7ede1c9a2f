// A marking list (`src/heap/base/worklist.h`, of which this is the owner's view alone).

ghost use Rattle.std.specs.Prelude.{◌≡◌, ◌≤◌, ◌<◌, ◌++◌, Some, [], true, false, length, min};
ghost use Rattle.std.specs.Prelude.{IfErr, IfOk, OnOk, MatchOption};
ghost use Rattle.mark_worklist.specs.Hands.{all_parts};
ghost use Rattle.mark_worklist.specs.Families.{at};
ghost use Rattle.mark_worklist.specs.Joining.{put_by, taken_by, refused_by, IsTakenOrLeft};
ghost use Rattle.mark_worklist.specs.Joining.{AreAllShares, EndsAreJoined, HaveSameItems};
ghost use Rattle.mark_worklist.specs.Lists.{no_items, as_own, IsShared, IsPutOnList, IsOneMore};
ghost use Rattle.mark_worklist.specs.Lists.{list_refused_once};
ghost use Rattle.mark_worklist.specs.Shares.{last_count};

use crate::left::{Addresses, none};
use crate::lists::{SharedList, Tally};
use crate::share::{Refused, Share};
use crate::shared::{pop_left, push_out, take_in};
use gc_graph::NoMemory;
use ghost_values::GhostValue;
use std::alloc::Global;
use std::marker::Model;

/// A list of addresses. It takes memory as it grows, and keeps it. The order in which addresses are
/// popped is free: here the last one is the first, and a list from which others take addresses too
/// keeps another order.
///
/// | shares | where the owner's pushes go |
/// |---|---|
/// | there are none | to `items` |
/// | they are out | to the owner's share in `shared`, from which the others steal |
/// | they were taken in | to `items`, and what was left on the lists is popped after these |
#[derive(Drop)]
pub struct Worklist {
    items: Vec<u32>,
    refused: u64,
    idle: bool,
    out: bool,
    shared: Option<SharedList>,
    left: GhostValue<Addresses>,
}

impl Model for Worklist {
    ghost use Rattle.mark_worklist.specs.Lists.{ListState};
    ghost use Rattle.mark_worklist.specs.Left.{list_state_of, IsListKept};

    ghost Value = { ListState };

    ghost view = { λ l. list_state_of l.out l.items.items l.refused l.idle l.shared l.left.value };

    ghost invariant = { λ l. IsListKept l.out l.items.items l.idle l.shared l.left.value };
}

impl Worklist {
    ghost use Rattle.std.specs.Borrow.{sem};
    ghost use Rattle.mark_worklist.specs.Lending.{LendsOwn};

    /// An empty list without room, and so many shares of it, one for each marker that is to come. Want
    /// of memory is free.
    pub fn new(alloc: Global, shares: u32) -> Result<(Worklist, Vec<Share>), NoMemory>
        requires few { shares < all_parts }
        ensures alone { shares ≡ 0 → IfOk result (λ made. (made.0 ≡ no_items)
            × (made.1.items ≡ [])) }
        ensures shared { 0 < shares → IfOk result (λ made. IsShared shares made.0 made.1.items) }
    {
        let mut list = Worklist {
            items: Vec::new(alloc),
            refused: 0,
            idle: false,
            out: false,
            shared: None,
            left: none(),
        };
        if shares == 0 {
            return Ok((list, Vec::new(alloc)));
        }
        let (shared, others) = SharedList::new(alloc, shares)?;
        list.shared = Some(shared);
        list.out = true;
        Ok((list, others))
    }

    /// Takes room for so many more addresses. Want of memory is free.
    pub fn reserve(&mut self, more: u32) -> Result<(), NoMemory>
        ensures { self.new ≡ self.old }
    {
        self.items.reserve(more as usize)?;
        Ok(())
    }

    /// Puts an address on the list. Want of memory is free: the address is handed back.
    pub fn push(&mut self, a: u32) -> Result<(), Refused>
        ensures done { OnOk result (IsPutOnList self.old a self.new) }
        ensures refused { IfErr result (λ back.
            (back.0 ≡ a) × (self.new ≡ list_refused_once self.old)) }
        ensures fits { self.old.refused ≤ last_count }
        ensures own { self.new.whole ≡ false → self.new ≡ as_own self.new.shares }
    {
        if self.out {
            return push_out(&mut self.shared, a);
        }
        if let Err(_) = self.items.push(a) {
            self.refused = self.refused.saturating_add(1);
            return Err(Refused(a));
        }
        self.idle = false;
        Ok(())
    }

    /// Takes an address from the list, of which no share is out. None where there is none.
    pub fn pop(&mut self) -> Option<u32>
        requires whole { self.old.whole ≡ true }
        ensures items { MatchOption result ((self.old.items ≡ []) × (self.new.items ≡ []))
            (λ a. IsOneMore self.new.items a self.old.items) }
        ensures idle { MatchOption result (self.new.idle ≡ true) (λ a. self.new.idle ≡ false) }
        ensures refused { self.new.refused ≡ self.old.refused }
        ensures whole { self.new.whole ≡ true }
        ensures shares { length self.new.shares ≡ length self.old.shares }
    {
        // A list with an item isn't idle, so that only the end of a list is written down.
        if let Some(a) = self.items.pop() {
            return Some(a);
        }
        if let Some(a) = pop_left(&mut self.shared, &mut self.left) {
            return Some(a);
        }
        self.idle = true;
        None
    }

    /// The owner's share, for calls that take a share.
    pub fn own_share(&mut self) -> &mut Share
        requires out { self.old.whole ≡ false }
        ensures* lends { sem 𝓛 (LendsOwn self.entry result) }
        ensures share { result.now ≡ at self.old.shares 0 }
        ensures some { 0 < length self.old.shares }
    {
        match &mut self.shared {
            Some(list) => list.own(),
            None => unreachable!(),
        }
    }

    /// Takes all shares in, without memory: what is left on their lists is on the list from now on.
    pub fn finish(&mut self, shares: Vec<Share>) -> Tally
        requires out { self.old.whole ≡ false }
        requires all { AreAllShares self.old.shares shares.items }
        ensures pushed { result.pushed ≡ length (put_by (self.old.shares ++ shares.items)) }
        ensures taken { result.taken ≡ length (taken_by (self.old.shares ++ shares.items)) }
        ensures left { result.left ≡ length self.new.items }
        ensures items { IsTakenOrLeft (self.old.shares ++ shares.items) self.new.items }
        ensures same { HaveSameItems (self.old.shares ++ shares.items) self.new.shares
            × EndsAreJoined self.new.shares }
        ensures refused { self.new.refused
            ≡ min (refused_by (self.old.shares ++ shares.items)) last_count }
        ensures whole { self.new.whole ≡ true }
        ensures awake { self.new.idle ≡ false }
    {
        let (tally, refused) = take_in(&mut self.shared, &mut self.left, shares);
        self.refused = refused;
        self.out = false;
        tally
    }

    /// How many addresses a list without shares has. One with shares may have more.
    pub fn len(&self) -> usize
        ensures alone { self.now.shares ≡ [] → result ≡ length self.now.items }
        ensures some { result ≤ length self.now.items }
    {
        self.items.len()
    }

    /// How many pushes were refused, those of the shares among them once they were taken in. It stays
    /// at its last value once it is there.
    pub fn refused(&self) -> u64
        ensures { result ≡ self.now.refused }
    {
        match &self.shared {
            Some(list) if self.out => list.refused(),
            _ => self.refused,
        }
    }

    /// Whether the list has found nothing since it was made, took its shares in, or last put or gave an
    /// address. While shares are out, a pop and a steal of the owner's share have.
    pub fn idle(&self) -> bool
        ensures { result ≡ self.now.idle }
    {
        match &self.shared {
            Some(list) if self.out => list.idle(),
            _ => self.idle,
        }
    }
}
