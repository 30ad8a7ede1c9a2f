// A share: a list of its own, and the lists of others from which it steals.

ghost use Rattle.std.specs.Prelude.{◌≡◌, ◌≤◌, ◌<◌, ◌&&◌, true, false, length};
ghost use Rattle.std.specs.Prelude.{IfErr, OnOk, MatchOption};
ghost use Rattle.mark_worklist.specs.Hands.{WasEmpty};
ghost use Rattle.mark_worklist.specs.Shares.{share_pushed, popped, refused_once, last_count};
ghost use Rattle.mark_worklist.specs.Shares.{MovedFrom, Stole, StoleNone, IsSameShare};

use crate::ends::{OtherEnd, OwnEnd};
use std::marker::Model;
use thiserror::Error;

/// A list takes no more items once so many may have come onto it.
const MOST_ITEMS: u64 = 1 << 60;

/// So many items a steal moves at most.
const MOST_MOVED: u64 = 512;

/// The item of a push that was refused, for want of memory or because too many came onto the list.
#[derive(Debug, Drop, Error, PartialEq)]
#[error("item {0} was refused")]
pub struct Refused(pub u32);

/// A list of its own, to which it pushes and from which it pops, and an end of each other list, from
/// which it steals. It counts what it pushed, and how many items it may have moved to its own list.
#[derive(Drop)]
pub struct Share {
    pub(crate) number: u32,
    pub(crate) own: OwnEnd,
    pub(crate) others: Vec<OtherEnd>,
    pub(crate) pushed: u64,
    pub(crate) moved: u64,
    pub(crate) refused: u64,
    pub(crate) pop_found_none: bool,
    pub(crate) steal_found_none: bool,
}

impl Model for Share {
    ghost use Rattle.std.specs.Prelude.{◌≡◌, ◌≤◌, ◌+◌, ◌^◌, length};
    ghost use Rattle.mark_worklist.specs.Shares.{ShareState};

    ghost Value = { ShareState };

    ghost view = { λ s. record {
      number = s.number;
      own = s.own;
      others = s.others.items;
      refused = s.refused;
      pop_found_none = s.pop_found_none;
      steal_found_none = s.steal_found_none;
    } };

    ghost invariant = { λ s. (s.pushed ≡ length s.own.hand.put)
        × (length s.own.hand.brought ≤ s.moved)
        × (s.pushed + s.moved ≤ 2 ^ 60) };
}

impl Share {
    /// Puts an item on its own list. Want of memory is free, and so is a push once 2^60 items may have
    /// come onto the list: the item is handed back.
    pub fn push(&mut self, a: u32) -> Result<(), Refused>
        ensures done { OnOk result (self.new ≡ share_pushed self.old a) }
        ensures refused { IfErr result (λ back.
            (back.0 ≡ a) × (self.new ≡ refused_once self.old)) }
        ensures same { IsSameShare self.old self.new }
        ensures fits { self.old.refused ≤ last_count }
    {
        if self.pushed + self.moved < MOST_ITEMS && self.own.put(a).is_ok() {
            self.pushed += 1;
            self.wake();
            return Ok(());
        }
        self.refused = self.refused.saturating_add(1);
        Err(Refused(a))
    }

    /// Takes the first item of its own list. None only where that was empty at one step of the call.
    pub fn pop(&mut self) -> Option<u32>
        ensures taken { MatchOption result
            ((self.new ≡ record self.old { pop_found_none = true })
            × WasEmpty self.old.own.hand)
            (λ a. self.new ≡ popped self.old a) }
        ensures same { IsSameShare self.old self.new }
    {
        match self.own.take() {
            Some(a) => {
                self.wake();
                Some(a)
            }
            None => {
                self.pop_found_none = true;
                None
            }
        }
    }

    /// Takes the first item of another one's list, and moves about half of those behind it to its own, up
    /// to 32. None only where each other list was empty at one step of the call, or lost items to others
    /// since this share last looked at it.
    pub fn steal(&mut self) -> Option<u32>
        ensures taken { MatchOption result (StoleNone self.old self.new)
            (λ a. Stole self.old a self.new) }
        ensures same { IsSameShare self.old self.new }
    {
        for i in 0..self.others.len() {
            if let Some(a) = self.others[i].steal() {
                self.move_from(i);
                self.wake();
                return Some(a);
            }
        }
        self.steal_found_none = true;
        None
    }

    /// Whether a pop and a steal have both found nothing since the share was made, last put an item and
    /// last gave one.
    pub fn idle(&self) -> bool
        ensures { result ≡ (self.now.pop_found_none && self.now.steal_found_none) }
    {
        self.pop_found_none && self.steal_found_none
    }

    /// How many pushes were refused. It stays at its last value once it is there.
    pub fn refused(&self) -> u64
        ensures { result ≡ self.now.refused }
    {
        self.refused
    }

    /// Its number, which no other share has: 0 is the owner's.
    pub fn number(&self) -> u32
        ensures { result ≡ self.now.number }
    {
        self.number
    }

    /// Moves items from another one's list to its own, unless too many may have come onto that.
    fn move_from(&mut self, i: usize)
        requires within { i < length self.old.others }
        ensures moved { MovedFrom self.old i self.new }
    {
        if self.pushed + self.moved <= MOST_ITEMS - MOST_MOVED {
            self.moved += MOST_MOVED;
            self.others[i].move_some(&mut self.own, MOST_MOVED as usize);
        }
    }

    /// It isn't idle.
    pub(crate) fn wake(&mut self)
        ensures { self.new
            ≡ record self.old { pop_found_none = false; steal_found_none = false } }
    {
        self.pop_found_none = false;
        self.steal_found_none = false;
    }
}
