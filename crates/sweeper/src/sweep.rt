// A sweep, page by page.

ghost use Rattle.std.specs.Prelude.{◌≡◌, ℕ, ◌+◌, ◌*◌, ◌<◌, ◌≤◌, length, vec_capacity};
ghost use Rattle.page_space.specs.Seat.{IsQuiet, OnlyLooked};
ghost use Rattle.page_space.specs.Pages.{word_count};
ghost use Rattle.page_space.specs.Space.{IsSpaceOf};
ghost use Rattle.sweeper.specs.Sweeping.{cursor_at, dead_between, MaySweep, IsClearBelow};
ghost use Rattle.sweeper.specs.Sweeping.{Sweeps, all_swept};

use crate::objects::sweep_objects;
use page_space::{MutatorSeat, Space};
use std::marker::Model;

/// How far a sweep has come: pages are swept in their order, and those below the cursor are.
#[derive(Drop)]
pub struct Sweep {
    pages: u32,
    cursor: u32,
}

/// What sweeping a page did.
#[derive(Drop)]
pub struct PageSwept {
    pub finalised: u32,
}

impl Model for Sweep {
    ghost use Rattle.std.specs.Prelude.{◌≤◌};
    ghost use Rattle.sweeper.specs.Sweeping.{SweepView};

    ghost Value = { SweepView };

    ghost view = { λ s. record { pages = s.pages; cursor = s.cursor } };

    ghost invariant = { λ s. s.cursor ≤ s.pages };
}

impl Sweep {
    /// No sweep of so many pages is open: all count as swept.
    pub fn idle(pages: u32) -> Sweep
        ensures { result ≡ record { pages = pages; cursor = pages } }
    {
        Sweep {
            pages,
            cursor: pages,
        }
    }

    /// A sweep begins: no page is swept.
    pub fn begin(&mut self)
        ensures { self.new ≡ record self.old { cursor = 0 } }
    {
        self.cursor = 0;
    }

    /// How many pages are swept.
    pub fn cursor(&self) -> u32
        ensures cursor { result ≡ self.now.cursor }
        ensures most { self.now.cursor ≤ self.now.pages }
    {
        self.cursor
    }

    /// Sweeps the page at the cursor, for whose dead objects `done` has room.
    pub fn page(
        &mut self,
        space: &mut Space,
        seat: &mut MutatorSeat,
        done: &mut Vec<u32>,
    ) -> PageSwept
        requires sweeping { MaySweep self.old space.old seat.old }
        requires open { self.old.cursor < self.old.pages }
        requires room { length done.old.items
            + dead_between (cursor_at space.old.shape self.old)
            (cursor_at space.old.shape self.old + space.old.shape.page_words) seat.old
            ≤ vec_capacity done.old }
        ensures cursor { self.new ≡ record self.old { cursor = self.old.cursor + 1 } }
        ensures swept { Sweeps (cursor_at space.old.shape self.old)
            (cursor_at space.old.shape self.new)
            seat.old done.old.items seat.new done.new.items }
        ensures finalised { length done.new.items
            ≡ length done.old.items + result.finalised }
        ensures sweeping { MaySweep self.new space.new seat.new }
        ensures clear { IsClearBelow (cursor_at space.old.shape self.old) seat.old
            → IsClearBelow (cursor_at space.old.shape self.new) seat.new }
        ensures quiet { IsClearBelow (cursor_at space.old.shape self.old) seat.old
            → self.new.cursor ≡ self.new.pages → IsQuiet seat.new }
        ensures shape { space.new.shape ≡ space.old.shape }
        ensures room { vec_capacity done.new ≡ vec_capacity done.old }
    {
        space.shape_is_valid();
        let before = done.len();
        let page = self.cursor;
        let start = page * space.page_words();
        sweep_objects(space, seat, start, start + space.page_words(), done);
        seat.bodies_lie_apart();
        self.cursor = page + 1;
        PageSwept {
            finalised: (done.len() - before) as u32,
        }
    }

    /// Sweeps the pages that are left, for whose dead objects `done` has room. Answers how many
    /// objects were finalised.
    pub fn finish(&mut self, space: &mut Space, seat: &mut MutatorSeat, done: &mut Vec<u32>) -> u32
        requires sweeping { MaySweep self.old space.old seat.old }
        requires room { length done.old.items
            + dead_between (cursor_at space.old.shape self.old) (word_count space.old.shape)
            seat.old ≤ vec_capacity done.old }
        ensures cursor { self.new ≡ record self.old { cursor = self.old.pages } }
        ensures swept { Sweeps (cursor_at space.old.shape self.old)
            (cursor_at space.old.shape self.new)
            seat.old done.old.items seat.new done.new.items }
        ensures finalised { length done.new.items ≡ length done.old.items + result }
        ensures sweeping { MaySweep self.new space.new seat.new }
        ensures all { IsClearBelow (cursor_at space.old.shape self.old) seat.old
            → OnlyLooked (all_swept seat.old) seat.new }
        ensures shape { space.new.shape ≡ space.old.shape }
        ensures room { vec_capacity done.new ≡ vec_capacity done.old }
    {
        seat.bodies_lie_apart();
        let before = done.len();
        while self.cursor < self.pages {
            self.page(space, seat, done);
        }
        (done.len() - before) as u32
    }
}

/// At most half as many objects are dead as there are words, wherever these are, and a part of the
/// words has no more of them. Whoever calls this has the laws. It reads nothing.
pub fn dead_are_few(space: &Space, seat: &MutatorSeat)
    ensures few { (from until : ℕ) → IsSpaceOf space.now seat.now
        → 2 * dead_between from until seat.now ≤ word_count space.now.shape }
    ensures part { (from mid until end : ℕ) → from ≤ mid → until ≤ end
        → dead_between mid until seat.now ≤ dead_between from end seat.now }
{
    let _ = space;
    let _ = seat;
}
