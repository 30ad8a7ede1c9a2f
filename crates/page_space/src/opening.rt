// The gap that an object leaves where it goes, as far as its ends are near. Where they are not, what
// was known of the page holds no longer: to look further would cost more than it saves.

ghost use Rattle.std.specs.Prelude.{◌≡◌, ◌+◌, ◌*◌, ◌/◌, ◌<◌, ◌≤◌, IfSome, Contains};
ghost use Rattle.gap_bounds.specs.Bodies.{IsPlace};
ghost use Rattle.gap_bounds.specs.Gaps.{KnowsGaps};
ghost use Rattle.gap_bounds.specs.Seat.{OnlyLooked};
ghost use Rattle.gap_bounds.specs.Changes.{GapsOpened};
ghost use Rattle.page_space.specs.Pages.{word_count};
ghost use Rattle.page_space.specs.Space.{IsSeatOf, IsSpaceOf, extents_of_bodies};
ghost use Rattle.page_space.specs.Opening.{IsEdgeBefore, IsEndAfter, without_place};

use crate::space::Space;
use gap_bounds::{BLOCK_WORDS, MutatorSeat};

/// So many blocks before an object, and so many words after it, are near.
const NEAR_BLOCKS: u32 = 4;

const NEAR_WORDS: u32 = 256;

/// The words from one address up to another.
#[derive(Drop)]
struct Gap {
    from: u32,
    until: u32,
}

impl Space {
    /// What is remembered of gaps becomes what holds when the object at an address is gone.
    pub(crate) fn open_gap(&mut self, seat: &mut MutatorSeat, a: u32, size: u32)
        requires space { IsSpaceOf self.old seat.old }
        requires object { Contains (extents_of_bodies seat.old.bodies)
            (record { place = a; size = size }) }
        ensures knows { KnowsGaps self.old.shape
            (without_place (extents_of_bodies seat.old.bodies) a) self.new.gaps }
        ensures rest { self.new ≡ record self.old { gaps = self.new.gaps } }
        ensures view { OnlyLooked seat.old seat.new }
    {
        self.shape_is_valid();
        seat.bodies_lie_apart();
        let page = a / self.page_words;
        match self.gap_around(seat, page, a, size) {
            Some(gap) => self.gaps.open(page, gap.from, gap.until),
            None => {
                let after = (a + size - 1) / self.page_words + 1;
                self.gaps.forget(page, after, self.page_words);
            }
        }
    }

    /// The gap around the object at an address of a page, once it is gone, where the page is known
    /// and the ends of the gap are near.
    fn gap_around(&self, seat: &mut MutatorSeat, page: u32, a: u32, size: u32) -> Option<Gap>
        requires space { IsSpaceOf self.now seat.old }
        requires page { page ≡ a / self.now.shape.page_words }
        requires object { Contains (extents_of_bodies seat.old.bodies)
            (record { place = a; size = size }) }
        ensures gap { IfSome result (λ g. GapsOpened self.now.shape
            (extents_of_bodies seat.old.bodies)
            (without_place (extents_of_bodies seat.old.bodies) a) page g.from g.until) }
        ensures order { IfSome result (λ g. g.from < g.until) }
        ensures inside { IfSome result (λ g. g.until ≤ word_count self.now.shape) }
        ensures view { OnlyLooked seat.old seat.new }
    {
        self.shape_is_valid();
        seat.bodies_lie_apart();
        if size > self.page_words / 2 || !self.gaps.is_known(page) {
            return None;
        }
        let from = self.near_edge(seat, page, a)?;
        let until = self.near_start(seat, page, a + size)?;
        Some(Gap { from, until })
    }

    /// The end of the last object before one that starts at an address, or the page's first word,
    /// where it is near.
    fn near_edge(&self, seat: &mut MutatorSeat, page: u32, a: u32) -> Option<u32>
        requires heap { IsSeatOf self.now seat.old }
        requires start { IsPlace seat.old.bodies a }
        requires first { page * self.now.shape.page_words ≤ a }
        requires address { a < word_count self.now.shape }
        ensures edge { IfSome result (IsEdgeBefore self.now.shape seat.old.bodies page a) }
        ensures view { OnlyLooked seat.old seat.new }
    {
        self.shape_is_valid();
        seat.bodies_lie_apart();
        let start = page * self.page_words;
        if a == start {
            return Some(start);
        }
        let first = page * self.blocks();
        let low = first.max((a / BLOCK_WORDS).saturating_sub(NEAR_BLOCKS));
        match self.last_start_by(seat, low, a - 1) {
            Some(place) => Some(place + self.header_at(seat, place).size),
            None => { if low == first { Some(start) } else { None } }
        }
    }

    /// The first place from an address of a page on, or the page's end, where it is near.
    fn near_start(&self, seat: &mut MutatorSeat, page: u32, after: u32) -> Option<u32>
        requires heap { IsSeatOf self.now seat.old }
        requires page { page < self.now.shape.pages }
        requires order { after ≤ (page + 1) * self.now.shape.page_words }
        ensures end { IfSome result (IsEndAfter self.now.shape seat.old.bodies page after) }
        ensures view { seat.new ≡ seat.old }
    {
        self.shape_is_valid();
        let end = (page + 1) * self.page_words;
        let limit = end.min(after + NEAR_WORDS);
        let next = self.start_from(seat, after, limit);
        if next == limit && limit < end {
            None
        } else {
            Some(next)
        }
    }
}
