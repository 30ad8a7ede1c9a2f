// The lowest gap of a size in a page. A search looks only at blocks in which such a gap may begin,
// and writes down how long the gaps are of those in which it looked in vain.

ghost use Rattle.std.specs.Prelude.{◌≡◌, ℕ, ◌+◌, ◌*◌, ◌/◌, ◌<◌, ◌≤◌, true, IfSome, IfNone};
ghost use Rattle.gc_graph.specs.Placement.{IsLowest, IsNowhere};
ghost use Rattle.gap_bounds.specs.Seat.{OnlyLooked};
ghost use Rattle.page_space.specs.Space.{IsSpaceOf, HoldsWhole, extents_of_bodies};
ghost use Rattle.gap_bounds.specs.Gaps.{is_known};
ghost use Rattle.page_space.specs.Walks.{BeginsBetween};
ghost use Rattle.page_space.specs.Found.{KeepsFound};

use crate::space::Space;
use crate::walking::Walk;
use gap_bounds::{BLOCK_WORDS, MutatorSeat};

impl Space {
    /// The lowest gap of the size that begins from an address of a page on, whose objects all lie in
    /// it.
    pub(crate) fn gap_in(
        &mut self,
        seat: &mut MutatorSeat,
        page: u32,
        from: u32,
        size: u32,
    ) -> Option<u32>
        requires space { IsSpaceOf self.old seat.old }
        requires whole { HoldsWhole self.old.shape seat.old.bodies page }
        requires page { page < self.old.shape.pages }
        requires some { 2 ≤ size }
        requires small { size ≤ self.old.shape.page_words / 2 }
        requires from { page * self.old.shape.page_words ≤ from }
        requires end { from ≤ (page + 1) * self.old.shape.page_words }
        ensures found { IfSome result (IsLowest (BeginsBetween self.old.shape
            (extents_of_bodies seat.old.bodies) size page from
            ((page + 1) * self.old.shape.page_words))) }
        ensures none { IfNone result (IsNowhere (BeginsBetween self.old.shape
            (extents_of_bodies seat.old.bodies) size page from
            ((page + 1) * self.old.shape.page_words))) }
        ensures known { is_known self.new.gaps page ≡ true }
        ensures space { IsSpaceOf self.new seat.new }
        ensures shape { self.new.shape ≡ self.old.shape }
        ensures view { OnlyLooked seat.old seat.new }
        ensures done { KeepsFound seat.old seat.new }
    {
        self.learn(seat, page);
        if self.gaps.most(page) < size {
            return None;
        }
        if let Some(place) = self.gap_from(seat, page, from, size) {
            return Some(place);
        }
        self.tighten(seat, page);
        None
    }

    /// A page of which nothing is known gets bounds that no gap exceeds.
    fn learn(&mut self, seat: &mut MutatorSeat, page: u32)
        requires space { IsSpaceOf self.old seat.old }
        requires page { page < self.old.shape.pages }
        ensures known { is_known self.new.gaps page ≡ true }
        ensures space { IsSpaceOf self.new seat.new }
        ensures shape { self.new.shape ≡ self.old.shape }
        ensures view { seat.new ≡ seat.old }
    {
        self.shape_is_valid();
        if !self.gaps.is_known(page) {
            let groups = self.groups();
            self.gaps.learn(page, groups);
        }
    }

    /// The bounds of a page's groups bound the page.
    fn tighten(&mut self, seat: &mut MutatorSeat, page: u32)
        requires space { IsSpaceOf self.old seat.old }
        requires page { page < self.old.shape.pages }
        requires known { is_known self.old.gaps page ≡ true }
        ensures known { self.new.gaps.known ≡ self.old.gaps.known }
        ensures space { IsSpaceOf self.new seat.new }
        ensures shape { self.new.shape ≡ self.old.shape }
        ensures view { seat.new ≡ seat.old }
    {
        self.shape_is_valid();
        let groups = self.groups();
        self.gaps.tighten(page, groups);
    }

    /// The same as `gap_in` for a page that is known.
    fn gap_from(&mut self, seat: &mut MutatorSeat, page: u32, from: u32, size: u32) -> Option<u32>
        requires space { IsSpaceOf self.old seat.old }
        requires whole { HoldsWhole self.old.shape seat.old.bodies page }
        requires page { page < self.old.shape.pages }
        requires known { is_known self.old.gaps page ≡ true }
        requires some { 2 ≤ size }
        requires small { size ≤ self.old.shape.page_words / 2 }
        requires from { page * self.old.shape.page_words ≤ from }
        requires end { from ≤ (page + 1) * self.old.shape.page_words }
        ensures found { IfSome result (IsLowest (BeginsBetween self.old.shape
            (extents_of_bodies seat.old.bodies) size page from
            ((page + 1) * self.old.shape.page_words))) }
        ensures none { IfNone result (IsNowhere (BeginsBetween self.old.shape
            (extents_of_bodies seat.old.bodies) size page from
            ((page + 1) * self.old.shape.page_words))) }
        ensures known { self.new.gaps.known ≡ self.old.gaps.known }
        ensures space { IsSpaceOf self.new seat.new }
        ensures shape { self.new.shape ≡ self.old.shape }
        ensures view { OnlyLooked seat.old seat.new }
        ensures done { KeepsFound seat.old seat.new }
    {
        self.shape_is_valid();
        let end = (page + 1) * self.page_words;
        let mut at = self.gaps.worth_from(from, end, size);
        while at < end {
            if let Some(place) = self.look(seat, page, &mut at, size) {
                return Some(place);
            }
            at = self.gaps.worth_from(at, end, size);
        }
        None
    }

    /// The lowest gap of the size that begins in the block of an address, from this on. Where there
    /// is none, the address moves on, past words at which no such gap begins.
    fn look(&mut self, seat: &mut MutatorSeat, page: u32, at: &mut u32, size: u32) -> Option<u32>
        requires space { IsSpaceOf self.old seat.old }
        requires whole { HoldsWhole self.old.shape seat.old.bodies page }
        requires page { page < self.old.shape.pages }
        requires known { is_known self.old.gaps page ≡ true }
        requires some { 2 ≤ size }
        requires small { size ≤ self.old.shape.page_words / 2 }
        requires first { page * self.old.shape.page_words ≤ at.old }
        requires address { at.old < (page + 1) * self.old.shape.page_words }
        ensures found { IfSome result (IsLowest (BeginsBetween self.old.shape
            (extents_of_bodies seat.old.bodies) size page at.old
            ((page + 1) * self.old.shape.page_words))) }
        ensures none { IfNone result (IsNowhere (BeginsBetween self.old.shape
            (extents_of_bodies seat.old.bodies) size page at.old at.new)) }
        ensures on { IfNone result (at.old < at.new) }
        ensures end { IfNone result (at.new ≤ (page + 1) * self.old.shape.page_words) }
        ensures known { self.new.gaps.known ≡ self.old.gaps.known }
        ensures space { IsSpaceOf self.new seat.new }
        ensures shape { self.new.shape ≡ self.old.shape }
        ensures view { OnlyLooked seat.old seat.new }
        ensures done { KeepsFound seat.old seat.new }
    {
        self.shape_is_valid();
        let until = *at / BLOCK_WORDS * BLOCK_WORDS + BLOCK_WORDS;
        let mut walk = Walk {
            at: self.edge_from(seat, page, *at),
            longest: 0,
        };
        if let Some(place) = self.walk(seat, page, &mut walk, until, size) {
            return Some(place);
        }
        // The blocks that the walk came through from their first words on.
        let first = (*at + (BLOCK_WORDS - 1)) / BLOCK_WORDS;
        let next = walk.at / BLOCK_WORDS;
        self.gaps.saw(first, next, walk.longest);
        *at = next * BLOCK_WORDS;
        None
    }
}
