// From object to object through the words of a page.

ghost use Rattle.std.specs.Prelude.{◌≡◌, ℕ, ◌+◌, ◌*◌, ◌/◌, ◌<◌, ◌≤◌, IfSome, IfNone, min};
ghost use Rattle.gc_graph.specs.Placement.{IsLowest, IsNowhere};
ghost use Rattle.gap_bounds.specs.Bodies.{IsInBody};
ghost use Rattle.gap_bounds.specs.Seat.{OnlyLooked, block_words};
ghost use Rattle.gap_bounds.specs.Changes.{HasGroups};
ghost use Rattle.page_space.specs.Pages.{word_count};
ghost use Rattle.page_space.specs.Space.{IsSeatOf, HoldsWhole, extents_of_bodies};
ghost use Rattle.gap_bounds.specs.Seat.{IsPlaceFrom};
ghost use Rattle.page_space.specs.Space.{HasNoStart};
ghost use Rattle.page_space.specs.Walks.{IsEdge, BeginsBetween};
ghost use Rattle.page_space.specs.Found.{KeepsFound};

use crate::space::Space;
use gap_bounds::{BLOCK_WORDS, GROUP_WORDS, MutatorSeat};

/// How far a walk has come, and the longest gap that it passed.
#[derive(Drop)]
pub(crate) struct Walk {
    pub(crate) at: u32,
    pub(crate) longest: u32,
}

impl Space {
    /// How many blocks a page has.
    pub(crate) fn blocks(&self) -> u32
        ensures { block_words * result ≡ self.now.shape.page_words }
    {
        self.shape_is_valid();
        self.page_words / BLOCK_WORDS
    }

    /// How many groups of blocks a page has.
    pub(crate) fn groups(&self) -> u32
        ensures { HasGroups self.now.shape result }
    {
        self.shape_is_valid();
        self.page_words / GROUP_WORDS
    }

    /// The first word from an address of a page on that belongs to no object which begins by it.
    pub(crate) fn edge_from(&self, seat: &mut MutatorSeat, page: u32, at: u32) -> u32
        requires heap { IsSeatOf self.now seat.old }
        requires page { page < self.now.shape.pages }
        requires whole { HoldsWhole self.now.shape seat.old.bodies page }
        requires first { page * self.now.shape.page_words ≤ at }
        requires address { at < (page + 1) * self.now.shape.page_words }
        ensures from { at ≤ result }
        ensures inside { result ≤ (page + 1) * self.now.shape.page_words }
        ensures taken { (x : ℕ) → at ≤ x → x < result → IsInBody seat.old.bodies x }
        ensures edge { IsEdge seat.old.bodies result }
        ensures view { OnlyLooked seat.old seat.new }
        ensures done { KeepsFound seat.old seat.new }
    {
        self.shape_is_valid();
        seat.bodies_lie_apart();
        match self.last_start_by(seat, page * self.blocks(), at) {
            Some(place) => at.max(place + self.header_at(seat, place).size),
            None => at,
        }
    }

    /// Walks on up to `until`, or to the lowest gap of the size in the page that begins before it.
    pub(crate) fn walk(
        &self,
        seat: &mut MutatorSeat,
        page: u32,
        walk: &mut Walk,
        until: u32,
        size: u32,
    ) -> Option<u32>
        requires heap { IsSeatOf self.now seat.old }
        requires page { page < self.now.shape.pages }
        requires whole { HoldsWhole self.now.shape seat.old.bodies page }
        requires from { page * self.now.shape.page_words ≤ walk.old.at }
        requires inside { walk.old.at ≤ (page + 1) * self.now.shape.page_words }
        requires edge { IsEdge seat.old.bodies walk.old.at }
        requires some { 1 ≤ size }
        requires small { size ≤ self.now.shape.page_words }
        requires until { until ≤ (page + 1) * self.now.shape.page_words }
        ensures found { IfSome result (IsLowest (BeginsBetween self.now.shape
            (extents_of_bodies seat.old.bodies) size page walk.old.at until)) }
        ensures none { IfNone result (IsNowhere (BeginsBetween self.now.shape
            (extents_of_bodies seat.old.bodies) size page walk.old.at walk.new.at)) }
        ensures longest { IfNone result ((n a : ℕ) → BeginsBetween self.now.shape
            (extents_of_bodies seat.old.bodies) n page walk.old.at walk.new.at a
            → n ≤ walk.new.longest) }
        ensures until { IfNone result (until ≤ walk.new.at) }
        ensures inside { walk.new.at ≤ (page + 1) * self.now.shape.page_words }
        ensures view { OnlyLooked seat.old seat.new }
        ensures done { KeepsFound seat.old seat.new }
    {
        self.shape_is_valid();
        seat.bodies_lie_apart();
        let end = (page + 1) * self.page_words;
        while walk.at < until {
            let gap = match self.words_to_next(seat, walk.at, size, end) {
                Some(gap) if gap < size => gap,
                None if end - walk.at < size => {
                    walk.longest = walk.longest.max(end - walk.at);
                    walk.at = end;
                    return None;
                }
                _ => return Some(walk.at),
            };
            walk.longest = walk.longest.max(gap);
            let next = walk.at + gap;
            walk.at = next + self.header_at(seat, next).size;
        }
        None
    }

    /// How many words there are from an address to the next place below `end`. None may be told
    /// if there are as many as `size`. In most steps of a walk one word of start bits tells it.
    #[inline(always)]
    fn words_to_next(&self, seat: &mut MutatorSeat, at: u32, size: u32, end: u32) -> Option<u32>
        requires heap { IsSeatOf self.now seat.old }
        requires order { at < end }
        requires size { size ≤ word_count self.now.shape }
        requires end { end ≤ word_count self.now.shape }
        requires blocks { block_words * (end / block_words) ≡ end }
        ensures found { IfSome result (λ n. IsLowest (IsPlaceFrom seat.old.bodies at) (at + n)) }
        ensures within { IfSome result (λ n. at + n < end) }
        ensures none { IfNone result (HasNoStart seat.old.bodies at (min end (at + size))) }
        ensures view { seat.new ≡ seat.old }
    {
        self.shape_is_valid();
        if let Some(place) = self.start_in_block(seat, at) {
            return Some(place - at);
        }
        // The next objects are looked for only as far as the walk needs to know.
        let reach = end.min(at + size);
        let next = self.start_from(seat, at, reach);
        if next < reach { Some(next - at) } else { None }
    }
}
