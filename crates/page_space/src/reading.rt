// Where objects start, and what their headers tell.

ghost use Rattle.std.specs.Prelude.{◌≡◌, ◌+◌, ◌*◌, ◌/◌, ◌^◌, ◌<◌, [], ◌∷◌, ◌++◌};
ghost use Rattle.std.specs.Prelude.{◌≤◌, ◌↔◌, IsTrue, IfSome, IfNone, Contains, All};
ghost use Rattle.gc_graph.specs.Placement.{IsLowest};
ghost use Rattle.gap_bounds.specs.Bodies.{IsPlace};
ghost use Rattle.gap_bounds.specs.Body.{Body};
ghost use Rattle.gap_bounds.specs.Seat.{OnlyLooked, IsPlaceFrom, block_words};
ghost use Rattle.page_space.specs.Pages.{word_count};
ghost use Rattle.page_space.specs.Space.{IsSeatOf, HasNoStart, IsHeaderOf};
ghost use Rattle.page_space.specs.Space.{IsLastStart, AreStartsOf};
ghost use Rattle.page_space.specs.Walks.{block_end};
ghost use Rattle.page_space.specs.Found.{KeepsFound};

use crate::space::Space;
use gap_bounds::{BLOCK_WORDS, MutatorSeat, Reading};
use object_headers::{Header, SERIAL};

impl Space {
    /// The lowest place from an address up to, and without, `end`, or `end`. It looks at a
    /// word of start bits at a time.
    pub fn start_from(&self, seat: &mut MutatorSeat, from: u32, end: u32) -> u32
        requires heap { IsSeatOf self.now seat.old }
        requires order { from ≤ end }
        requires end { end ≤ word_count self.now.shape }
        ensures none { HasNoStart seat.old.bodies from result }
        ensures within { result ≤ end }
        ensures start { result < end → IsPlace seat.old.bodies result }
        ensures low { from ≤ result }
        ensures view { seat.new ≡ seat.old }
    {
        self.shape_is_valid();
        let mut at = from;
        while at < end {
            if let Some(place) = self.start_in_block(seat, at) {
                return place.min(end);
            }
            at = at / BLOCK_WORDS * BLOCK_WORDS + BLOCK_WORDS;
        }
        end
    }

    /// The lowest place from an address up to the end of its block. One word of start bits tells it.
    #[inline(always)]
    pub(crate) fn start_in_block(&self, seat: &mut MutatorSeat, at: u32) -> Option<u32>
        requires heap { IsSeatOf self.now seat.old }
        requires address { at < word_count self.now.shape }
        ensures found { IfSome result (IsLowest (IsPlaceFrom seat.old.bodies at)) }
        ensures near { IfSome result (λ a. a < block_end at) }
        ensures none { IfNone result (HasNoStart seat.old.bodies at (block_end at)) }
        ensures view { seat.new ≡ seat.old }
    {
        self.shape_is_valid();
        self.words.start_in_block(seat, at)
    }

    /// The highest place in the blocks from `first` up to, and without, `end`.
    pub(crate) fn last_start(&self, seat: &mut MutatorSeat, first: u32, end: u32) -> Option<u32>
        requires heap { IsSeatOf self.now seat.old }
        requires end { block_words * end ≤ word_count self.now.shape }
        ensures found { IfSome result
            (IsLastStart seat.old.bodies (block_words * first) (block_words * end)) }
        ensures none { IfNone result
            (HasNoStart seat.old.bodies (block_words * first) (block_words * end)) }
        ensures view { seat.new ≡ seat.old }
    {
        seat.bodies_lie_apart();
        self.shape_is_valid();
        let mut word = end;
        while word > first {
            word -= 1;
            let bits = self.words.load::<Reading>(seat, self.words.count() + word);
            if bits != 0 {
                return Some(BLOCK_WORDS * word + bits.ilog2());
            }
        }
        None
    }

    /// Whether an object starts at an address of the heap.
    pub fn is_start(&self, seat: &mut MutatorSeat, a: u32) -> bool
        requires heap { IsSeatOf self.now seat.old }
        requires address { a < word_count self.now.shape }
        ensures start { IsTrue result ↔ IsPlace seat.old.bodies a }
        ensures view { seat.new ≡ seat.old }
    {
        seat.bodies_lie_apart();
        let bits = self
            .words
            .load::<Reading>(seat, self.words.count() + a / BLOCK_WORDS);
        bits >> (a % BLOCK_WORDS) & 1 == 1
    }

    /// The start bits of a block: bit `i` is that of its word `i`.
    pub fn starts_in(&self, seat: &mut MutatorSeat, block: u32) -> u64
        requires heap { IsSeatOf self.now seat.old }
        requires block { block < word_count self.now.shape / block_words }
        ensures starts { AreStartsOf seat.old.bodies block result }
        ensures view { seat.new ≡ seat.old }
    {
        seat.bodies_lie_apart();
        self.words.load::<Reading>(seat, self.words.count() + block)
    }

    /// The header of the object that starts at an address.
    pub fn header_at(&self, seat: &mut MutatorSeat, a: u32) -> Header
        requires heap { IsSeatOf self.now seat.old }
        requires start { IsPlace seat.old.bodies a }
        ensures header { (b : Body) → Contains seat.old.bodies b → b.place ≡ a
            → IsHeaderOf seat.old b result }
        ensures least { 2 ≤ result.size }
        ensures inside { a + result.size ≤ word_count self.now.shape }
        ensures looked { seat.new.looked ≡ seat.old.looked ++ a ∷ [] }
        ensures view { OnlyLooked seat.old seat.new }
        ensures done { KeepsFound seat.old seat.new }
    {
        seat.bodies_lie_apart();
        // An object starts here, so the word is a header.
        Header::read_unchecked(self.words.load::<Reading>(seat, a))
    }

    /// The serial number of the object that starts at an address.
    pub fn serial_at(&self, seat: &mut MutatorSeat, a: u32) -> u32
        requires heap { IsSeatOf self.now seat.old }
        requires start { IsPlace seat.old.bodies a }
        requires serials { All (λ b. b.serial < 2 ^ 32) seat.old.bodies }
        ensures serial { (b : Body) → Contains seat.old.bodies b → b.place ≡ a → result ≡ b.serial }
        ensures view { seat.new ≡ seat.old }
    {
        seat.bodies_lie_apart();
        self.words.load::<Reading>(seat, a + SERIAL) as u32
    }
}
