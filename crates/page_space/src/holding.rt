// Whose word an address is, inner words too: what a conservative look at a stack asks. See "Precise
// and conservative garbage collection" in `include/cppgc/README.md`.

ghost use Rattle.std.specs.Prelude.{◌≡◌, ℕ, ◌+◌, ◌*◌, ◌<◌, ◌≤◌, Some, IfSome, IfNone};
ghost use Rattle.gc_graph.specs.Placement.{IsNowhere};
ghost use Rattle.gap_bounds.specs.Bodies.{IsPlace};
ghost use Rattle.gap_bounds.specs.Seat.{OnlyLooked, block_words};
ghost use Rattle.page_space.specs.Pages.{word_count};
ghost use Rattle.page_space.specs.Space.{IsSeatOf, IsSpaceOf, HoldsAddress};
ghost use Rattle.page_space.specs.Space.{HasNoStart, IsLastStart};

use crate::space::{LARGE, Space};
use gap_bounds::{BLOCK_WORDS, MutatorSeat, Reading};

impl Space {
    /// The place of the object that has the word at an address, which may be any number.
    pub fn start_of(&self, seat: &mut MutatorSeat, inner: u64) -> Option<u32>
        requires space { IsSpaceOf self.now seat.old }
        ensures found { IfSome result (HoldsAddress seat.old.bodies inner) }
        ensures none { IfNone result (IsNowhere (HoldsAddress seat.old.bodies inner)) }
        ensures view { OnlyLooked seat.old seat.new }
    {
        seat.bodies_lie_apart();
        self.shape_is_valid();
        if inner >= u64::from(self.word_count()) {
            return None;
        }
        let a = inner as u32;
        match self.only_start_for(seat, a) {
            Some(place) if a - place < self.header_at(seat, place).size => Some(place),
            _ => None,
        }
    }

    /// The place of the only object that may have the word at an address of the heap.
    fn only_start_for(&self, seat: &mut MutatorSeat, a: u32) -> Option<u32>
        requires space { IsSpaceOf self.now seat.old }
        requires address { a < word_count self.now.shape }
        ensures place { IfSome result (IsPlace seat.old.bodies) }
        ensures low { IfSome result (λ p. p ≤ a) }
        ensures only { (p : ℕ) → HoldsAddress seat.old.bodies a p → result ≡ Some p }
        ensures view { seat.new ≡ seat.old }
    {
        seat.bodies_lie_apart();
        self.shape_is_valid();
        let page = a / self.page_words;
        if self.table.objects_in(page) == 0 {
            return None;
        }
        if self.table.bucket_of_page(page) == LARGE {
            return Some(self.table.start_of_page(page) * self.page_words);
        }
        self.last_start_by(seat, page * self.blocks(), a)
    }

    /// The highest place from the first word of a block up to, and with, an address.
    pub(crate) fn last_start_by(&self, seat: &mut MutatorSeat, first: u32, a: u32) -> Option<u32>
        requires heap { IsSeatOf self.now seat.old }
        requires first { block_words * first ≤ a }
        requires address { a < word_count self.now.shape }
        ensures found { IfSome result
            (IsLastStart seat.old.bodies (block_words * first) (a + 1)) }
        ensures none { IfNone result
            (HasNoStart seat.old.bodies (block_words * first) (a + 1)) }
        ensures view { seat.new ≡ seat.old }
    {
        seat.bodies_lie_apart();
        let block = a / BLOCK_WORDS;
        let up_to_a = u64::MAX >> (BLOCK_WORDS - 1 - a % BLOCK_WORDS);
        let bits = self.words.load::<Reading>(seat, self.words.count() + block) & up_to_a;
        if bits != 0 {
            return Some(BLOCK_WORDS * block + bits.ilog2());
        }
        self.last_start(seat, first, block)
    }
}
