// Where objects start, by their start bits.

ghost use Rattle.std.specs.Prelude.{◌≡◌, ℕ, ◌+◌, ◌*◌, ◌/◌, ◌<◌, ◌≤◌, IfSome, IfNone};
ghost use Rattle.gc_graph.specs.Placement.{IsLowest, IsNowhere};
ghost use Rattle.marker_core.specs.Bodies.{IsPlace};
ghost use Rattle.page_words.specs.Seat.{IsPlaceFrom};

use crate::mutator::MutatorSeat;
use crate::reasons::Reading;
use crate::words::{BLOCK_WORDS, Words};

impl Words {
    /// The lowest place that is not below an address.
    pub(crate) fn lowest_from(&self, seat: &mut MutatorSeat, from: u32) -> Option<u32>
        requires heap { seat.old.heap ≡ self.now }
        ensures found { IfSome result (IsLowest (IsPlaceFrom seat.old.bodies from)) }
        ensures none { IfNone result (IsNowhere (IsPlaceFrom seat.old.bodies from)) }
        ensures view { seat.new ≡ seat.old }
    {
        seat.bodies_lie_apart();
        let count = self.count();
        let mut at = from;
        while at < count {
            if let Some(place) = self.start_in_block(seat, at) {
                return Some(place);
            }
            at = at / BLOCK_WORDS * BLOCK_WORDS + BLOCK_WORDS;
        }
        None
    }

    /// The lowest place from an address up to the end of its block. One word of start bits tells it.
    #[inline(always)]
    pub fn start_in_block(&self, seat: &mut MutatorSeat, at: u32) -> Option<u32>
        requires heap { seat.old.heap ≡ self.now }
        requires address { at < seat.old.count }
        ensures found { IfSome result (IsLowest (IsPlaceFrom seat.old.bodies at)) }
        ensures near { IfSome result (λ a. a < at / 64 * 64 + 64) }
        ensures none { IfNone result ((a : ℕ) → at ≤ a → a < at / 64 * 64 + 64
            → IsPlace seat.old.bodies a → ⊥) }
        ensures view { seat.new ≡ seat.old }
    {
        seat.bodies_lie_apart();
        let starts = self.count() + at / BLOCK_WORDS;
        let bits = self.load::<Reading>(seat, starts) >> (at % BLOCK_WORDS);
        if bits == 0 {
            return None;
        }
        Some(at + bits.trailing_zeros())
    }
}
