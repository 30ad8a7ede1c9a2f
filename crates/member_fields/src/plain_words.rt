// Plain fields, and the extra words of an object, which are plain too
// (`include/cppgc/allocation.h`, `AdditionalBytes`).

ghost use Rattle.std.specs.Prelude.{◌≡◌, ◌+◌};
ghost use Rattle.gc_graph.specs.Fields.{is_plain};
ghost use Rattle.page_words.specs.Seat.{rewritten};
ghost use Rattle.member_fields.specs.Words.{HasFieldWord, IsWordIn, written};
ghost use Rattle.member_fields.specs.Barrier.{IsReadyToStore, MayKeep};

use crate::words;
use page_words::{Bodywords, MutatorSeat};

/// The number in a plain word.
pub fn get_word<B: Bodywords>(space: &B, seat: &mut MutatorSeat, holder: u32, word: u32) -> u64
    requires heap { seat.old.heap ≡ B.heap space.now }
    requires field { HasFieldWord is_plain seat.old holder word }
    ensures word { IsWordIn seat.old holder word result }
    ensures view { seat.new ≡ seat.old }
{
    words::read(space, seat, holder, word)
}

/// Puts a number into a plain word. No collection takes it for a reference.
pub fn put_word<B: Bodywords>(space: &B, seat: &mut MutatorSeat, holder: u32, word: u32, n: u64)
    requires heap { seat.old.heap ≡ B.heap space.now }
    requires ready { IsReadyToStore seat.old }
    requires field { HasFieldWord is_plain seat.old holder word }
    requires holder { MayKeep seat.old holder }
    ensures word { seat.new ≡ written seat.old holder word n }
    ensures address { seat.new ≡ rewritten seat.old (holder + word) n }
{
    seat.bodies_lie_apart();
    words::write(space, seat, holder, word, n);
}
