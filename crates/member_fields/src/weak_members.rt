// Weak fields (`include/cppgc/member.h`).

ghost use Rattle.std.specs.Prelude.{◌≡◌, ◌+◌};
ghost use Rattle.gc_graph.specs.Fields.{is_weak};
ghost use Rattle.marker_core.specs.Bodies.{IsReference};
ghost use Rattle.page_words.specs.Seat.{rewritten};
ghost use Rattle.member_fields.specs.Words.{HasFieldWord, written};
ghost use Rattle.member_fields.specs.Barrier.{IsReadyToStore, MayKeep, MayKeepNamed};

use crate::words;
use page_words::{Bodywords, MutatorSeat};

/// Makes a weak field refer to an object, or to none: `target` is a reference, or 0. What is weakly
/// named is not kept for it, and gets no mark.
pub fn set_weak<B: Bodywords>(
    space: &B,
    seat: &mut MutatorSeat,
    holder: u32,
    word: u32,
    target: u64,
)
    requires heap { seat.old.heap ≡ B.heap space.now }
    requires ready { IsReadyToStore seat.old }
    requires field { HasFieldWord is_weak seat.old holder word }
    requires holder { MayKeep seat.old holder }
    requires target { IsReference seat.old.bodies target }
    requires kept { MayKeepNamed seat.old target }
    ensures word { seat.new ≡ written seat.old holder word target }
    ensures address { seat.new ≡ rewritten seat.old (holder + word) target }
{
    seat.bodies_lie_apart();
    words::write(space, seat, holder, word, target);
}
