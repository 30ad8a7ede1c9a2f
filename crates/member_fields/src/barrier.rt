// The barrier of a store (`src/heap/cppgc/write-barrier.h`): while marking goes on, what a strong
// field or a pair's value comes to name is marked.

ghost use Rattle.std.specs.Prelude.{◌≡◌};
ghost use Rattle.marker_core.specs.Bodies.{IsReference};
ghost use Rattle.member_fields.specs.Barrier.{MayKeepNamed, HasBarrier};

use mark_worklist::Marking;
use object_headers::place_in;
use page_words::{Bodywords, MutatorSeat};

/// Marks what a stored word names while marking goes on, whether it has the mark or not: a header
/// that has it must be seen too before a key may be stored beside the word.
pub fn keep<B: Bodywords>(words: &B, seat: &mut MutatorSeat, marking: &mut Marking, target: u64)
    requires heap { seat.old.heap ≡ B.heap words.now }
    requires on { marking.old.on ≡ seat.old.on }
    requires target { IsReference seat.old.bodies target }
    requires kept { MayKeepNamed seat.old target }
    ensures { HasBarrier target seat.old marking.old seat.new marking.new }
{
    seat.bodies_lie_apart();
    if !marking.on {
        return;
    }
    if let Some(place) = place_in(target) {
        if words.mark(seat, place) {
            marking.push(place);
        }
    }
}
