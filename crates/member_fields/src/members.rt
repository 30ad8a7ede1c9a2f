// Strong fields, and what is read of weak ones (`include/cppgc/member.h`).

ghost use Rattle.std.specs.Prelude.{◌≡◌, ◌+◌, false};
ghost use Rattle.gc_graph.specs.declared.kind.Kind.TheVariants.{Strong};
ghost use Rattle.gc_graph.specs.Fields.{is_reference};
ghost use Rattle.type_table.specs.Types.{is_kind};
ghost use Rattle.marker_core.specs.Bodies.{IsReference};
ghost use Rattle.page_words.specs.Seat.{rewritten};
ghost use Rattle.member_fields.specs.Words.{HasFieldWord, IsWordIn, written};
ghost use Rattle.member_fields.specs.Barrier.{IsReadyToStore, MayKeep, MayKeepNamed, HasBarrier};

use crate::{barrier, words};
use mark_worklist::Marking;
use page_words::{Bodywords, MutatorSeat};

/// What a strong or weak field refers to: 0, or a reference (`object_headers::place_in`).
pub fn get<B: Bodywords>(space: &B, seat: &mut MutatorSeat, holder: u32, word: u32) -> u64
    requires heap { seat.old.heap ≡ B.heap space.now }
    requires field { HasFieldWord is_reference seat.old holder word }
    ensures word { IsWordIn seat.old holder word result }
    ensures view { seat.new ≡ seat.old }
{
    words::read(space, seat, holder, word)
}

/// Makes a strong field refer to an object, or to none: `target` is a reference, or 0. While marking
/// goes on the object is marked, and its place goes to the list where it had no mark.
pub fn set<B: Bodywords>(
    space: &B,
    seat: &mut MutatorSeat,
    marking: &mut Marking,
    holder: u32,
    word: u32,
    target: u64,
)
    requires heap { seat.old.heap ≡ B.heap space.now }
    requires on { marking.old.on ≡ seat.old.on }
    requires ready { IsReadyToStore seat.old }
    requires field { HasFieldWord (is_kind Strong) seat.old holder word }
    requires holder { MayKeep seat.old holder }
    requires target { IsReference seat.old.bodies target }
    requires kept { MayKeepNamed seat.old target }
    ensures word { seat.new.bodies ≡ (written seat.old holder word target).bodies }
    ensures address { written seat.old holder word target
        ≡ rewritten seat.old (holder + word) target }
    ensures barrier { HasBarrier target (written seat.old holder word target)
        marking.old seat.new marking.new }
    ensures off { seat.old.on ≡ false
        → (seat.new ≡ written seat.old holder word target) × (marking.new ≡ marking.old) }
    ensures ready { IsReadyToStore seat.new }
{
    seat.bodies_lie_apart();
    words::write(space, seat, holder, word, target);
    // The word goes in first: a marker that traces the holder from here on finds the target itself.
    barrier::keep(space, seat, marking, target);
}

/// Makes a strong field null. What it named stays what it was, and null asks for no mark.
pub fn clear<B: Bodywords>(space: &B, seat: &mut MutatorSeat, holder: u32, word: u32)
    requires heap { seat.old.heap ≡ B.heap space.now }
    requires ready { IsReadyToStore seat.old }
    requires field { HasFieldWord (is_kind Strong) seat.old holder word }
    requires holder { MayKeep seat.old holder }
    ensures word { seat.new ≡ written seat.old holder word 0 }
    ensures address { seat.new ≡ rewritten seat.old (holder + word) 0 }
{
    seat.bodies_lie_apart();
    words::write(space, seat, holder, word, 0);
}
