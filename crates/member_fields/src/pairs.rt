// Ephemeron pairs (`include/cppgc/ephemeron-pair.h`).

ghost use Rattle.std.specs.Prelude.{◌≡◌, ◌↔◌, ◌+◌, false};
ghost use Rattle.marker_core.specs.Bodies.{IsReference};
ghost use Rattle.page_words.specs.Seat.{rewritten};
ghost use Rattle.member_fields.specs.Words.{HasPair, IsWordIn, pair_written};
ghost use Rattle.member_fields.specs.Barrier.{IsReadyToStore, MayKeep, MayKeepNamed, HasBarrier};

use crate::{barrier, words};
use mark_worklist::Marking;
use page_words::{Bodywords, MutatorSeat};
use type_table::fields_stand_apart;

/// The key and the value of the pair whose key is at this offset: each is 0, or a reference.
pub fn read_pair<B: Bodywords>(
    space: &B,
    seat: &mut MutatorSeat,
    holder: u32,
    word: u32,
) -> (u64, u64)
    requires heap { seat.old.heap ≡ B.heap space.now }
    requires pair { HasPair seat.old holder word }
    ensures key { IsWordIn seat.old holder word result.0 }
    ensures value { IsWordIn seat.old holder (word + 1) result.1 }
    ensures view { seat.new ≡ seat.old }
{
    fields_stand_apart();
    seat.bodies_lie_apart();
    let key = words::read(space, seat, holder, word);
    let value = words::read(space, seat, holder, word + 1);
    (key, value)
}

/// Writes both words of the pair whose key is at this offset: `key` and `value` are references, or
/// both 0. The value is stored first, so that nobody meets the key of a value that isn't there yet.
/// While marking goes on the value is marked, and its place goes to the list where it had no mark.
pub fn set_pair<B: Bodywords>(
    space: &B,
    seat: &mut MutatorSeat,
    marking: &mut Marking,
    holder: u32,
    word: u32,
    key: u64,
    value: u64,
)
    requires heap { seat.old.heap ≡ B.heap space.now }
    requires on { marking.old.on ≡ seat.old.on }
    requires ready { IsReadyToStore seat.old }
    requires pair { HasPair seat.old holder word }
    requires holder { MayKeep seat.old holder }
    requires key { IsReference seat.old.bodies key }
    requires value { IsReference seat.old.bodies value }
    requires both { (key ≡ 0) ↔ (value ≡ 0) }
    requires key_kept { MayKeepNamed seat.old key }
    requires value_kept { MayKeepNamed seat.old value }
    ensures words { seat.new.bodies ≡ (pair_written seat.old holder word key value).bodies }
    ensures addresses { pair_written seat.old holder word key value
        ≡ rewritten (rewritten seat.old (holder + (word + 1)) value) (holder + word) key }
    ensures barrier { HasBarrier value (pair_written seat.old holder word key value)
        marking.old seat.new marking.new }
    ensures off { seat.old.on ≡ false → (seat.new ≡ pair_written seat.old holder word key value)
        × (marking.new ≡ marking.old) }
    ensures ready { IsReadyToStore seat.new }
{
    fields_stand_apart();
    seat.bodies_lie_apart();
    words::write_value(space, seat, holder, word, value);
    seat.bodies_lie_apart();
    // A marker that sees the key looks for the value no more once the key has its mark: so the value
    // has its own before the key is there.
    barrier::keep(space, seat, marking, value);
    words::write_key(space, seat, holder, word, key);
}

/// Sets both words of a pair to null, the value first. Null asks for no mark.
pub fn clear_pair<B: Bodywords>(space: &B, seat: &mut MutatorSeat, holder: u32, word: u32)
    requires heap { seat.old.heap ≡ B.heap space.now }
    requires ready { IsReadyToStore seat.old }
    requires pair { HasPair seat.old holder word }
    requires holder { MayKeep seat.old holder }
    ensures words { seat.new ≡ pair_written seat.old holder word 0 0 }
{
    fields_stand_apart();
    seat.bodies_lie_apart();
    words::write_value(space, seat, holder, word, 0);
    words::write_key(space, seat, holder, word, 0);
}
