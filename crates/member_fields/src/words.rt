// A word by its object's place and its offset.

ghost use Rattle.std.specs.Prelude.{◌≡◌, ◌⊎◌, ℕ, ◌+◌, ◌≤◌, Bool, true};
ghost use Rattle.gc_graph.specs.declared.kind.Kind.{Kind};
ghost use Rattle.object_headers.specs.Offsets.{first_field};
ghost use Rattle.marker_core.specs.Bodies.{IsReference};
ghost use Rattle.page_words.specs.Bodies.{IsPlainWordAt};
ghost use Rattle.page_words.specs.Seat.{stored, rewritten};
ghost use Rattle.member_fields.specs.Words.{HasFieldWord, HasWordOfSomeKind, HasLoneWord, HasPair};
ghost use Rattle.member_fields.specs.Words.{IsWordIn, written};
ghost use Rattle.member_fields.specs.Barrier.{IsReadyToStore, MayKeep, MayKeepNamed};
ghost use Rattle.member_fields.specs.Keys.{TakesKey};

use page_words::{Bodywords, MutatorSeat, Reading};
use type_table::fields_stand_apart;

/// A word has one kind, and keeps it under each write, and a pair stays one. Whoever calls this has
/// the law. It reads nothing.
pub fn words_keep_their_kind(seat: &MutatorSeat)
    ensures one { (is_so is_other : Kind → Bool) (holder word : ℕ)
        → ((kind : Kind) → is_so kind ≡ true → is_other kind ≡ true → ⊥)
        → HasFieldWord is_so seat.now holder word → HasFieldWord is_other seat.now holder word → ⊥ }
    ensures kept { (is_so : Kind → Bool) (holder word place offset w : ℕ)
        → HasFieldWord is_so seat.now holder word
        → HasFieldWord is_so (written seat.now place offset w) holder word }
    ensures pairs { (holder word place offset w : ℕ) → HasPair seat.now holder word
        → HasPair (written seat.now place offset w) holder word }
{
    seat.bodies_lie_apart();
}

/// After a write the named word holds what was written, and each other word what it held. Whoever
/// calls this has the law. It reads nothing.
pub fn write_is_of_one_word(seat: &MutatorSeat)
    ensures named { (holder word w : ℕ) → HasWordOfSomeKind seat.now holder word
        → IsWordIn (written seat.now holder word w) holder word w }
    ensures others { (holder word w place offset x : ℕ) → first_field ≤ word → first_field ≤ offset
        → (place ≡ holder → offset ≡ word → ⊥) → IsWordIn seat.now place offset x
        → IsWordIn (written seat.now holder word w) place offset x }
{
    seat.bodies_lie_apart();
}

/// Reads a field word.
pub fn read<B: Bodywords>(space: &B, seat: &mut MutatorSeat, holder: u32, word: u32) -> u64
    requires heap { seat.old.heap ≡ B.heap space.now }
    requires field { HasWordOfSomeKind seat.old holder word }
    ensures word { IsWordIn seat.old holder word result }
    ensures view { seat.new ≡ seat.old }
{
    seat.bodies_lie_apart();
    space.load::<Reading>(seat, holder + word)
}

/// Writes a field word that belongs to no pair.
pub fn write<B: Bodywords>(space: &B, seat: &mut MutatorSeat, holder: u32, word: u32, w: u64)
    requires heap { seat.old.heap ≡ B.heap space.now }
    requires ready { IsReadyToStore seat.old }
    requires field { HasLoneWord seat.old holder word }
    requires holder { MayKeep seat.old holder }
    requires word { IsPlainWordAt seat.old.types seat.old.bodies (holder + word)
        ⊎ (IsReference seat.old.bodies w × MayKeepNamed seat.old w) }
    ensures view { seat.new ≡ stored seat.old (holder + word) w }
    ensures address { written seat.old holder word w ≡ rewritten seat.old (holder + word) w }
{
    seat.bodies_lie_apart();
    space.store(seat, holder + word, w);
}

/// Writes the value of the pair whose key is at an offset.
pub fn write_value<B: Bodywords>(
    space: &B,
    seat: &mut MutatorSeat,
    holder: u32,
    word: u32,
    value: u64,
)
    requires heap { seat.old.heap ≡ B.heap space.now }
    requires ready { IsReadyToStore seat.old }
    requires pair { HasPair seat.old holder word }
    requires holder { MayKeep seat.old holder }
    requires value { IsReference seat.old.bodies value }
    requires kept { MayKeepNamed seat.old value }
    ensures view { seat.new ≡ stored seat.old (holder + (word + 1)) value }
    ensures named { IsReference seat.new.bodies value }
{
    fields_stand_apart();
    seat.bodies_lie_apart();
    space.store(seat, holder + (word + 1), value);
}

/// Writes the key of the pair at an offset, whose value stands already.
pub fn write_key<B: Bodywords>(space: &B, seat: &mut MutatorSeat, holder: u32, word: u32, key: u64)
    requires heap { seat.old.heap ≡ B.heap space.now }
    requires takes { TakesKey seat.old holder word key }
    ensures word { seat.new ≡ written seat.old holder word key }
{
    fields_stand_apart();
    seat.bodies_lie_apart();
    space.store(seat, holder + word, key);
}
