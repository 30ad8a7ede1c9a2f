// A new object in free words, and a dead one that goes.

ghost use Rattle.std.specs.Prelude.{◌≡◌, ℕ, ◌+◌, ◌-◌, ◌^◌, ◌<◌, ◌≤◌, false, true};
ghost use Rattle.std.specs.Prelude.{length, Contains};
ghost use Rattle.object_headers.specs.Offsets.{first_field};
ghost use Rattle.gap_bounds.specs.Body.{Body};
ghost use Rattle.gap_bounds.specs.Bodies.{IsInBody, holds};
ghost use Rattle.gap_bounds.specs.Seat.{IsUnnamed, OnlyLooked, retracted};
ghost use Rattle.page_space.specs.Space.{IsSeatOf, IsSpaceOf, IsFreePlace, extents_of_bodies};
ghost use Rattle.page_space.specs.Occupying.{IsRoom, HasNulls, Occupies, IsNewNumber, least_size};
ghost use Rattle.page_space.specs.Occupying.{new_body, nulled, turn_words};

use crate::space::{Space, bucket_of};
use gap_bounds::{MutatorSeat, Words};
use object_headers::{FIRST_FIELD, Header, SERIAL};

/// So many words of a new object are written in one turn.
const TURN_WORDS: u32 = 8;

impl Space {
    /// Writes an object whose fields are null to a free place, and publishes it.
    pub fn occupy(&mut self, seat: &mut MutatorSeat, a: u32, ty: u32, size: u32, serial: u32)
        requires space { IsSpaceOf self.old seat.old }
        requires place { IsFreePlace self.old.shape (extents_of_bodies seat.old.bodies) size a }
        requires ty { ty < length seat.old.types }
        requires least { least_size seat.old ty ≤ size }
        requires most { size < 2 ^ 26 }
        requires number { IsNewNumber seat.old serial }
        ensures occupied { Occupies seat.old seat.new (new_body a ty size serial) }
        ensures space { IsSpaceOf self.new seat.new }
        ensures shape { self.new.shape ≡ self.old.shape }
    {
        seat.bodies_lie_apart();
        self.shape_is_valid();
        self.write_object(seat, a, ty, size, serial);
        self.objects += 1;
        self.used += size;
        let page = a / self.page_words;
        let after = (a + size - 1) / self.page_words + 1;
        let bucket = bucket_of(self.page_words, size);
        let was_empty = self.table.objects_in(page) == 0;
        self.gaps.fill(page * self.page_words, was_empty);
        self.table.enter(page, after, bucket);
    }

    /// Takes a dead object of a size away to which no object that isn't dead refers, while no marking
    /// goes on.
    pub fn free(&mut self, seat: &mut MutatorSeat, a: u32, size: u32)
        requires space { IsSpaceOf self.old seat.old }
        requires off { seat.old.on ≡ false }
        requires dead { holds seat.old.dead a ≡ true }
        requires unnamed { IsUnnamed seat.old.types seat.old.bodies seat.old.dead a }
        requires size { (b : Body) → Contains seat.old.bodies b → b.place ≡ a → size ≡ b.size }
        ensures freed { OnlyLooked (retracted seat.old a) seat.new }
        ensures space { IsSpaceOf self.new seat.new }
        ensures shape { self.new.shape ≡ self.old.shape }
    {
        seat.bodies_lie_apart();
        self.shape_is_valid();
        self.open_gap(seat, a, size);
        self.words.retract(seat, a);
        self.objects -= 1;
        self.used -= size;
        let after = (a + size - 1) / self.page_words + 1;
        self.table.leave(a / self.page_words, after);
    }

    /// Writes an object whose fields are null into free words, and publishes it.
    fn write_object(&self, seat: &mut MutatorSeat, a: u32, ty: u32, size: u32, serial: u32)
        requires heap { IsSeatOf self.now seat.old }
        requires room { IsRoom seat.old size a }
        requires ty { ty < length seat.old.types }
        requires least { least_size seat.old ty ≤ size }
        requires most { size < 2 ^ 26 }
        requires number { IsNewNumber seat.old serial }
        ensures { Occupies seat.old seat.new (new_body a ty size serial) }
    {
        self.shape_is_valid();
        fill_nulls(&self.words, seat, a + FIRST_FIELD, a + size);
        self.head_and_publish(seat, a, ty, size, serial);
    }

    /// Writes header and serial number before an object's null fields, and publishes it.
    fn head_and_publish(&self, seat: &mut MutatorSeat, a: u32, ty: u32, size: u32, serial: u32)
        ghost body: { Body }
        requires heap { IsSeatOf self.now seat.old }
        requires body { body ≡ new_body a ty size serial }
        requires room { IsRoom seat.old size a }
        requires ty { ty < length seat.old.types }
        requires least { least_size seat.old ty ≤ size }
        requires most { size < 2 ^ 26 }
        requires number { IsNewNumber seat.old serial }
        requires fields { HasNulls seat.old.filled (a + first_field) (size - first_field) }
        ensures { Occupies seat.old seat.new body }
    {
        seat.bodies_lie_apart();
        self.shape_is_valid();
        // Nobody sees these words before the object is published.
        self.words
            .fill(seat, a, Header::pack(true, false, false, ty, size));
        self.words.fill(seat, a + SERIAL, u64::from(serial));
        self.words.publish(seat, a);
    }
}

/// Writes null to words from an address up to another that belong to no object, `TURN_WORDS` of them at a
/// time as long as there are so many.
fn fill_nulls(words: &Words, seat: &mut MutatorSeat, first: u32, end: u32)
    requires heap { seat.old.heap ≡ words.now }
    requires order { first ≤ end }
    requires end { end ≤ seat.old.count }
    requires outside { (x : ℕ) → first ≤ x → x < end → IsInBody seat.old.bodies x → ⊥ }
    ensures { seat.new ≡ nulled seat.old first (end - first) }
{
    let mut x = first;
    while end - x >= TURN_WORDS {
        fill_turn(words, seat, x);
        x += TURN_WORDS;
    }
    fill_rest(words, seat, x, end);
}

/// Writes null to `TURN_WORDS` words from an address on. Their number is known where this is compiled, so
/// that it is no loop there.
#[inline(always)]
fn fill_turn(words: &Words, seat: &mut MutatorSeat, first: u32)
    requires heap { seat.old.heap ≡ words.now }
    requires end { first + turn_words ≤ seat.old.count }
    requires fits { first + turn_words < 2 ^ 32 }
    requires outside { (x : ℕ) → first ≤ x → x < first + turn_words → IsInBody seat.old.bodies x → ⊥ }
    ensures { seat.new ≡ nulled seat.old first turn_words }
{
    for i in 0..TURN_WORDS {
        words.fill(seat, first + i, 0);
    }
}

/// Writes null to the words that are left.
fn fill_rest(words: &Words, seat: &mut MutatorSeat, first: u32, end: u32)
    requires heap { seat.old.heap ≡ words.now }
    requires order { first ≤ end }
    requires end { end ≤ seat.old.count }
    requires outside { (x : ℕ) → first ≤ x → x < end → IsInBody seat.old.bodies x → ⊥ }
    ensures { seat.new ≡ nulled seat.old first (end - first) }
{
    for x in first..end {
        words.fill(seat, x, 0);
    }
}
