// The words of a heap as they are to whoever reads and writes fields, marks or traces.

ghost use Rattle.std.specs.Prelude.{◌≡◌, ℕ, List, not, IfSome, IfNone, ◌≤◌, ◌<◌, ◌++◌, ◌∷◌, [], true};
ghost use Rattle.std.specs.Prelude.{false, None, Contains};
ghost use Rattle.gc_graph.specs.Placement.{IsLowest, IsNowhere};
ghost use Rattle.object_headers.specs.Layout.{header_word};
ghost use Rattle.marker_core.specs.declared.states.Body.{Body};
ghost use Rattle.marker_core.specs.declared.states.Why.TheVariants.{Read, Weak};
ghost use Rattle.marker_core.specs.Bodies.{IsInBody, IsPlace, holds};
ghost use Rattle.marker_core.specs.Layout.{stop_at};
ghost use Rattle.marker_core.specs.Laws.{IsLeastOver};
ghost use Rattle.marker_core.specs.SeatLaws.{IsReadyToPublish};
ghost use Rattle.marker_core.specs.SeatSteps.{is_grey, seat_can_load, seat_can_store};
ghost use Rattle.page_words.specs.Heaps.{IsCount};
ghost use Rattle.page_words.specs.Roles.{kind_lists};
ghost use Rattle.page_words.specs.Seat.{Heap, side, TellsWordAt, OnlyLooked, loaded, filled_with};
ghost use Rattle.page_words.specs.Seat.{stored, rewritten, published, IsUnnamed, retracted};
ghost use Rattle.page_words.specs.Seat.{marked_at, is_grey_at, claimed_at, unmarked_at};
ghost use Rattle.page_words.specs.Seat.{MaySetStop, ended, stop_set, IsPlaceFrom};

use crate::mutator::MutatorSeat;
use crate::reasons::Reason;
use crate::words::Words;

/// The mutator's calls on a heap's words, each of which is one step, and a way from object to object.
/// Each call says what the call of `Words` with its name says.
pub trait Bodywords {
    // Which words they are.
    ghost heap: { Self → Heap };

    /// How many words the heap has. This is no step.
    fn count(&self) -> u32
        ensures count { result ≡ (heap self.now).count }
        ensures valid { IsCount (heap self.now).count };

    fn load<W: Reason>(&self, seat: &mut MutatorSeat, a: u32) -> u64
        requires heap { seat.old.heap ≡ heap self.now }
        requires address { a ≤ stop_at seat.old.count }
        requires allowed { seat_can_load (side seat.old) a W.why ≡ true }
        ensures word { TellsWordAt seat.old a result }
        ensures view { seat.new ≡ loaded seat.old a W.why result }
        ensures read { W.why ≡ Read → OnlyLooked seat.old seat.new }
        ensures beside { W.why ≡ Read → (IsPlace seat.old.bodies a → ⊥) → seat.new ≡ seat.old }
        ensures weak { W.why ≡ Weak → seat.old.on ≡ true → IsLeastOver (kind_lists seat.old.types)
            seat.old.bodies (seat.old.may ++ a ∷ []) seat.new.may };

    fn fill(&self, seat: &mut MutatorSeat, a: u32, w: u64)
        requires heap { seat.old.heap ≡ heap self.now }
        requires address { a < seat.old.count }
        requires outside { IsInBody seat.old.bodies a → ⊥ }
        ensures { seat.new ≡ filled_with seat.old a w };

    fn store(&self, seat: &mut MutatorSeat, a: u32, w: u64)
        requires heap { seat.old.heap ≡ heap self.now }
        requires allowed { seat_can_store (side seat.old) a w ≡ true }
        ensures view { seat.new ≡ stored seat.old a w }
        ensures alone { seat.old.on ≡ false → seat.new ≡ rewritten seat.old a w };

    fn publish(&self, seat: &mut MutatorSeat, a: u32)
        ghost body: { Body }
        requires heap { seat.old.heap ≡ heap self.now }
        requires place { body.place ≡ a }
        requires ready { IsReadyToPublish (side seat.old) body }
        ensures { seat.new ≡ published seat.old body };

    fn retract(&self, seat: &mut MutatorSeat, a: u32)
        requires heap { seat.old.heap ≡ heap self.now }
        requires off { seat.old.on ≡ false }
        requires dead { holds seat.old.dead a ≡ true }
        requires unnamed { IsUnnamed seat.old.types seat.old.bodies seat.old.dead a }
        ensures { seat.new ≡ retracted seat.old a };

    fn mark(&self, seat: &mut MutatorSeat, a: u32) -> bool
        requires heap { seat.old.heap ≡ heap self.now }
        requires on { seat.old.on ≡ true }
        requires place { IsPlace seat.old.bodies a }
        requires may { holds seat.old.may a ≡ true }
        ensures fresh { seat.old.lent ≡ 0 → result ≡ not (holds seat.old.marked a) }
        ensures view { seat.new ≡ marked_at seat.old a (not result) };

    fn claim(&self, seat: &mut MutatorSeat, a: u32, header: u64) -> bool
        requires heap { seat.old.heap ≡ heap self.now }
        requires on { seat.old.on ≡ true }
        requires hand { seat.old.hand ≡ None }
        requires place { IsPlace seat.old.bodies a }
        requires header { (b : Body) → Contains seat.old.bodies b → b.place ≡ a
            → header ≡ header_word true true false b.ty b.size }
        ensures grey { seat.old.lent ≡ 0 → result ≡ is_grey_at seat.old a }
        ensures view { (found : ℕ) × TellsWordAt seat.old a found × (result ≡ is_grey found)
            × (seat.new ≡ claimed_at seat.old a found) };

    fn unmark(&self, seat: &mut MutatorSeat, a: u32)
        requires heap { seat.old.heap ≡ heap self.now }
        requires off { seat.old.on ≡ false }
        requires place { IsPlace seat.old.bodies a }
        ensures { seat.new ≡ unmarked_at seat.old a };

    fn set_stop(&self, seat: &mut MutatorSeat, on: bool)
        ghost roots: { List ℕ }
        requires heap { seat.old.heap ≡ heap self.now }
        requires allowed { MaySetStop seat.old on }
        ensures view { seat.new ≡ stop_set seat.old roots on }
        ensures ended { on ≡ true → seat.old.on ≡ true → seat.old.lent ≡ 0
            → seat.new ≡ ended seat.old }
        ensures may { on ≡ false → IsLeastOver (kind_lists seat.old.types) seat.old.bodies roots
            seat.new.may };

    /// The lowest place that is not below an address.
    fn next_object(&self, seat: &mut MutatorSeat, from: u32) -> Option<u32>
        requires heap { seat.old.heap ≡ heap self.now }
        ensures found { IfSome result (IsLowest (IsPlaceFrom seat.old.bodies from)) }
        ensures none { IfNone result (IsNowhere (IsPlaceFrom seat.old.bodies from)) }
        ensures view { seat.new ≡ seat.old };
}

impl Bodywords for Words {
    ghost heap = { λ w. w };

    fn count(&self) -> u32 {
        self.count()
    }

    fn load<W: Reason>(&self, seat: &mut MutatorSeat, a: u32) -> u64 {
        self.load::<W>(seat, a)
    }

    fn fill(&self, seat: &mut MutatorSeat, a: u32, w: u64) {
        self.fill(seat, a, w);
    }

    fn store(&self, seat: &mut MutatorSeat, a: u32, w: u64) {
        self.store(seat, a, w);
    }

    fn publish(&self, seat: &mut MutatorSeat, a: u32) {
        self.publish(seat, a);
    }

    fn retract(&self, seat: &mut MutatorSeat, a: u32) {
        self.retract(seat, a);
    }

    fn mark(&self, seat: &mut MutatorSeat, a: u32) -> bool {
        self.mark(seat, a)
    }

    fn claim(&self, seat: &mut MutatorSeat, a: u32, header: u64) -> bool {
        self.claim(seat, a, header)
    }

    fn unmark(&self, seat: &mut MutatorSeat, a: u32) {
        self.unmark(seat, a);
    }

    fn set_stop(&self, seat: &mut MutatorSeat, on: bool) {
        self.set_stop(seat, on);
    }

    fn next_object(&self, seat: &mut MutatorSeat, from: u32) -> Option<u32> {
        self.lowest_from(seat, from)
    }
}
