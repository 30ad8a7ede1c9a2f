// The walk: where list or notes may not be whole, each object of the heap is looked at.

ghost use Rattle.std.specs.Prelude.{◌≡◌, ℕ, ◌<◌, false, true, []};
ghost use Rattle.marker_core.specs.Bodies.{IsPlace};
ghost use Rattle.pair_notes.specs.BodyGraph.{BodyHasPair};
ghost use Rattle.pair_notes.specs.Marking.{IsOver};
ghost use Rattle.pair_notes.specs.Notes.{note_of};
ghost use Rattle.ephemerons.specs.Fixpoint.{NoteIsSettled, IsSettledAt, weight};
ghost use Rattle.ephemerons.specs.Tracers.{IsReady, Keeps, Advances, Searches, stage_of};

use crate::marks::type_of;
use crate::tracer::Tracer;
use page_words::Bodywords;

impl<'a, 't, B: Bodywords> Tracer<'a, 't, B> {
    /// Drains the list and looks at all objects, until neither asks for more.
    pub(crate) fn walk_heap(&mut self)
        requires ready { IsReady B.heap self.old }
        ensures keeps { Keeps B.heap self.old self.new }
        ensures works { Advances self.old self.new }
        ensures list { self.new.marking.now.list.items ≡ [] }
        ensures over { IsOver self.old.types.now self.new.seat.now }
    {
        while self.walk_turn() {}
        self.seat.bodies_lie_apart();
    }

    /// Drains the list, and then looks at each object. True where one asked for work.
    fn walk_turn(&mut self) -> bool
        requires ready { IsReady B.heap self.old }
        ensures keeps { Keeps B.heap self.old self.new }
        ensures works { Advances self.old self.new }
        ensures list { result ≡ false → self.new.marking.now.list.items ≡ [] }
        ensures settled { result ≡ false → (p : ℕ) → IsPlace self.new.seat.now.bodies p
            → IsSettledAt self.old.types.now self.new.seat.now p }
        ensures found { result ≡ true → weight (stage_of self.new) < weight (stage_of self.old) }
    {
        self.drain();
        self.settle_objects()
    }

    /// Settles each object, from the lowest place on. True where one asked for work.
    fn settle_objects(&mut self) -> bool
        requires ready { IsReady B.heap self.old }
        ensures keeps { Keeps B.heap self.old self.new }
        ensures looks { Searches self.old self.new result }
        ensures settled { result ≡ false → (p : ℕ) → IsPlace self.new.seat.now.bodies p
            → IsSettledAt self.old.types.now self.new.seat.now p }
    {
        self.seat.bodies_lie_apart();
        let mut found = false;
        let mut from = 0;
        while let Some(a) = self.space.next_object(self.seat, from) {
            let more = self.settle_object(a);
            found = found || more;
            from = a + 1;
        }
        found
    }

    /// Traces an object, if it is marked and not yet traced, and settles each of its pairs. True
    /// where that was to be done.
    fn settle_object(&mut self, a: u32) -> bool
        requires ready { IsReady B.heap self.old }
        requires place { IsPlace self.old.seat.now.bodies a }
        ensures keeps { Keeps B.heap self.old self.new }
        ensures looks { Searches self.old self.new result }
        ensures settled { result ≡ false
            → IsSettledAt self.old.types.now self.new.seat.now a }
    {
        let grey = self.trace_grey(a);
        let more = self.settle_pairs(a);
        grey || more
    }

    /// Settles each pair of an object. True where one asked for work.
    fn settle_pairs(&mut self, a: u32) -> bool
        requires ready { IsReady B.heap self.old }
        requires place { IsPlace self.old.seat.now.bodies a }
        ensures keeps { Keeps B.heap self.old self.new }
        ensures looks { Searches self.old self.new result }
        ensures settled { result ≡ false
            → (offset : ℕ) → BodyHasPair self.old.types.now self.new.seat.now.bodies a offset
            → NoteIsSettled self.old.types.now self.new.seat.now (note_of a offset) }
    {
        self.seat.bodies_lie_apart();
        let types = self.types;
        let ty = type_of(self.space, self.seat, a);
        let pairs = types.pair_words(ty);
        let mut found = false;
        for word in pairs {
            let more = self.settle_pair(a, *word);
            found = found || more;
        }
        found
    }
}
