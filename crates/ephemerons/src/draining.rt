// Draining: what is listed is traced, until the list is empty.

ghost use Rattle.std.specs.Prelude.{◌≡◌, ◌<◌, true, false, [], None};
ghost use Rattle.pair_notes.specs.BodyGraph.{HaveNoPairs};
ghost use Rattle.ephemerons.specs.Fixpoint.{IsGround, Works, stage, weight};
ghost use Rattle.ephemerons.specs.LookedAt.{LooksOnward};
ghost use Rattle.ephemerons.specs.Tracers.{IsReady, Keeps, Advances, GoesOnward, stage_of};

use crate::marks::next_listed;
use crate::tracer::Tracer;
use crate::tracing::trace_pairless;
use mark_worklist::Marking;
use page_words::{Bodywords, MutatorSeat};
use pair_notes::Pairs;
use type_table::TypeTable;

/// A list is short where it has less than one object for so many notes.
const NOTES_FOR_ONE: usize = 8;

impl<'a, 't, B: Bodywords> Tracer<'a, 't, B> {
    /// Traces what is listed, until the list is empty. Which way it goes is told by the list's
    /// length alone: a short list may be the head of a long chain of pairs, and there each note is
    /// settled as soon as its key is traced. After a long one the next look at all notes costs no
    /// more than the objects did, and their index isn't asked for.
    pub(crate) fn drain(&mut self)
        requires ready { IsReady B.heap self.old }
        ensures keeps { Keeps B.heap self.old self.new }
        ensures works { Advances self.old self.new }
        ensures looked { GoesOnward self.old self.new }
        ensures list { self.new.marking.now.list.items ≡ [] }
    {
        if self.is_short() {
            self.drain_under_keys();
        } else {
            self.drain_alone();
        }
    }

    /// Whether the list is short beside the notes.
    fn is_short(&self) -> bool {
        let mut notes = 0usize;
        let groups = &*self.groups;
        for group in groups {
            notes = notes.saturating_add(group.count());
        }
        self.marking.list.len() < notes / NOTES_FOR_ONE
    }

    /// Traces what is listed, until the list is empty, and settles the notes under each key.
    fn drain_under_keys(&mut self)
        requires ready { IsReady B.heap self.old }
        ensures keeps { Keeps B.heap self.old self.new }
        ensures works { Advances self.old self.new }
        ensures looked { GoesOnward self.old self.new }
        ensures list { self.new.marking.now.list.items ≡ [] }
    {
        while self.trace_next() {}
    }

    /// Takes an object from the list and traces it, if that is to be done. False where the list is
    /// empty.
    fn trace_next(&mut self) -> bool
        requires ready { IsReady B.heap self.old }
        ensures keeps { Keeps B.heap self.old self.new }
        ensures works { Advances self.old self.new }
        ensures looked { GoesOnward self.old self.new }
        ensures found { result ≡ true → weight (stage_of self.new) < weight (stage_of self.old) }
        ensures list { result ≡ false → self.new.marking.now.list.items ≡ [] }
    {
        match self.marking.list.pop() {
            Some(place) => {
                self.trace_grey(place);
                self.settle_under(place);
                true
            }
            None => false,
        }
    }

    /// Traces what is listed, until the list is empty, and settles no note.
    fn drain_alone(&mut self)
        requires ready { IsReady B.heap self.old }
        ensures keeps { Keeps B.heap self.old self.new }
        ensures works { Advances self.old self.new }
        ensures looked { GoesOnward self.old self.new }
        ensures list { self.new.marking.now.list.items ≡ [] }
    {
        while let Some(place) = self.marking.list.pop() {
            self.trace_grey(place);
        }
    }

    /// Traces what is listed, where no type has a pair. It is the way of most heaps, and neither
    /// notes nor their index are looked at for each object.
    pub(crate) fn drain_if_pairless(&mut self)
        requires ready { IsReady B.heap self.old }
        ensures keeps { Keeps B.heap self.old self.new }
        ensures works { Advances self.old self.new }
        ensures looked { GoesOnward self.old self.new }
    {
        if !has_pairs(self.types) {
            let groups = &mut *self.groups;
            drain_pairless(
                self.space,
                self.types,
                self.seat,
                self.marking,
                groups,
                &mut self.traced,
            );
        }
    }
}

/// Traces what is listed, until the list is empty. Nothing waits for a key.
// The loop of most collections: alone, it has all registers.
#[inline(never)]
fn drain_pairless<B: Bodywords>(
    space: &B,
    types: &TypeTable,
    seat: &mut MutatorSeat,
    marking: &mut Marking,
    groups: &[Pairs],
    traced: &mut u32,
)
    requires heap { seat.old.heap ≡ B.heap space.now }
    requires ground { IsGround types.now (stage seat.old marking.old groups.now traced.old) }
    requires pairless { HaveNoPairs types.now }
    ensures ground { IsGround types.now (stage seat.new marking.new groups.now traced.new) }
    ensures works { Works types.now None
        (stage seat.old marking.old groups.now traced.old)
        (stage seat.new marking.new groups.now traced.new) }
    ensures looked { LooksOnward types.now
        (stage seat.old marking.old groups.now traced.old)
        (stage seat.new marking.new groups.now traced.new) }
{
    let mut next = next_listed(marking, None);
    while let Some(place) = next {
        let held = trace_pairless(space, types, seat, marking, groups, traced, place);
        next = next_listed(marking, held);
    }
}

/// Whether a type has a pair.
pub(crate) fn has_pairs(types: &TypeTable) -> bool
    ensures { result ≡ false → HaveNoPairs types.now }
{
    for ty in 0..types.count() {
        if !types.pair_words(ty).is_empty() {
            return true;
        }
    }
    false
}
