// The fixpoint: what is listed is traced, and what is noted is settled, until nothing asks for more.

ghost use Rattle.std.specs.Prelude.{◌≡◌, ◌⊎◌, ℕ, ◌+◌, ◌<◌, true, false, [], Contains, None};
ghost use Rattle.std.specs.Prelude.{length};
ghost use Rattle.mark_worklist.specs.Refusals.{TellsRefused, refusals_of};
ghost use Rattle.marker_core.specs.Bodies.{IsPlace};
ghost use Rattle.page_words.specs.Seat.{IsAlone};
ghost use Rattle.pair_notes.specs.declared.notes.Note.{Note};
ghost use Rattle.pair_notes.specs.BodyGraph.{PlacesDiffer};
ghost use Rattle.pair_notes.specs.Marking.{MarksOn, GrowsWithin, IsOver, traced_count};
ghost use Rattle.pair_notes.specs.Notes.{IsNote, IsNotedIn, group_at, refusals_in};
ghost use Rattle.ephemerons.specs.Fixpoint.{IsAccounted, NoteIsSettled, IsUnrefused};
ghost use Rattle.ephemerons.specs.Fixpoint.{mode_of, weight};
ghost use Rattle.ephemerons.specs.LookedAt.{AreHoldersMarked, LooksWithin};
ghost use Rattle.ephemerons.specs.Tracers.{IsReady, Keeps, Advances, GoesOnward, stage_of};

use crate::tracer::Tracer;
use mark_worklist::Marking;
use page_words::{Bodywords, MutatorSeat};
use pair_notes::Pairs;
use type_table::TypeTable;

/// Traces all that is marked, and marks what that asks for, until nothing is grey and what is
/// marked is closed. It answers how many objects it traced. New notes go to the first group. With
/// `walk`, or where a push or a note was refused, it looks at all objects of the heap: then neither
/// list nor notes need be whole. It can't be refused.
pub fn fixpoint<B: Bodywords>(
    space: &B,
    types: &TypeTable,
    seat: &mut MutatorSeat,
    marking: &mut Marking,
    groups: &mut [Pairs],
    walk: bool,
) -> u32
    requires heap { seat.old.heap ≡ B.heap space.now }
    requires on { seat.old.on ≡ true }
    requires marking { marking.old.on ≡ seat.old.on }
    requires types { types.now ≡ seat.old.types }
    requires alone { IsAlone seat.old }
    requires whole { marking.old.list.whole ≡ true }
    requires listed { (p : ℕ) → Contains marking.old.list.items p → IsPlace seat.old.bodies p }
    requires noted { (note : Note) → IsNotedIn groups.old note
        → IsNote types.now seat.old.bodies note }
    requires own { 0 < length groups.old }
    ensures over { (walk ≡ true)
        ⊎ IsAccounted types.now None seat.old marking.old.list.items groups.old
        → IsOver types.now seat.new }
    ensures within { GrowsWithin types.now seat.old seat.new }
    ensures kept { MarksOn seat.old seat.new }
    ensures alone { IsAlone seat.new }
    ensures counted { PlacesDiffer seat.old.bodies
        → traced_count seat.new ≡ traced_count seat.old + result }
    ensures list { marking.new.list.items ≡ [] }
    ensures mode { mode_of marking.new ≡ mode_of marking.old }
    ensures groups { length groups.new ≡ length groups.old }
    ensures noted { (note : Note) → IsNotedIn groups.old note → IsNotedIn groups.new note }
    ensures refused { IsUnrefused marking.new.overflow groups.new
        → IsUnrefused marking.old.overflow groups.old }
    ensures told { TellsRefused (refusals_of marking.old) (refusals_of marking.new) }
    ensures notes_told { (i : ℕ) → TellsRefused
        (refusals_in (group_at groups.old i)) (refusals_in (group_at groups.new i)) }
    ensures looked { walk ≡ false → IsUnrefused marking.new.overflow groups.new
        → AreHoldersMarked seat.old marking.old.list.items groups.old
        → LooksWithin types.now seat.old seat.new }
{
    seat.bodies_lie_apart();
    begin_indexes(groups);
    let mut tracer = Tracer {
        space,
        types,
        seat,
        marking,
        groups,
        traced: 0,
    };
    tracer.close(walk);
    tracer.traced
}

/// Empties the index of each group.
fn begin_indexes(groups: &mut [Pairs])
    ensures { groups.new ≡ groups.old }
{
    for i in 0..groups.len() {
        groups[i].begin_index();
    }
}

impl<'a, 't, B: Bodywords> Tracer<'a, 't, B> {
    /// Goes on until nothing asks for more.
    fn close(&mut self, walk: bool)
        requires ready { IsReady B.heap self.old }
        ensures keeps { Keeps B.heap self.old self.new }
        ensures works { Advances self.old self.new }
        ensures list { self.new.marking.now.list.items ≡ [] }
        ensures over { (walk ≡ true)
            ⊎ IsAccounted self.old.types.now None self.old.seat.now
            self.old.marking.now.list.items self.old.groups.now
            → IsOver self.old.types.now self.new.seat.now }
        ensures looked { walk ≡ false
            → IsUnrefused self.new.marking.now.overflow self.new.groups.now
            → GoesOnward self.old self.new }
    {
        self.settle_all();
        if walk || self.is_refused() {
            self.walk_heap();
        }
    }

    /// Drains the list and settles the notes, until neither asks for more.
    fn settle_all(&mut self)
        requires ready { IsReady B.heap self.old }
        ensures keeps { Keeps B.heap self.old self.new }
        ensures works { Advances self.old self.new }
        ensures looked { GoesOnward self.old self.new }
        ensures list { self.new.marking.now.list.items ≡ [] }
        ensures over { IsUnrefused self.new.marking.now.overflow self.new.groups.now
            → IsAccounted self.old.types.now None self.old.seat.now
            self.old.marking.now.list.items self.old.groups.now
            → IsOver self.old.types.now self.new.seat.now }
    {
        self.drain_if_pairless();
        while self.turn() {}
        self.seat.bodies_lie_apart();
    }

    /// Drains the list, and then settles each note. True where a note asked for work.
    fn turn(&mut self) -> bool
        requires ready { IsReady B.heap self.old }
        ensures keeps { Keeps B.heap self.old self.new }
        ensures works { Advances self.old self.new }
        ensures looked { GoesOnward self.old self.new }
        ensures list { result ≡ false → self.new.marking.now.list.items ≡ [] }
        ensures settled { result ≡ false → (note : Note) → IsNotedIn self.new.groups.now note
            → NoteIsSettled self.old.types.now self.new.seat.now note }
        ensures found { result ≡ true → weight (stage_of self.new) < weight (stage_of self.old) }
    {
        self.drain();
        self.settle_notes()
    }

    /// Whether a push or a note was refused.
    fn is_refused(&self) -> bool
        ensures fine { result ≡ false
            → IsUnrefused self.now.marking.now.overflow self.now.groups.now }
        ensures refused { IsUnrefused self.now.marking.now.overflow self.now.groups.now
            → result ≡ false }
    {
        if self.marking.overflow {
            return true;
        }
        let groups = &*self.groups;
        for group in groups {
            if group.overflow() {
                return true;
            }
        }
        false
    }
}
