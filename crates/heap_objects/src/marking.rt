// What a heap keeps of marking: its list and notes while it goes on, and between collections the room
// of the list and no more.

ghost use Rattle.std.specs.Prelude.{◌≡◌, ◌<◌, ◌≤◌, ◌+◌, [], false, true, length, IfOk};
ghost use Rattle.heap_objects.specs.Crews.{TellsRisen};
ghost use Rattle.heap_objects.specs.Marking.{IsClear, grey_of, no_grey, refused_in};
ghost use Rattle.heap_objects.specs.Refused.{none_refused};

use gc_graph::NoMemory;
use ghost_values::GhostValue;
use mark_worklist::{Marking, Worklist};
use marker_crew::Crew;
use page_words::MutatorSeat;
use std::alloc::Global;
use std::marker::Model;

/// Places for which a collection takes room before it begins: four for each strong slot.
const ROOM: u32 = 1024;

/// How many pushes and notes were refused. It is never made.
#[derive(Drop)]
pub struct Counts {
    none: u8,
}

impl Model for Counts {
    ghost use Rattle.heap_objects.specs.Refused.{RefusedCounts, none_refused};

    ghost Value = { RefusedCounts };

    ghost view = { λ counts. none_refused };
}

/// A number. It is never made.
#[derive(Drop)]
pub struct Number {
    none: u8,
}

impl Model for Number {
    ghost use Rattle.std.specs.Prelude.{ℕ};

    ghost Value = { ℕ };

    ghost view = { λ number. 0 };
}

/// Places. They are never made.
#[derive(Drop)]
pub struct Places {
    none: u8,
}

impl Model for Places {
    ghost use Rattle.std.specs.Prelude.{ℕ, List, []};

    ghost Value = { List ℕ };

    ghost view = { λ places. [] };
}

/// The marking state of the heap's owner, its markers with the notes of pairs, and how many objects the
/// steps of this cycle have traced. Contracts alone see which places the steps found traced beside
/// markers, how much had been refused when marking began, and how many pushes on the lists of earlier
/// cycles.
#[derive(Drop)]
pub struct Grey {
    pub(crate) marking: Marking,
    pub(crate) crew: Crew,
    pub(crate) traced: u32,
    pub(crate) found: GhostValue<Places>,
    pub(crate) since: GhostValue<Counts>,
    pub(crate) earlier: GhostValue<Number>,
}

impl Grey {
    /// A list and notes without room, and a crew of so many markers. Want of memory is free.
    pub fn new(alloc: Global, markers: u32) -> Result<Grey, NoMemory>
        requires few { markers ≤ 8 }
        ensures grey { IfOk result (λ grey. grey_of grey ≡ no_grey markers) }
        ensures own { IfOk result (λ grey. 0 < length grey.crew.notes) }
    {
        let (list, _) = Worklist::new(alloc, 0)?;
        Ok(Grey {
            marking: Marking {
                on: false,
                overflow: false,
                list,
            },
            crew: Crew::new(alloc, markers)?,
            traced: 0,
            found: nowhere(),
            since: none(),
            earlier: zero(),
        })
    }

    /// Takes room for a list of an ordinary length. Want of memory is free.
    pub fn reserve(&mut self) -> Result<(), NoMemory>
        ensures { self.new ≡ self.old }
    {
        self.marking.list.reserve(ROOM)?;
        Ok(())
    }
}

fn none() -> GhostValue<Counts>
    ensures { result.value ≡ none_refused }
{
    GhostValue::chosen(&0u8)
}

/// No places.
pub fn nowhere() -> GhostValue<Places>
    ensures { result.value ≡ [] }
{
    GhostValue::chosen(&0u8)
}

/// The places of the objects that the seat found traced.
pub fn found_traced(seat: &MutatorSeat) -> GhostValue<Places>
    ensures { result.value ≡ seat.now.done }
{
    GhostValue::chosen(seat)
}

fn zero() -> GhostValue<Number>
    ensures { result.value ≡ 0 }
{
    GhostValue::chosen(&0u8)
}

/// How much was refused until now.
pub fn refused(grey: &Grey) -> GhostValue<Counts>
    ensures { result.value ≡ refused_in (grey_of grey.now) }
{
    GhostValue::chosen(grey)
}

/// How many pushes were refused until now.
pub fn refused_pushes(grey: &Grey) -> GhostValue<Number>
    ensures { result.value ≡ (refused_in (grey_of grey.now)).pushes }
{
    GhostValue::chosen(grey)
}

/// Tells that a push was refused where the list's count of these is no longer what it was.
pub fn tell_refused(marking: &mut Marking, before: u64)
    ensures told { TellsRisen before marking.old marking.new }
{
    if marking.list.refused() != before {
        marking.overflow = true;
    }
}

/// Forgets what was noted and that something was refused in a collection that is over.
pub fn clear(grey: &mut Grey)
    requires list { grey.old.marking.list.items ≡ [] }
    requires whole { grey.old.marking.list.whole ≡ true }
    requires unshared { grey.old.crew.markers ≡ 0 → grey.old.marking.list.shares ≡ [] }
    requires off { grey.old.marking.on ≡ false }
    requires home { grey.old.crew.running ≡ [] }
    requires groups { length grey.old.crew.notes ≡ grey.old.crew.markers + 1 }
    ensures clear { IsClear (grey_of grey.new) }
    ensures counts { refused_in (grey_of grey.new) ≡ refused_in (grey_of grey.old) }
    ensures traced { grey.new.traced ≡ grey.old.traced }
    ensures since { grey.new.since ≡ grey.old.since }
    ensures own { 0 < length grey.new.crew.notes }
    ensures markers { grey.new.crew.markers ≡ grey.old.crew.markers }
{
    grey.marking.overflow = false;
    grey.crew.clear_notes();
}
