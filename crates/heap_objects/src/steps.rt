// A step of marking by the owner: alone, or beside markers.

ghost use Rattle.std.specs.Prelude.{◌≡◌, ◌<◌, ◌≤◌, [], false, length};
ghost use Rattle.mark_worklist.specs.Refusals.{TellsRefused};
ghost use Rattle.page_space.specs.Space.{IsSeatOf};
ghost use Rattle.marker_crew.specs.BodyGraph.{PlacesDiffer};
ghost use Rattle.atomic_pause.specs.UnderWay.{IsUnderWay};
ghost use Rattle.heap_objects.specs.Crews.{IsIdleOrLong, IsStepped};
ghost use Rattle.heap_objects.specs.Marking.{HasFound, grey_of, pushes_in};
ghost use Rattle.heap_objects.specs.Marks.{CrewIsLent};

use crate::marking::{Grey, found_traced, tell_refused};
use atomic_pause::trace_listed;
use marker_crew::step_beside as trace_beside;
use page_space::Space;
use page_words::{MutatorSeat, Words};
use type_table::TypeTable;

/// Traces marked objects, at most so many, alone or beside markers that run. Answers how many.
pub(crate) fn step(
    space: &Space,
    types: &TypeTable,
    seat: &mut MutatorSeat,
    grey: &mut Grey,
    most: u32,
) -> u32
    requires heap { IsSeatOf space.now seat.old }
    requires types { types.now ≡ seat.old.types }
    requires way { IsUnderWay seat.old grey.old.marking (grey_of grey.old).notes }
    requires crew { CrewIsLent seat.old (grey_of grey.old) }
    requires differ { PlacesDiffer seat.old.bodies }
    requires own { 0 < length grey.old.crew.notes }
    requires pushes { TellsRefused
        (record { told = false; count = (grey_of grey.old).since.pushes })
        (pushes_in (grey_of grey.old)) }
    requires found { HasFound seat.old (grey_of grey.old) }
    ensures stepped { IsStepped seat.old (grey_of grey.old) seat.new (grey_of grey.new) result }
    ensures own { length grey.new.crew.notes ≡ length grey.old.crew.notes }
    ensures most { result ≤ most }
    ensures done { result < most → grey.old.crew.running ≡ []
        → grey.new.marking.list.items ≡ [] }
    ensures idle { result < most → 0 < length grey.old.crew.running
        → IsIdleOrLong (grey_of grey.old) (grey_of grey.new) }
{
    if grey.crew.is_running() {
        step_beside(space, types, seat, grey, most)
    } else {
        step_alone(space, types, seat, grey, most)
    }
}

/// The step while no marker runs.
fn step_alone(
    space: &Space,
    types: &TypeTable,
    seat: &mut MutatorSeat,
    grey: &mut Grey,
    most: u32,
) -> u32
    requires heap { IsSeatOf space.now seat.old }
    requires types { types.now ≡ seat.old.types }
    requires home { grey.old.crew.running ≡ [] }
    requires way { IsUnderWay seat.old grey.old.marking (grey_of grey.old).notes }
    requires crew { CrewIsLent seat.old (grey_of grey.old) }
    requires differ { PlacesDiffer seat.old.bodies }
    requires own { 0 < length grey.old.crew.notes }
    ensures stepped { IsStepped seat.old (grey_of grey.old) seat.new (grey_of grey.new) result }
    ensures own { length grey.new.crew.notes ≡ length grey.old.crew.notes }
    ensures most { result ≤ most }
    ensures done { result < most → grey.new.marking.list.items ≡ [] }
{
    seat.bodies_lie_apart();
    trace_listed::<Words>(
        space.words(),
        types,
        seat,
        &mut grey.marking,
        grey.crew.own_notes(),
        most,
    )
}

/// The step while markers run.
fn step_beside(
    space: &Space,
    types: &TypeTable,
    seat: &mut MutatorSeat,
    grey: &mut Grey,
    most: u32,
) -> u32
    requires heap { IsSeatOf space.now seat.old }
    requires types { types.now ≡ seat.old.types }
    requires running { 0 < length grey.old.crew.running }
    requires way { IsUnderWay seat.old grey.old.marking (grey_of grey.old).notes }
    requires crew { CrewIsLent seat.old (grey_of grey.old) }
    requires differ { PlacesDiffer seat.old.bodies }
    requires own { 0 < length grey.old.crew.notes }
    requires pushes { TellsRefused
        (record { told = false; count = (grey_of grey.old).since.pushes })
        (pushes_in (grey_of grey.old)) }
    requires found { HasFound seat.old (grey_of grey.old) }
    ensures stepped { IsStepped seat.old (grey_of grey.old) seat.new (grey_of grey.new) result }
    ensures own { length grey.new.crew.notes ≡ length grey.old.crew.notes }
    ensures most { result ≤ most }
    ensures idle { result < most → IsIdleOrLong (grey_of grey.old) (grey_of grey.new) }
{
    seat.bodies_lie_apart();
    let refused = grey.marking.list.refused();
    let drained = trace_beside(
        space.words(),
        types,
        seat,
        grey.marking.list.own_share(),
        grey.crew.own_notes(),
        most,
    );
    tell_refused(&mut grey.marking, refused);
    grey.found = found_traced(seat);
    seat.bodies_lie_apart();
    drained.traced
}
