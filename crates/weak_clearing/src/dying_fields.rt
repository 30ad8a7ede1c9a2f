// The weak fields of an object that weak clearing sets to null, as its weak callbacks are told them
// (`LivenessBroker::IsHeapObjectAlive`, `include/cppgc/liveness-broker.h`).

ghost use Rattle.std.specs.Prelude.{◌≡◌, ◌≤◌, false, Contains};
ghost use Rattle.std.specs.Io.{StartsWith};
ghost use Rattle.gc_graph.specs.Fields.{field_words};
ghost use Rattle.type_table.specs.Types.{declared_kinds};
ghost use Rattle.marker_core.specs.Bodies.{IsPlace};
ghost use Rattle.marker_core.specs.declared.states.Body.{Body};
ghost use Rattle.page_words.specs.Seat.{OnlyLooked};
ghost use Rattle.page_space.specs.Space.{IsSeatOf};
ghost use Rattle.weak_clearing.specs.Clearing.{MarkedHaveWeakReferences};
ghost use Rattle.weak_clearing.specs.Dying as spec;
ghost use Rattle.weak_clearing.specs.declared.weak_handles.WeakHandles.TheVariants.{Fields};
ghost use Rattle.weak_clearing.specs.Steps.{HasHandle, IsMarkedOf, NamesUnmarked};

use crate::marks::{is_to_unmarked, marked_type};
use member_fields::get;
use object_headers::FIRST_FIELD;
use page_space::Space;
use page_words::MutatorSeat;
use type_table::TypeTable;

/// Which of the shown words of a marked object are weak fields whose target is not marked: bit i
/// stands for shown word i. None of an object that is not marked.
pub fn dying(space: &Space, types: &TypeTable, seat: &mut MutatorSeat, holder: u32) -> Option<u64>
    requires heap { IsSeatOf space.now seat.old }
    requires off { seat.old.on ≡ false }
    requires types { types.now ≡ seat.old.types }
    requires references { MarkedHaveWeakReferences seat.old }
    requires holder { IsPlace seat.old.bodies holder }
    requires shown { spec.HasShownFields seat.old holder }
    ensures dying { (b : Body) → Contains seat.old.bodies b → b.place ≡ holder
        → result ≡ spec.dying_of seat.old b }
    ensures view { OnlyLooked seat.old seat.new }
    ensures looked { StartsWith seat.new.looked seat.old.looked }
{
    match marked_type(space, seat, holder) {
        Some(ty) => Some(mask_of_marked(space, types, seat, holder, ty)),
        None => None,
    }
}

/// The same of a marked object of a type. Its other words are never read.
fn mask_of_marked(
    space: &Space,
    types: &TypeTable,
    seat: &mut MutatorSeat,
    holder: u32,
    ty: u32,
) -> u64
    requires heap { IsSeatOf space.now seat.old }
    requires off { seat.old.on ≡ false }
    requires types { types.now ≡ seat.old.types }
    requires references { MarkedHaveWeakReferences seat.old }
    requires marked { IsMarkedOf seat.old holder ty }
    requires shown { field_words (declared_kinds seat.old.types ty) ≤ 64 }
    ensures dying { (b : Body) → Contains seat.old.bodies b → b.place ≡ holder
        → result ≡ spec.dying_mask seat.old.types seat.old.marked b }
    ensures view { OnlyLooked seat.old seat.new }
    ensures looked { StartsWith seat.new.looked seat.old.looked }
{
    seat.bodies_lie_apart();
    let mut mask = 0;
    for word in types.weak_words(ty) {
        if is_dying(space, seat, holder, *word) {
            mask += 1u64 << (*word - FIRST_FIELD);
        }
    }
    mask
}

/// Whether a weak field names an object that is not marked.
pub(crate) fn is_dying(space: &Space, seat: &mut MutatorSeat, holder: u32, word: u32) -> bool
    requires heap { IsSeatOf space.now seat.old }
    requires off { seat.old.on ≡ false }
    requires field { HasHandle Fields seat.old holder word }
    ensures names { NamesUnmarked seat.old holder word result }
    ensures view { OnlyLooked seat.old seat.new }
    ensures looked { StartsWith seat.new.looked seat.old.looked }
{
    seat.bodies_lie_apart();
    let target = get(space, seat, holder, word);
    is_to_unmarked(space, seat, target)
}
