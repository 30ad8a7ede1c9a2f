// Ephemeron pairs of marked objects (`include/cppgc/ephemeron-pair.h`). What an object that is not
// marked holds is left as it is.

ghost use Rattle.std.specs.Prelude.{◌≡◌, false};
ghost use Rattle.std.specs.Io.{StartsWith};
ghost use Rattle.gc_graph.specs.declared.kind.Kind.TheVariants.{Pair};
ghost use Rattle.page_words.specs.Seat.{OnlyLooked};
ghost use Rattle.page_space.specs.Space.{IsSeatOf};
ghost use Rattle.weak_clearing.specs.declared.weak_handles.WeakHandles.TheVariants.{Pairs};
ghost use Rattle.weak_clearing.specs.Clearing.{MarkedHaveReferencesOf, with_pairs_cleared};
ghost use Rattle.weak_clearing.specs.Steps.{HasHandle, handle_cleared};

use crate::marks::is_to_unmarked;
use crate::walk::clear_handles;
use crate::weak_handles::WeakHandles;
use member_fields::read_pair;
use page_space::Space;
use page_words::MutatorSeat;
use type_table::TypeTable;

/// Sets to null both words of exactly the pairs of marked objects whose key is not marked.
pub fn clear_pairs(space: &Space, types: &TypeTable, seat: &mut MutatorSeat)
    requires heap { IsSeatOf space.now seat.old }
    requires off { seat.old.on ≡ false }
    requires types { types.now ≡ seat.old.types }
    requires references { MarkedHaveReferencesOf Pair seat.old }
    ensures cleared { OnlyLooked (with_pairs_cleared seat.old) seat.new }
    ensures looked { StartsWith seat.new.looked seat.old.looked }
{
    clear_handles(space, types, seat, WeakHandles::Pairs);
}

/// Sets a pair to null, its value first, if its key names an object that is not marked. The value's
/// mark is never asked for.
pub(crate) fn clear_pair(space: &Space, seat: &mut MutatorSeat, holder: u32, word: u32)
    requires heap { IsSeatOf space.now seat.old }
    requires off { seat.old.on ≡ false }
    requires pair { HasHandle Pairs seat.old holder word }
    ensures cleared { OnlyLooked (handle_cleared Pairs seat.old holder word) seat.new }
    ensures looked { StartsWith seat.new.looked seat.old.looked }
{
    seat.bodies_lie_apart();
    let (key, _value) = read_pair(space, seat, holder, word);
    if is_to_unmarked(space, seat, key) {
        member_fields::clear_pair(space, seat, holder, word);
    }
}
