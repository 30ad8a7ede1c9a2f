// Weak fields of marked objects (`WeakMember`, `include/cppgc/member.h`). What an object that is not
// marked holds is left as it is.

ghost use Rattle.std.specs.Prelude.{◌≡◌, false};
ghost use Rattle.std.specs.Io.{StartsWith};
ghost use Rattle.page_words.specs.Seat.{OnlyLooked};
ghost use Rattle.page_space.specs.Space.{IsSeatOf};
ghost use Rattle.weak_clearing.specs.declared.weak_handles.WeakHandles.TheVariants.{Fields};
ghost use Rattle.weak_clearing.specs.Clearing.{MarkedHaveWeakReferences, with_weak_cleared};
ghost use Rattle.weak_clearing.specs.Steps.{HasHandle, handle_cleared};

use crate::dying_fields::is_dying;
use crate::walk::clear_handles;
use crate::weak_handles::WeakHandles;
use member_fields::set_weak;
use page_space::Space;
use page_words::MutatorSeat;
use type_table::TypeTable;

/// Sets to null exactly the weak fields of marked objects whose target is not marked.
pub fn clear_fields(space: &Space, types: &TypeTable, seat: &mut MutatorSeat)
    requires heap { IsSeatOf space.now seat.old }
    requires off { seat.old.on ≡ false }
    requires types { types.now ≡ seat.old.types }
    requires references { MarkedHaveWeakReferences seat.old }
    ensures cleared { OnlyLooked (with_weak_cleared seat.old) seat.new }
    ensures looked { StartsWith seat.new.looked seat.old.looked }
{
    clear_handles(space, types, seat, WeakHandles::Fields);
}

/// Sets a weak field to null, if it names an object that is not marked.
pub(crate) fn clear_field(space: &Space, seat: &mut MutatorSeat, holder: u32, word: u32)
    requires heap { IsSeatOf space.now seat.old }
    requires off { seat.old.on ≡ false }
    requires field { HasHandle Fields seat.old holder word }
    ensures cleared { OnlyLooked (handle_cleared Fields seat.old holder word) seat.new }
    ensures looked { StartsWith seat.new.looked seat.old.looked }
{
    seat.bodies_lie_apart();
    if is_dying(space, seat, holder, word) {
        set_weak(space, seat, holder, word, 0);
    }
}
