// Whether an object was marked.

ghost use Rattle.std.specs.Prelude.{◌≡◌, false, IfSome, IfNone};
ghost use Rattle.std.specs.Io.{StartsWith};
ghost use Rattle.marker_core.specs.Bodies.{IsPlace, IsReference};
ghost use Rattle.marker_core.specs.Bodies.{holds};
ghost use Rattle.page_words.specs.Seat.{OnlyLooked};
ghost use Rattle.page_space.specs.Space.{IsSeatOf};
ghost use Rattle.weak_clearing.specs.Clearing.{names_unmarked};
ghost use Rattle.weak_clearing.specs.Steps.{IsMarkedOf};

use object_headers::Header;
use page_space::Space;
use page_words::{MutatorSeat, Reading, has_mark};

/// Whether a field word names an object that is not marked.
pub(crate) fn is_to_unmarked(space: &Space, seat: &mut MutatorSeat, reference: u64) -> bool
    requires heap { IsSeatOf space.now seat.old }
    requires off { seat.old.on ≡ false }
    requires reference { IsReference seat.old.bodies reference }
    ensures names { result ≡ names_unmarked seat.old.marked reference }
    ensures view { OnlyLooked seat.old seat.new }
    ensures looked { StartsWith seat.new.looked seat.old.looked }
{
    seat.bodies_lie_apart();
    reference != 0 && !is_marked(space, seat, (reference - 1) as u32)
}

/// Whether the object at a place is marked. No more of its header is looked at.
pub fn is_marked(space: &Space, seat: &mut MutatorSeat, place: u32) -> bool
    requires heap { IsSeatOf space.now seat.old }
    requires off { seat.old.on ≡ false }
    requires place { IsPlace seat.old.bodies place }
    ensures mark { result ≡ holds seat.old.marked place }
    ensures view { OnlyLooked seat.old seat.new }
    ensures looked { StartsWith seat.new.looked seat.old.looked }
{
    seat.bodies_lie_apart();
    has_mark(space.words().load::<Reading>(seat, place))
}

/// The type of the object at a place, if that is marked.
pub(crate) fn marked_type(space: &Space, seat: &mut MutatorSeat, place: u32) -> Option<u32>
    requires heap { IsSeatOf space.now seat.old }
    requires off { seat.old.on ≡ false }
    requires place { IsPlace seat.old.bodies place }
    ensures marked { IfSome result (IsMarkedOf seat.old place) }
    ensures unmarked { IfNone result (holds seat.old.marked place ≡ false) }
    ensures view { OnlyLooked seat.old seat.new }
    ensures looked { StartsWith seat.new.looked seat.old.looked }
{
    seat.bodies_lie_apart();
    let word = space.words().load::<Reading>(seat, place);
    if has_mark(word) {
        Some(Header::type_in(word))
    } else {
        None
    }
}
