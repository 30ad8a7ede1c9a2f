// The fields of the object at a place, by their numbers.

ghost use Rattle.std.specs.Prelude.{◌≡◌, Contains, IfSome};
ghost use Rattle.std.specs.Io.{StartsWith};
ghost use Rattle.marker_core.specs.Bodies.{IsPlace};
ghost use Rattle.marker_core.specs.declared.states.Body.{Body};
ghost use Rattle.page_words.specs.Seat.{OnlyLooked};
ghost use Rattle.nodes_in_words.specs.Space.{IsSeatOf};
ghost use Rattle.prefinalizer_effects.specs.Acting.{BodiesAreTyped, AreLinked, linked_place};
ghost use Rattle.prefinalizer_effects.specs.Places.{IsFound, HasFoundWord, HasFoundPair};

use gc_graph::Kind;
use member_fields::get;
use nodes_in_words::Space;
use object_headers::place_in;
use page_words::MutatorSeat;
use type_table::{TypeTable, fields_stand_apart};

/// The kind of a field, and the offset of its first word from the object's place; none where there
/// is no such field.
pub fn field_in(
    space: &Space,
    types: &TypeTable,
    seat: &mut MutatorSeat,
    place: u32,
    field: u32,
) -> Option<(Kind, u32)>
    requires heap { IsSeatOf space.now seat.old }
    requires types { types.now ≡ seat.old.types }
    requires typed { BodiesAreTyped seat.old }
    requires place { IsPlace seat.old.bodies place }
    ensures found { IsFound seat.old place field result }
    ensures word { HasFoundWord seat.old place result }
    ensures pair { HasFoundPair seat.old place result }
    ensures view { OnlyLooked seat.old seat.new }
    ensures looked { StartsWith seat.new.looked seat.old.looked }
{
    fields_stand_apart();
    seat.bodies_lie_apart();
    let header = space.header_at(seat, place);
    let extra = header.size - types.size_of(header.ty, 0);
    types.field_at(header.ty, extra, field)
}

/// The place of the object that a strong field names; none where there is no such field, where it is
/// of another kind, or null.
pub fn linked_from(
    space: &Space,
    types: &TypeTable,
    seat: &mut MutatorSeat,
    place: u32,
    link: u32,
) -> Option<u32>
    requires heap { IsSeatOf space.now seat.old }
    requires types { types.now ≡ seat.old.types }
    requires typed { BodiesAreTyped seat.old }
    requires links { AreLinked seat.old }
    requires place { IsPlace seat.old.bodies place }
    ensures linked { (b : Body) → Contains seat.old.bodies b → b.place ≡ place
        → result ≡ linked_place seat.old.types b link }
    ensures place { IfSome result (IsPlace seat.old.bodies) }
    ensures view { OnlyLooked seat.old seat.new }
    ensures looked { StartsWith seat.new.looked seat.old.looked }
{
    seat.bodies_lie_apart();
    match field_in(space, types, seat, place, link) {
        Some((Kind::Strong, word)) => place_in(get(space, seat, place, word)),
        _ => None,
    }
}
