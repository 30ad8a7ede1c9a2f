// What the action of a prefinalizer does (`include/cppgc/prefinalizer.h`). Marking is over then, so
// that no barrier is needed, and to clear adds no reference.

ghost use Rattle.std.specs.Prelude.{◌≡◌, false, Contains};
ghost use Rattle.std.specs.Io.{StartsWith};
ghost use Rattle.marker_core.specs.Bodies.{IsPlace};
ghost use Rattle.marker_core.specs.declared.states.Body.{Body};
ghost use Rattle.page_words.specs.Seat.{OnlyLooked};
ghost use Rattle.nodes_in_words.specs.Space.{IsSeatOf};
ghost use Rattle.prefinalizer_effects.specs.Acting.{BodiesAreTyped, AreLinked, after_action};
ghost use Rattle.prefinalizer_effects.specs.Acting.{changed_at, body_cleared_at, body_added_at};

use crate::fields::{field_in, linked_from};
use gc_graph::{Action, Kind};
use member_fields::{clear_pair, get_word, put_word, set_weak};
use nodes_in_words::Space;
use page_words::MutatorSeat;
use type_table::{TypeTable, fields_stand_apart};

/// Does what the action says for the dying object at a place.
pub fn apply(space: &Space, types: &TypeTable, seat: &mut MutatorSeat, place: u32, action: Action)
    requires heap { IsSeatOf space.now seat.old }
    requires off { seat.old.on ≡ false }
    requires types { types.now ≡ seat.old.types }
    requires typed { BodiesAreTyped seat.old }
    requires links { AreLinked seat.old }
    requires place { IsPlace seat.old.bodies place }
    ensures acted { (b : Body) → Contains seat.old.bodies b → b.place ≡ place
        → OnlyLooked (after_action seat.old b action) seat.new }
    ensures typed { BodiesAreTyped seat.new }
    ensures links { AreLinked seat.new }
    ensures looked { StartsWith seat.new.looked seat.old.looked }
{
    fields_stand_apart();
    match action {
        Action::Nothing => {}
        Action::Clear { link, field } => {
            if let Some(named) = linked_from(space, types, seat, place, link) {
                clear(space, types, seat, named, field);
            }
        }
        Action::Add {
            link,
            field,
            amount,
        } => {
            if let Some(named) = linked_from(space, types, seat, place, link) {
                add(space, types, seat, named, field, amount);
            }
        }
    }
}

/// Sets a field to null, where it is there and holds references.
fn clear(space: &Space, types: &TypeTable, seat: &mut MutatorSeat, place: u32, field: u32)
    requires heap { IsSeatOf space.now seat.old }
    requires off { seat.old.on ≡ false }
    requires types { types.now ≡ seat.old.types }
    requires typed { BodiesAreTyped seat.old }
    requires place { IsPlace seat.old.bodies place }
    ensures changed { OnlyLooked
        (changed_at seat.old place (body_cleared_at seat.old.types field)) seat.new }
    ensures looked { StartsWith seat.new.looked seat.old.looked }
{
    seat.bodies_lie_apart();
    match field_in(space, types, seat, place, field) {
        Some((Kind::Strong, word)) => member_fields::clear(space, seat, place, word),
        Some((Kind::Weak, word)) => set_weak(space, seat, place, word, 0),
        Some((Kind::Pair, word)) => clear_pair(space, seat, place, word),
        Some((Kind::Plain, _)) => {}
        None => {}
    }
}

/// Adds to a field, where it is there and plain, modulo 2^64.
fn add(
    space: &Space,
    types: &TypeTable,
    seat: &mut MutatorSeat,
    place: u32,
    field: u32,
    amount: u64,
)
    requires heap { IsSeatOf space.now seat.old }
    requires off { seat.old.on ≡ false }
    requires types { types.now ≡ seat.old.types }
    requires typed { BodiesAreTyped seat.old }
    requires place { IsPlace seat.old.bodies place }
    ensures changed { OnlyLooked
        (changed_at seat.old place (body_added_at seat.old.types field amount)) seat.new }
    ensures looked { StartsWith seat.new.looked seat.old.looked }
{
    seat.bodies_lie_apart();
    match field_in(space, types, seat, place, field) {
        Some((Kind::Plain, word)) => {
            let before = get_word(space, seat, place, word);
            put_word(space, seat, place, word, before.wrapping_add(amount));
        }
        Some((Kind::Strong, _)) => {}
        Some((Kind::Weak, _)) => {}
        Some((Kind::Pair, _)) => {}
        None => {}
    }
}
