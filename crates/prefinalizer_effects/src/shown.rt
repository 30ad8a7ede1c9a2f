// The words of a dying object as its prefinalizers are shown them (`include/cppgc/prefinalizer.h`).

ghost use Rattle.std.specs.Prelude.{◌≡◌, ℕ, ◌≤◌, Contains, take, slice_index};
ghost use Rattle.std.specs.Io.{StartsWith};
ghost use Rattle.marker_core.specs.Bodies.{IsPlace};
ghost use Rattle.marker_core.specs.declared.states.Body.{Body};
ghost use Rattle.page_words.specs.Seat.{OnlyLooked};
ghost use Rattle.nodes_in_words.specs.Space.{IsSeatOf};
ghost use Rattle.prefinalizer_effects.specs.Shown as spec;
ghost use Rattle.prefinalizer_effects.specs.Acting.{BodiesAreTyped};

use gc_graph::Kind;
use nodes_in_words::Space;
use object_headers::FIRST_FIELD;
use page_words::{MutatorSeat, Reading};
use type_table::{TypeTable, fields_stand_apart};

/// Writes the shown words of the object at a place to the front of `into`, and answers how many
/// these are: one for each word of the declared fields, at most 64. The rest of `into` stays.
pub fn shown_words(
    space: &Space,
    types: &TypeTable,
    seat: &mut MutatorSeat,
    place: u32,
    into: &mut [u64; 64],
) -> u32
    requires heap { IsSeatOf space.now seat.old }
    requires types { types.now ≡ seat.old.types }
    requires typed { BodiesAreTyped seat.old }
    requires place { IsPlace seat.old.bodies place }
    ensures few { result ≤ 64 }
    ensures words { (b : Body) → Contains seat.old.bodies b → b.place ≡ place
        → take result into.new ≡ spec.shown_body_words seat.old.types b }
    ensures rest { (i : ℕ) → result ≤ i → slice_index into.new i ≡ slice_index into.old i }
    ensures view { OnlyLooked seat.old seat.new }
    ensures looked { StartsWith seat.new.looked seat.old.looked }
{
    fields_stand_apart();
    seat.bodies_lie_apart();
    let ty = space.header_at(seat, place).ty;
    let count = (types.size_of(ty, 0) - FIRST_FIELD).min(64);
    for i in 0..count {
        let word = FIRST_FIELD + i;
        let w = space.words().load::<Reading>(seat, place + word);
        into[i as usize] = shown(types.kind_at(ty, word), w);
    }
    count
}

/// How a word of a field of the kind is shown.
fn shown(kind: Kind, w: u64) -> u64
    ensures { result ≡ spec.shown_field_word kind w }
{
    match kind {
        Kind::Strong | Kind::Weak | Kind::Pair => u64::from(w != 0),
        Kind::Plain => w,
    }
}
