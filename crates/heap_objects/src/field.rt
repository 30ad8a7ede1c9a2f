// A field of an object, and how its word is written (`include/cppgc/member.h`).

ghost use Rattle.std.specs.Prelude.{◌≡◌, ◌+◌, true, false};
ghost use Rattle.std.specs.Prelude.{Some, None, Ok, Err};
ghost use Rattle.std.specs.Prelude.{MatchOption, MatchBool};
ghost use Rattle.gc_graph.specs.declared.line.Refusal.TheVariants as R;
ghost use Rattle.gc_graph.specs.Fields.{is_reference};
ghost use Rattle.type_table.specs.Types.{is_kind};
ghost use Rattle.page_words.specs.Seat.{rewritten};
ghost use Rattle.page_space.specs.Space.{IsSeatOf};
ghost use Rattle.member_fields.specs.Words.{HasFieldWord};
ghost use Rattle.member_fields.specs.Barrier.{IsReadyToStore, MayKeep, MayKeepNamed, HasBarrier};
ghost use Rattle.heap_objects.specs.Fields.{allows, TakesWord, kept_word};

use gc_graph::{Kind, Refusal};
use mark_worklist::Marking;
use member_fields::{put_word, set, set_weak};
use page_space::Space;
use page_words::MutatorSeat;

/// A field: its holder's place, its kind, and the offset of its first word from that place.
#[derive(Clone, Copy, Drop)]
pub struct Field {
    pub holder: u32,
    pub kind: Kind,
    pub word: u32,
}

/// One of the two words of a pair.
#[derive(Clone, Copy, Drop)]
pub enum Part {
    Key,
    Value,
}

/// Which fields a command speaks of.
#[derive(Clone, Copy, Drop)]
pub enum Wanted {
    /// Strong and weak fields.
    References,
    /// Plain fields, the extra words among them.
    Numbers,
    /// Ephemeron pairs.
    Pairs,
}

impl Wanted {
    /// Whether a field of the kind is one of these.
    pub fn allows(self, kind: Kind) -> bool
        ensures { result ≡ allows self kind }
    {
        match self {
            Wanted::References => match kind {
                Kind::Strong | Kind::Weak => true,
                Kind::Pair | Kind::Plain => false,
            },
            Wanted::Numbers => match kind {
                Kind::Plain => true,
                Kind::Strong | Kind::Weak | Kind::Pair => false,
            },
            Wanted::Pairs => match kind {
                Kind::Pair => true,
                Kind::Strong | Kind::Weak | Kind::Plain => false,
            },
        }
    }
}

/// The field that was found in the object at a place, or why a command has none that it wants.
pub fn wanted_field(
    holder: u32,
    found: Option<(Kind, u32)>,
    wanted: Wanted,
) -> Result<Field, Refusal>
    ensures { MatchOption found (result ≡ Err R.Field) (λ t. MatchBool (allows wanted t.0)
        (result ≡ Ok (record { holder = holder; kind = t.0; word = t.1 }))
        (result ≡ Err R.Kind)) }
{
    match found {
        Some((kind, word)) => {
            if wanted.allows(kind) {
                Ok(Field { holder, kind, word })
            } else {
                Err(Refusal::Kind)
            }
        }
        None => Err(Refusal::Field),
    }
}

/// Writes the word of a field that is no pair, as fields of its kind are written.
pub fn write_field(
    space: &Space,
    seat: &mut MutatorSeat,
    marking: &mut Marking,
    field: Field,
    w: u64,
)
    requires heap { IsSeatOf space.now seat.old }
    requires on { marking.old.on ≡ seat.old.on }
    requires ready { IsReadyToStore seat.old }
    requires field { HasFieldWord (is_kind field.kind) seat.old field.holder field.word }
    requires word { TakesWord field.kind seat.old.bodies w }
    requires holder { MayKeep seat.old field.holder }
    requires kept { is_reference field.kind ≡ true → MayKeepNamed seat.old w }
    ensures barrier { HasBarrier (kept_word field.kind w)
        (rewritten seat.old (field.holder + field.word) w) marking.old seat.new marking.new }
    ensures off { seat.old.on ≡ false
        → (seat.new ≡ rewritten seat.old (field.holder + field.word) w)
        × (marking.new ≡ marking.old) }
    ensures ready { IsReadyToStore seat.new }
{
    seat.bodies_lie_apart();
    match field.kind {
        Kind::Strong => set(space, seat, marking, field.holder, field.word, w),
        Kind::Weak => set_weak(space, seat, field.holder, field.word, w),
        Kind::Plain => put_word(space, seat, field.holder, field.word, w),
        Kind::Pair => unreachable!(),
    }
}
