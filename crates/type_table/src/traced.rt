// The words of an object at which tracing stops.

ghost use Rattle.std.specs.Prelude.{◌≡◌, ◌≤◌, length, IfOk};
ghost use Rattle.type_table.specs.TracedWords.{traced_word, traced_words_of};

use crate::layout::words_of;
use gc_graph::{Kind, NoMemory};
use object_headers::FIRST_FIELD;
use std::alloc::Global;

/// A strong field or a pair, with the offset of its first word from the object's place. A pair's
/// value stands after its key.
#[derive(Clone, Copy, Debug, PartialEq, Eq, Drop)]
pub enum TracedWord {
    StrongAt(u32),
    PairAt(u32),
}

/// The strong fields and the pairs among fields of these kinds, in the order of their offsets.
pub(crate) fn traced_words_of(alloc: Global, kinds: &[Kind]) -> Result<Vec<TracedWord>, NoMemory>
    requires { length kinds.now ≤ 64 }
    ensures { IfOk result (λ traced. traced.items ≡ traced_words_of kinds.now) }
{
    let mut traced = Vec::new(alloc);
    let mut next = FIRST_FIELD;
    for kind in kinds {
        if let Some(word) = traced_word(*kind, next) {
            traced.push(word)?;
        }
        next += words_of(*kind);
    }
    Ok(traced)
}

fn traced_word(kind: Kind, offset: u32) -> Option<TracedWord>
    ensures { result ≡ traced_word kind offset }
{
    match kind {
        Kind::Strong => Some(TracedWord::StrongAt(offset)),
        Kind::Pair => Some(TracedWord::PairAt(offset)),
        Kind::Weak | Kind::Plain => None,
    }
}
