// The letters of a type line.

ghost use Rattle.std.specs.Prelude.{◌≡◌, ◌≤◌, length, map, IfOk};
ghost use Rattle.std.specs.List.{list_all};
ghost use Rattle.gc_graph.specs.Fields as fields;
ghost use Rattle.gc_graph.specs.Reasons as spec;

use super::words::is_text;
use gc_graph::Kind;
use std::alloc::{AllocError, Global};

pub(crate) fn are_letters(word: &[u8]) -> bool
    ensures { result ≡ spec.are_letters word.now }
{
    is_text(word, b"-") || are_all_letters(word)
}

fn are_all_letters(word: &[u8]) -> bool
    ensures { result ≡ list_all spec.is_letter word.now }
{
    word.iter().all(|letter| is_letter(*letter))
}

fn is_letter(letter: u8) -> bool
    ensures { result ≡ spec.is_letter letter }
{
    letter == b'S' || letter == b'W' || letter == b'E' || letter == b'P'
}

pub(crate) fn kinds_of(alloc: Global, word: &[u8]) -> Result<Vec<Kind>, AllocError>
    ensures { IfOk result (λ kinds. kinds.items ≡ spec.kinds_of word.now) }
{
    if is_text(word, b"-") {
        return Ok(Vec::new(alloc));
    }
    kinds_by_letter(alloc, word)
}

fn kinds_by_letter(alloc: Global, word: &[u8]) -> Result<Vec<Kind>, AllocError>
    ensures { IfOk result (λ kinds. kinds.items ≡ map spec.kind_of_letter word.now) }
{
    word.iter()
        .map(|letter| kind_of_letter(*letter))
        .collect(alloc)
}

fn kind_of_letter(letter: u8) -> Kind
    ensures { result ≡ spec.kind_of_letter letter }
{
    match letter {
        b'S' => Kind::Strong,
        b'W' => Kind::Weak,
        b'E' => Kind::Pair,
        _ => Kind::Plain,
    }
}

/// How many words fields of these kinds have.
pub(crate) fn field_words(kinds: &[Kind]) -> u32
    requires { length kinds.now ≤ 64 }
    ensures { result ≡ fields.field_words kinds.now }
{
    let mut words = 0;
    for kind in kinds {
        words += words_of(*kind);
    }
    words
}

fn words_of(kind: Kind) -> u32
    ensures value { result ≡ fields.words_of_kind kind }
    ensures few { result ≤ 2 }
{
    if kind == Kind::Pair { 2 } else { 1 }
}
