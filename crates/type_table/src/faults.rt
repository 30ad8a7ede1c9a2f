// Which types make no table.

ghost use Rattle.std.specs.Prelude.{◌≡◌, ◌≤◌, length, nat_lt, not, map, MatchOption, All};
ghost use Rattle.std.specs.List.{list_all, position, find};
ghost use Rattle.type_table.specs.Faults as spec;

use crate::decl::TypeDecl;
use crate::layout::field_words;
use thiserror::Error;

const MOST_TYPES: usize = 16_383;

const MOST_FIELDS: usize = 64;

/// As many as a mask has bits.
const MOST_WORDS: u32 = 64;

/// Why types make no table, in the order in which it is tested. Types are numbered from 0.
#[derive(Debug, PartialEq, Eq, Drop, Error)]
pub enum TypeFault {
    #[error("{count} types, over 16383")]
    TooManyTypes { count: u64 },
    #[error("type {ty} has over 64 fields")]
    TooManyFields { ty: u32 },
    #[error("type {ty} names callback {callback}, which there is none of")]
    NoCallback { ty: u32, callback: u32 },
    #[error("type {ty} has weak callbacks and over 64 words")]
    TooManyWords { ty: u32 },
    #[error("no memory")]
    NoMemory,
}

/// The first fault of the types.
pub(crate) fn fault_of(types: &[TypeDecl], callbacks: u32) -> Option<TypeFault>
    ensures { MatchOption result (spec.AreGoodTypes callbacks types.now)
        (spec.IsFaultOfTypes callbacks types.now) }
{
    if types.len() > MOST_TYPES {
        return Some(TypeFault::TooManyTypes {
            count: types.len() as u64,
        });
    }
    if let Some(ty) = first_wide(types) {
        return Some(TypeFault::TooManyFields { ty: ty as u32 });
    }
    match unknown_of(types, callbacks) {
        Some(unknown) => Some(unknown),
        None => over_words_of(types),
    }
}

fn first_wide(types: &[TypeDecl]) -> Option<usize>
    ensures { result ≡ position spec.is_too_wide types.now }
{
    types
        .iter()
        .position(|decl| decl.fields().len() > MOST_FIELDS)
}

/// The first prefinalizer or weak callback that is no callback.
fn unknown_of(types: &[TypeDecl], callbacks: u32) -> Option<TypeFault>
    requires { length types.now ≤ 16383 }
    ensures { MatchOption result (position (spec.names_none callbacks) types.now ≡ None)
        (spec.IsUnknownOf callbacks types.now) }
{
    for (ty, decl) in types.iter().enumerate() {
        match unknown_in(decl, callbacks) {
            Some(callback) => return Some(TypeFault::NoCallback {
                ty: ty as u32,
                callback,
            }),
            None => {}
        }
    }
    None
}

fn unknown_in(decl: &TypeDecl, callbacks: u32) -> Option<u32>
    ensures { result ≡ find (spec.is_no_callback callbacks) (spec.called_of decl.now) }
{
    match unknown_among(decl.callbacks(), callbacks) {
        Some(callback) => Some(callback),
        None => unknown_among(decl.weak(), callbacks),
    }
}

fn unknown_among(numbers: &[u32], callbacks: u32) -> Option<u32>
    ensures { result ≡ find (spec.is_no_callback callbacks) numbers.now }
{
    numbers.iter().copied().find(|number| *number >= callbacks)
}

fn over_words_of(types: &[TypeDecl]) -> Option<TypeFault>
    requires few { length types.now ≤ 16383 }
    requires narrow { All (λ type. length type.kinds ≤ 64) types.now }
    ensures { MatchOption result (position spec.is_over_words types.now ≡ None)
        (spec.IsOverWordsOf types.now) }
{
    match first_over_words(types) {
        Some(ty) => Some(TypeFault::TooManyWords { ty: ty as u32 }),
        None => None,
    }
}

fn first_over_words(types: &[TypeDecl]) -> Option<usize>
    requires { All (λ type. length type.kinds ≤ 64) types.now }
    ensures { result ≡ position spec.is_over_words types.now }
{
    types.iter().position(|decl| is_over_words(decl))
}

fn is_over_words(decl: &TypeDecl) -> bool
    requires { length decl.now.kinds ≤ 64 }
    ensures { result ≡ spec.is_over_words decl.now }
{
    !decl.weak().is_empty() && field_words(decl.fields()) > MOST_WORDS
}
