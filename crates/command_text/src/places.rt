// One word at its place: its rank, and the number that it says.

ghost use Rattle.std.specs.Prelude.{◌≡◌, ◌≤◌, ◌==◌, ◌+◌, ◌^◌, ◌||◌, not, false, Some, None, [], ◌∷◌, if◌then◌else◌, codes};
ghost use Rattle.gc_graph.specs.Reasons.{says, is_beyond, value_of};
ghost use Rattle.gc_graph.specs.Words.{is_number, is_text};
ghost use Rattle.command_text.specs.Ranks.{number_rank, rank_at, rank_by};
ghost use Rattle.command_text.specs.Rows.{bounds_of, is_null, place_of_spot};
ghost use Rattle.command_text.specs.Said.{IsNullSaid};

use super::forms::Spot;
use super::reasons::{BAD_NUMBER, FAULTLESS, RANGE, UNKNOWN_WORD};
use line_words::number;

/// How many types the lines before declare, and how many callbacks there are.
#[derive(Clone, Copy)]
pub struct Bounds {
    pub types: u32,
    pub callbacks: u32,
}

/// The number of the lowest reason that a word gives, or 9; and the number that the word says, which
/// counts only there, but that it is 0 exactly for null counts everywhere.
#[derive(Clone, Copy)]
pub(crate) struct Reading {
    pub(crate) rank: u32,
    pub(crate) value: u32,
}

/// Reads a word at its place.
pub(crate) fn read_place(spot: Spot, word: &[u8], bounds: Bounds) -> Reading
    ensures rank { result.rank ≡ rank_at (bounds_of bounds) (place_of_spot spot) word.now }
    ensures value { result.rank ≡ 9 → says (place_of_spot spot) word.now ≡ result.value ∷ [] }
{
    read_as(spot, word, number(word), bounds)
}

/// The same, where the number that the word is, or that it is none, is known.
#[inline(always)]
#[tactic(auto, using(crate::proofs::PlacesRead::number_ranks))]
pub(crate) fn read_as(spot: Spot, word: &[u8], value: Option<u64>, bounds: Bounds) -> Reading
    requires { value ≡ (if is_number word.now then Some (value_of word.now) else None) }
    ensures rank { result.rank ≡ rank_at (bounds_of bounds) (place_of_spot spot) word.now }
    ensures value { result.rank ≡ 9 → says (place_of_spot spot) word.now ≡ result.value ∷ [] }
    ensures null { IsNullSaid (place_of_spot spot) word.now result.value }
{
    match spot {
        Spot::Number(from, last) => judged(value, from, u64::from(last) + 1),
        Spot::TypeNumber => judged(value, 0, u64::from(bounds.types)),
        Spot::NumberOrNull(from, last) => judged_or_null(value, word, from, last),
        Spot::Want => read_either(word, b"precise", b"conservative"),
        Spot::GoOrJoin => read_either(word, b"go", b"join"),
    }
}

// The rank of a word that is this number, or none, where one from `from` on and below `limit` stands.
#[inline(always)]
fn judged(value: Option<u64>, from: u32, limit: u64) -> Reading
    requires { limit ≤ 2 ^ 32 }
    ensures rank { result.rank ≡ number_rank from limit value }
    ensures value { result.rank ≡ 9 → value ≡ Some result.value }
    ensures low { result.value ≤ limit }
{
    match value {
        None => Reading {
            rank: BAD_NUMBER,
            value: 0,
        },
        Some(value) if value >= u64::from(from) && value < limit => Reading {
            rank: FAULTLESS,
            value: value as u32,
        },
        Some(_) => Reading {
            rank: RANGE,
            value: 0,
        },
    }
}

#[inline(always)]
#[tactic(auto, using(crate::proofs::PlacesRead::number_ranks))]
fn judged_or_null(value: Option<u64>, word: &[u8], from: u16, last: u16) -> Reading
    requires { value ≡ (if is_number word.now then Some (value_of word.now) else None) }
    ensures rank { result.rank ≡ rank_by false (not (is_null word.now || is_number word.now)) false
        (is_beyond from (last + 1) word.now) }
    ensures value { result.rank ≡ 9 →
        (if is_null word.now then 0 else value_of word.now + 1) ≡ result.value }
    ensures null { (result.value == 0) ≡ is_null word.now }
{
    if word == b"-".as_slice() {
        return Reading {
            rank: FAULTLESS,
            value: 0,
        };
    }
    let reading = judged(value, u32::from(from), u64::from(last) + 1);
    Reading {
        rank: reading.rank,
        value: reading.value + 1,
    }
}

#[inline(never)]
fn read_either(word: &[u8], one: &'static [u8], other: &'static [u8]) -> Reading
    ensures rank { result.rank ≡
        rank_by (not (is_text word.now one.now || is_text word.now other.now)) false false false }
    ensures value { result.rank ≡ 9 → (if is_text word.now one.now then 0 else 1) ≡ result.value }
{
    if word == one {
        return Reading {
            rank: FAULTLESS,
            value: 0,
        };
    }
    if word == other {
        return Reading {
            rank: FAULTLESS,
            value: 1,
        };
    }
    Reading {
        rank: UNKNOWN_WORD,
        value: 0,
    }
}
