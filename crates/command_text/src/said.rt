// The words after the first, each at its place.

ghost use Rattle.std.specs.Prelude.{◌≡◌, ◌+◌, ◌<◌, ◌≤◌, min, ◌∷◌, [], ◌++◌, length};
ghost use Rattle.command_text.specs.Said.{list_of, IsReadOn};

use super::forms::Spot;
use super::places::{Bounds, Reading, read_as};
use super::reasons::FAULTLESS;
use line_words::next_number;

/// What the words of a line say as far as they are read, up to the place `end`: the number of their
/// lowest reason, or 9, and `count` numbers, from `a` on.
#[derive(Clone, Copy)]
pub(crate) struct Said {
    pub(crate) rank: u32,
    pub(crate) end: usize,
    pub(crate) count: usize,
    pub(crate) a: u32,
    pub(crate) b: u32,
    pub(crate) c: u32,
    pub(crate) d: u32,
}

/// No word was read, up to the place `end`.
#[inline(always)]
pub(crate) fn nothing_said(end: usize) -> Said
    ensures rank { result.rank ≡ 9 }
    ensures end { result.end ≡ end }
    ensures count { result.count ≡ 0 }
{
    Said {
        rank: FAULTLESS,
        end,
        count: 0,
        a: 0,
        b: 0,
        c: 0,
        d: 0,
    }
}

/// Reads the words that are there, one at each place.
#[inline(always)]
pub(crate) fn read_places(bytes: &[u8], spots: &[Spot], bounds: Bounds, before: Said) -> Said
    requires within { before.end ≤ length bytes.now }
    requires low { before.rank ≤ 9 }
    requires room { before.count + length spots.now ≤ 4 }
    ensures { IsReadOn bounds spots.now bytes.now before result }
{
    let mut said = before;
    for spot in spots {
        said = read_next(bytes, *spot, bounds, said);
    }
    said
}

// Reads the next word, if there is one, at its place.
#[inline(always)]
fn read_next(bytes: &[u8], spot: Spot, bounds: Bounds, said: Said) -> Said
    requires within { said.end ≤ length bytes.now }
    requires low { said.rank ≤ 9 }
    requires room { said.count < 4 }
    ensures { IsReadOn bounds (spot ∷ []) bytes.now said result }
{
    let word = next_number(bytes, said.end);
    if word.start == word.end {
        return said;
    }
    with_word(
        said,
        read_as(spot, &bytes[word.start..word.end], word.value, bounds),
        word.end,
    )
}

/// The same with one more word, which was read so and ends there.
#[inline(always)]
pub(crate) fn with_word(said: Said, reading: Reading, end: usize) -> Said
    requires { said.count < 4 }
    ensures rank { result.rank ≡ min said.rank reading.rank }
    ensures end { result.end ≡ end }
    ensures count { result.count ≡ said.count + 1 }
    ensures numbers { list_of result ≡ list_of said ++ reading.value ∷ [] }
{
    let rank = said.rank.min(reading.rank);
    let count = said.count + 1;
    let value = reading.value;
    match said.count {
        0 => Said {
            rank,
            end,
            count,
            a: value,
            ..said
        },
        1 => Said {
            rank,
            end,
            count,
            b: value,
            ..said
        },
        2 => Said {
            rank,
            end,
            count,
            c: value,
            ..said
        },
        _ => Said {
            rank,
            end,
            count,
            d: value,
            ..said
        },
    }
}
