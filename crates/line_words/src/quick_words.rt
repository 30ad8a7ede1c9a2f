// Words of a line that are looked for: a first word, numbers, and the line's end.

ghost use Rattle.std.specs.Prelude.{◌≡◌, ◌<◌, ◌≤◌, ◌==◌, true, length, slice_index, IfSome, IsSome, ◌↔◌, if◌then◌else◌};
ghost use Rattle.std.specs.List.{list_all};
ghost use Rattle.line_words.specs.Cursor.{is_word_byte};
ghost use Rattle.line_words.specs.QuickWords.{IsFirstWord, IsSmallNumber, IsAnyNumber, IsEndOfWords};

use super::cursor::past_spaces;
use super::numerals::{few_digits, next_number, short_number};

/// A number of a line, and the place after it.
#[derive(Clone, Copy)]
pub struct Small {
    pub value: u32,
    pub end: usize,
}

/// The same, for a number of 64 bits.
#[derive(Clone, Copy)]
pub struct Any {
    pub value: u64,
    pub end: usize,
}

/// Whether this word and a space stand there.
#[inline(always)]
pub fn begins(bytes: &[u8], at: usize, word: &[u8]) -> bool
    requires within { at ≤ length bytes.now }
    requires some { 0 < length word.now }
    requires word { list_all is_word_byte word.now ≡ true }
    ensures { result ≡ true → IsFirstWord bytes.now at word.now }
{
    if bytes.len() - at <= word.len() || bytes[at + word.len()] != b' ' || bytes[at] != word[0] {
        return false;
    }
    &bytes[at..at + word.len()] == word
}

/// The next word of the line, where it is a number below the limit.
#[inline(always)]
pub fn next_small(bytes: &[u8], from: usize, limit: u32) -> Option<Small>
    requires { from ≤ length bytes.now }
    ensures { IfSome result (IsSmallNumber bytes.now from limit) }
{
    if let Some((end, value)) = short_number(bytes, from) {
        return below(value, end, limit);
    }
    let word = few_digits(bytes, from)?;
    below(word.value?, word.end, limit)
}

// A number that ends there, where it is below the limit.
#[inline(always)]
fn below(value: u64, end: usize, limit: u32) -> Option<Small>
    ensures number { IfSome result (λ small. (small.value ≡ value) × (small.end ≡ end)) }
    ensures limit { IsSome result ↔ value < limit }
{
    if value < u64::from(limit) {
        Some(Small {
            value: value as u32,
            end,
        })
    } else {
        None
    }
}

/// The next word of the line, where it is a number.
#[inline(always)]
pub fn next_any(bytes: &[u8], from: usize) -> Option<Any>
    requires { from ≤ length bytes.now }
    ensures { IfSome result (IsAnyNumber bytes.now from) }
{
    let word = next_number(bytes, from);
    let value = word.value?;
    Some(Any {
        value,
        end: word.end,
    })
}

/// The end of the line, where no word is left on it.
#[inline(always)]
pub fn line_end(bytes: &[u8], from: usize) -> Option<usize>
    requires { from ≤ length bytes.now }
    ensures { IfSome result (IsEndOfWords bytes.now from) }
{
    if is_line_end(bytes, from) {
        return Some(from);
    }
    let end = past_spaces(bytes, from);
    if is_line_end(bytes, end) {
        Some(end)
    } else {
        None
    }
}

/// Whether a line's end stands there, or that of the bytes.
#[inline(always)]
pub fn is_line_end(bytes: &[u8], place: usize) -> bool
    requires { place ≤ length bytes.now }
    ensures { result ≡ true → IsEndOfWords bytes.now place place }
{
    place == bytes.len() || bytes[place] == b'\n'
}
