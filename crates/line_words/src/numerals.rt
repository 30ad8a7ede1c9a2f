// The next word of a line with the number that it is, of which short ones are read with the word.

ghost use Rattle.std.specs.Prelude.{◌≡◌, ◌+◌, ◌==◌, ◌&&◌, not, nat_lt, ◌≤◌, true, length, slice_index, if◌then◌else◌, IfSome};
ghost use Rattle.gc_graph.specs.Words.{is_digit};
ghost use Rattle.line_words.specs.Cursor.{IsDigits, IsNextWord, IsShortNumber, IsWordEnd, is_word_byte, number_from};

use super::cursor::{past_spaces, word_end};
use super::numbers::number;

/// A word from `start` to `end`, or none where the two are one, and the number that it is.
#[derive(Clone, Copy)]
pub struct Numeral {
    pub start: usize,
    pub end: usize,
    pub value: Option<u64>,
}

#[inline(always)]
pub fn next_number(bytes: &[u8], from: usize) -> Numeral
    requires { from ≤ length bytes.now }
    ensures word { IsNextWord bytes.now from result.start result.end }
    ensures value { result.value ≡ number_from bytes.now result.start result.end }
{
    match short_number(bytes, from) {
        Some((end, value)) => Numeral {
            start: from + 1,
            end,
            value: Some(value),
        },
        None => number_after_spaces(bytes, from),
    }
}

/// A number of one to three digits after one space, and its end. Five bytes are as many as it takes with
/// the space and the byte that ends it, so one test of the length is enough.
#[inline(always)]
pub(crate) fn short_number(bytes: &[u8], from: usize) -> Option<(usize, u64)>
    requires { from ≤ length bytes.now }
    ensures { IfSome result (λ short. IsShortNumber bytes.now from short.0 short.1) }
{
    if bytes.len() - from < 5 || bytes[from] != b' ' || !is_decimal(bytes[from + 1]) {
        return None;
    }
    let one = u64::from(bytes[from + 1] - b'0');
    if is_gap(bytes[from + 2]) {
        return Some((from + 2, one));
    }
    if bytes[from + 1] == b'0' || !is_decimal(bytes[from + 2]) {
        return None;
    }
    let two = one * 10 + u64::from(bytes[from + 2] - b'0');
    if is_gap(bytes[from + 3]) {
        return Some((from + 3, two));
    }
    if !is_decimal(bytes[from + 3]) || !is_gap(bytes[from + 4]) {
        return None;
    }
    Some((from + 4, two * 10 + u64::from(bytes[from + 3] - b'0')))
}

#[inline(always)]
fn is_decimal(byte: u8) -> bool
    ensures { result ≡ is_digit byte }
{
    byte >= b'0' && byte <= b'9'
}

// A byte that stands in no word.
#[inline(always)]
fn is_gap(byte: u8) -> bool
    ensures { result ≡ not (is_word_byte byte) }
{
    byte == b' ' || byte == b'\n'
}

// The next word, however many spaces stand before it.
#[inline(never)]
fn number_after_spaces(bytes: &[u8], from: usize) -> Numeral
    requires { from ≤ length bytes.now }
    ensures word { IsNextWord bytes.now from result.start result.end }
    ensures value { result.value ≡ number_from bytes.now result.start result.end }
{
    match few_digits(bytes, from) {
        Some(word) => word,
        None => long_number(bytes, past_spaces(bytes, from)),
    }
}

/// The next word, however many spaces stand before it, where it ends with its first digits. It is
/// compiled where it is called, so that nothing is kept in memory for it.
#[inline(always)]
pub(crate) fn few_digits(bytes: &[u8], from: usize) -> Option<Numeral>
    requires { from ≤ length bytes.now }
    ensures word { IfSome result (λ word. IsNextWord bytes.now from word.start word.end) }
    ensures value { IfSome result (λ word. word.value
        ≡ number_from bytes.now word.start word.end) }
{
    let start = past_spaces(bytes, from);
    let (place, value) = digits(bytes, start);
    if !is_end(bytes, place) {
        return None;
    }
    let value = if is_plain(bytes, start, place) {
        Some(u64::from(value))
    } else {
        None
    };
    Some(Numeral {
        start,
        end: place,
        value,
    })
}

// A word that doesn't end with its first digits.
#[inline(never)]
fn long_number(bytes: &[u8], start: usize) -> Numeral
    requires { start ≤ length bytes.now }
    ensures start { result.start ≡ start }
    ensures end { IsWordEnd bytes.now start result.end }
    ensures value { result.value ≡ number_from bytes.now result.start result.end }
{
    let end = word_end(bytes, start);
    Numeral {
        start,
        end,
        value: number(&bytes[start..end]),
    }
}

// The place after the digits from `start` on, as far as their value is small, and that value.
#[inline(always)]
fn digits(bytes: &[u8], start: usize) -> (usize, u32)
    requires { start ≤ length bytes.now }
    ensures { IsDigits bytes.now start result.0 result.1 }
{
    let mut place = start;
    let mut value = 0u32;
    while value < 100_000_000
        && place < bytes.len()
        && bytes[place] >= b'0'
        && bytes[place] <= b'9'
    {
        value = value * 10 + u32::from(bytes[place] - b'0');
        place += 1;
    }
    (place, value)
}

// No byte of a word stands there.
#[inline(always)]
fn is_end(bytes: &[u8], place: usize) -> bool
    requires { place ≤ length bytes.now }
    ensures { result ≡ (if place == length bytes.now then true
        else not (is_word_byte (slice_index bytes.now place))) }
{
    place == bytes.len() || is_gap(bytes[place])
}

// The digits are a number: there is one, and no zero stands before others.
#[inline(always)]
fn is_plain(bytes: &[u8], start: usize, end: usize) -> bool
    requires order { start ≤ end }
    requires within { end ≤ length bytes.now }
    ensures { result ≡ (nat_lt start end
        && not (nat_lt (start + 1) end && (slice_index bytes.now start == 48))) }
{
    start < end && (end - start == 1 || bytes[start] != b'0')
}
