// The line of a command, by its first word.

ghost use Rattle.std.specs.Prelude.{◌≡◌, ℕ, ◌-◌, ◌<◌, ◌≤◌, true, false, List, ◌∷◌, length, take, drop, codes};
ghost use Rattle.gc_graph.specs.Words.{is_text};
ghost use Rattle.line_words.specs.Cursor.{line_words};
ghost use Rattle.command_text.specs.CommandLines.{IsCommandLine};
ghost use Rattle.command_text.specs.Rows.{bounds_of};

use super::forms::{Make, Spot};
use super::places::{Bounds, Reading, read_place};
use super::reasons::{COUNT, UNKNOWN_WORD};
use super::row_lines::{CommandLine, read_row, read_small_row, read_wide_row, refused};
use super::rows::{at_row_of, gc_row_of, row_of};
use super::said::{Said, nothing_said};
use line_words::next_word;

/// What the line says whose first word stands from `start` to `end` and isn't `type`.
pub fn read_command(bytes: &[u8], start: usize, end: usize, bounds: Bounds) -> CommandLine
    requires word { start < end }
    requires within { end ≤ length bytes.now }
    requires plain { is_text (take (end - start) (drop start bytes.now)) (codes "type") ≡ false }
    ensures { IsCommandLine (bounds_of bounds)
        (take (end - start) (drop start bytes.now) ∷ line_words (drop end bytes.now))
        bytes.now end result }
{
    let word = &bytes[start..end];
    if word == b"gc".as_slice() {
        return read_gc(bytes, end, bounds);
    }
    if word == b"at".as_slice() {
        return read_at(bytes, end, bounds);
    }
    read_plain(bytes, word, end, bounds)
}

// The line of a form that the first word chooses.
#[inline(always)]
fn read_plain(bytes: &[u8], first: &[u8], from: usize, bounds: Bounds) -> CommandLine
    requires within { from ≤ length bytes.now }
    requires no_type { is_text first.now (codes "type") ≡ false }
    requires no_gc { is_text first.now (codes "gc") ≡ false }
    requires no_at { is_text first.now (codes "at") ≡ false }
    ensures { IsCommandLine (bounds_of bounds) (first.now ∷ line_words (drop from bytes.now))
        bytes.now from result }
{
    match row_of(first) {
        Some(row) => {
            let before = nothing_said(from);
            match row.make {
                Make::Small(form) => read_small_row(bytes, row, form, bounds, before),
                Make::Wide(form) => read_wide_row(bytes, row, form, bounds, before),
            }
        }
        None => refused(UNKNOWN_WORD),
    }
}

// The line whose first word, before `from`, is `gc`.
#[inline(never)]
fn read_gc(bytes: &[u8], from: usize, bounds: Bounds) -> CommandLine
    requires { from ≤ length bytes.now }
    ensures { (first : List ℕ) → is_text first (codes "gc") ≡ true
        → IsCommandLine (bounds_of bounds) (first ∷ line_words (drop from bytes.now))
        bytes.now from result }
{
    let (start, end) = next_word(bytes, from);
    if start == end {
        return refused(COUNT);
    }
    match gc_row_of(&bytes[start..end]) {
        Some(row) => read_row(bytes, row, bounds, nothing_said(end)),
        None => refused(UNKNOWN_WORD),
    }
}

// The line whose first word, before `from`, is `at`.
#[inline(never)]
fn read_at(bytes: &[u8], from: usize, bounds: Bounds) -> CommandLine
    requires { from ≤ length bytes.now }
    ensures { (first : List ℕ) → is_text first (codes "at") ≡ true
        → IsCommandLine (bounds_of bounds) (first ∷ line_words (drop from bytes.now))
        bytes.now from result }
{
    let (start, end) = next_word(bytes, from);
    if start == end {
        return refused(COUNT);
    }
    let thread = read_place(THREAD, &bytes[start..end], bounds);
    let (start, end) = next_word(bytes, end);
    if start == end {
        return refused(thread.rank.min(COUNT));
    }
    match at_row_of(&bytes[start..end]) {
        Some(row) => read_row(bytes, row, bounds, thread_said(thread, end)),
        None => refused(UNKNOWN_WORD),
    }
}

const THREAD: Spot = Spot::Number(1, 8);

#[inline(always)]
fn thread_said(thread: Reading, end: usize) -> Said
    ensures rank { result.rank ≡ thread.rank }
    ensures end { result.end ≡ end }
    ensures count { result.count ≡ 1 }
    ensures number { result.a ≡ thread.value }
{
    Said {
        rank: thread.rank,
        end,
        count: 1,
        a: thread.value,
        b: 0,
        c: 0,
        d: 0,
    }
}
