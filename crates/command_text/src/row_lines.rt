// The line of a row: its words after those that choose the row, and the command that they say.

ghost use Rattle.std.specs.Prelude.{◌≡◌, ◌==◌, ◌||◌, ◌≤◌, true, is_some, length, if◌then◌else◌};
ghost use Rattle.command_text.specs.RowLines.{IsRowLine, row_numbers, row_rank};
ghost use Rattle.command_text.specs.Rows.{command_of, is_sound, makes_pair, pair_places, places_in};

use super::forms::{Make, Row};
use super::making::{SmallForm, small_command};
use super::pairs::half_rank;
use super::places::Bounds;
use super::reasons::{COUNT, FAULTLESS};
use super::said::{Said, read_places};
use super::wide::{WideForm, read_wide, wide_command};
use gc_graph::Command;
use line_words::next_word;

/// What a line says, and the place of its end; or the number of the lowest reason why it is faulty,
/// and then `end` counts for nothing.
#[derive(Drop)]
pub struct CommandLine {
    pub said: Result<Command, u32>,
    pub end: usize,
}

#[inline(never)]
pub(crate) fn read_row(bytes: &[u8], row: &Row, bounds: Bounds, before: Said) -> CommandLine
    requires within { before.end ≤ length bytes.now }
    requires low { before.rank ≤ 9 }
    requires sound { is_sound before.count row.now ≡ true }
    requires pair { makes_pair row.now.make ≡ true
        → (before.count ≡ 0) × (places_in row.now ≡ pair_places) }
    requires pairs { makes_pair row.now.make ≡ true
        → row_rank bounds row.now bytes.now before ≡ 9
        → is_some (command_of row.now.make (row_numbers row.now bytes.now before)) ≡ true }
    ensures { IsRowLine bounds row.now bytes.now before result }
{
    match row.make {
        Make::Small(form) => read_small_row(bytes, row, form, bounds, before),
        Make::Wide(form) => read_wide_row(bytes, row, form, bounds, before),
    }
}

#[inline(always)]
pub(crate) fn read_small_row(
    bytes: &[u8],
    row: &Row,
    form: SmallForm,
    bounds: Bounds,
    before: Said,
) -> CommandLine
    requires within { before.end ≤ length bytes.now }
    requires low { before.rank ≤ 9 }
    requires sound { is_sound before.count row.now ≡ true }
    requires makes { row.now.make ≡ Make.Small form }
    requires pair { makes_pair row.now.make ≡ true
        → (before.count ≡ 0) × (places_in row.now ≡ pair_places) }
    requires pairs { makes_pair row.now.make ≡ true
        → row_rank bounds row.now bytes.now before ≡ 9
        → is_some (command_of row.now.make (row_numbers row.now bytes.now before)) ≡ true }
    ensures { IsRowLine bounds row.now bytes.now before result }
{
    let said = read_places(bytes, row.spots, bounds, before);
    let (start, end) = next_word(bytes, said.end);
    let words = said.count - before.count;
    let rank = said
        .rank
        .min(count_rank(start, end, words, row.least, row.spots.len()))
        .min(half_rank(form, said));
    if rank != FAULTLESS {
        return refused(rank);
    }
    match small_command(form, said) {
        Some(command) => CommandLine {
            said: Ok(command),
            end,
        },
        None => refused(COUNT),
    }
}

#[inline(always)]
pub(crate) fn read_wide_row(
    bytes: &[u8],
    row: &Row,
    form: WideForm,
    bounds: Bounds,
    before: Said,
) -> CommandLine
    requires within { before.end ≤ length bytes.now }
    requires low { before.rank ≤ 9 }
    requires sound { is_sound before.count row.now ≡ true }
    requires makes { row.now.make ≡ Make.Wide form }
    ensures { IsRowLine bounds row.now bytes.now before result }
{
    let said = read_places(bytes, row.spots, bounds, before);
    let (start, end) = next_word(bytes, said.end);
    if start == end {
        return refused(said.rank.min(COUNT));
    }
    let reading = read_wide(form, &bytes[start..end]);
    let (next, last) = next_word(bytes, end);
    let rank = said.rank.min(reading.rank).min(end_rank(next, last));
    if rank != FAULTLESS {
        return refused(rank);
    }
    match wide_command(form, said, reading.value) {
        Some(command) => CommandLine {
            said: Ok(command),
            end: last,
        },
        None => refused(COUNT),
    }
}

// The rank of the number of words, where the next word would stand from `start` to `end`.
fn count_rank(start: usize, end: usize, words: usize, least: usize, most: usize) -> u32
    ensures { result ≡
        (if start == end then (if words == least || words == most then 9 else 4) else 4) }
{
    if start == end && (words == least || words == most) {
        FAULTLESS
    } else {
        COUNT
    }
}

// The same, where all words that the line should have were there before.
fn end_rank(start: usize, end: usize) -> u32
    ensures { result ≡ (if start == end then 9 else 4) }
{
    if start == end { FAULTLESS } else { COUNT }
}

pub(crate) fn refused(rank: u32) -> CommandLine
    ensures { result.said ≡ Err rank }
{
    CommandLine {
        said: Err(rank),
        end: 0,
    }
}
