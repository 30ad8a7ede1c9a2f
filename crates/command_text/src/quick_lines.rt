// The lines of the most frequent forms, each read by its row alone. One reader stands for all of them,
// and is compiled once for each: there the row is known, and reading costs as much as if the form had a
// function of its own. These lines are a part of what `read_command` reads, and only quicker.

ghost use Rattle.std.specs.Prelude.{◌≡◌, ℕ, ◌+◌, ◌^◌, ◌<◌, ◌≤◌, ◌==◌, ◌||◌, true, List, Some, Ok, length, take, drop, IfSome};
ghost use Rattle.gc_graph.specs.Forms.{row_named, rows};
ghost use Rattle.gc_graph.specs.Reasons.{Bounds as GrammarBounds, value_of};
ghost use Rattle.gc_graph.specs.Words.{is_number};
ghost use Rattle.line_words.specs.Cursor.{line_words};
ghost use Rattle.line_words.specs.QuickWords.{IsFirstWord};
ghost use Rattle.command_text.specs.QuickLines.{IsQuickLine, IsQuickStart, IsSaidFor, is_quick_row};
ghost use Rattle.command_text.specs.RowLines.{IsRowLine};
ghost use Rattle.command_text.specs.Rows.{IsLow, bounds_of, place_of_spot, row_by, wide_place_of};
ghost use Rattle.command_text.specs.Said.{IsPlaceRead, IsReadOn};

use super::forms::{Make, Row, Spot};
use super::making::small_command;
use super::places::{Bounds, Reading};
use super::reasons::FAULTLESS;
use super::rows::{COPY, DROP, GET, NEW, PUT, READ, SET, WEAK, WORD};
use super::said::{Said, nothing_said, with_word};
use super::wide::{WideForm, wide_command};
use gc_graph::Command;
use line_words::{Any, Small, begins, is_line_end, line_end, next_any, next_small};

/// The command that a line says, and the end of the line.
#[derive(Clone, Copy)]
pub struct QuickLine {
    pub command: Command,
    pub end: usize,
}

/// The line that begins at `at`, where its first word stands there and is one of these, and it has
/// no fault.
#[inline(always)]
pub fn quick_line(bytes: &[u8], at: usize, bounds: Bounds) -> Option<QuickLine>
    requires { at ≤ length bytes.now }
    ensures { IfSome result (IsQuickLine (bounds_of bounds) (line_words (drop at bytes.now))
        bytes.now at) }
{
    if begins(bytes, at, SET.name) {
        return line_of::<0>(bytes, at, &SET, bounds);
    }
    if begins(bytes, at, GET.name) {
        return line_of::<1>(bytes, at, &GET, bounds);
    }
    if begins(bytes, at, NEW.name) {
        return line_of::<2>(bytes, at, &NEW, bounds);
    }
    if begins(bytes, at, DROP.name) {
        return line_of::<3>(bytes, at, &DROP, bounds);
    }
    if begins(bytes, at, PUT.name) {
        return line_of::<4>(bytes, at, &PUT, bounds);
    }
    if begins(bytes, at, WORD.name) {
        return line_of::<5>(bytes, at, &WORD, bounds);
    }
    if begins(bytes, at, WEAK.name) {
        return line_of::<6>(bytes, at, &WEAK, bounds);
    }
    if begins(bytes, at, READ.name) {
        return line_of::<7>(bytes, at, &READ, bounds);
    }
    if begins(bytes, at, COPY.name) {
        return line_of::<8>(bytes, at, &COPY, bounds);
    }
    None
}

// The line that begins with the name of this row. `FORM` is another number at each call, so that each
// row has its own copy of the code.
#[inline(always)]
fn line_of<const FORM: usize>(
    bytes: &[u8],
    at: usize,
    row: &Row,
    bounds: Bounds,
) -> Option<QuickLine>
    requires first { IsFirstWord bytes.now at row.now.name.now }
    requires quick { is_quick_row row.now ≡ true }
    requires named { row_named row.now.name.now rows ≡ Some (row_by row.now) }
    ensures { IfSome result (IsQuickLine (bounds_of bounds) (line_words (drop at bytes.now))
        bytes.now at) }
{
    row_line::<FORM>(bytes, row, bounds, nothing_said(at + row.name.len()))
}

// The same, from the words after the first on.
#[inline]
fn row_line<const FORM: usize>(
    bytes: &[u8],
    row: &Row,
    bounds: Bounds,
    before: Said,
) -> Option<QuickLine>
    requires { IsQuickStart row.now bytes.now before }
    ensures { IfSome result (λ line. IsRowLine bounds row.now bytes.now before
        (record { said = Ok line.command; end = line.end })) }
{
    let said = quick_places(bytes, row, bounds, before)?;
    match row.make {
        Make::Small(form) => {
            let end = line_end(bytes, said.end)?;
            if !are_right(said.count, row) {
                return None;
            }
            match small_command(form, said) {
                Some(command) => Some(QuickLine { command, end }),
                None => None,
            }
        }
        Make::Wide(form) => {
            let number = wide_number(bytes, said.end, form)?;
            let end = line_end(bytes, number.end)?;
            match wide_command(form, said, number.value) {
                Some(command) => Some(QuickLine { command, end }),
                None => None,
            }
        }
    }
}

// A row may have so many words.
#[inline(always)]
fn are_right(words: usize, row: &Row) -> bool
    ensures { result ≡ (words == row.now.least || words == length row.now.spots.now) }
{
    words == row.least || words == row.spots.len()
}

// Reads the words at the places of a row, where they have no fault. There are three places at most: a
// loop would go over places that are not known when the code is compiled.
#[inline(always)]
fn quick_places(bytes: &[u8], row: &Row, bounds: Bounds, before: Said) -> Option<Said>
    requires { IsQuickStart row.now bytes.now before }
    ensures { IfSome result (λ said. (said.rank ≡ 9)
        × IsReadOn bounds row.now.spots.now bytes.now before said) }
{
    let one = quick_next(bytes, row, 0, bounds, before)?;
    let two = quick_next(bytes, row, 1, bounds, one)?;
    quick_next(bytes, row, 2, bounds, two)
}

// Reads the word at this place of a row, if there is such a place and a word.
#[inline(always)]
fn quick_next(bytes: &[u8], row: &Row, place: usize, bounds: Bounds, said: Said) -> Option<Said>
    requires within { said.end ≤ length bytes.now }
    requires rank { said.rank ≡ 9 }
    requires count { said.count ≤ place }
    requires few { place < 3 }
    ensures { IfSome result (λ new. (new.rank ≡ 9)
        × IsReadOn bounds (take 1 (drop place row.now.spots.now)) bytes.now said new) }
{
    if place >= row.spots.len() {
        return Some(said);
    }
    if place >= row.least && is_line_end(bytes, said.end) {
        return Some(said);
    }
    match small_number(bytes, said.end, row.spots[place], bounds) {
        Some(number) => {
            let reading = Reading {
                rank: FAULTLESS,
                value: number.value,
            };
            Some(with_word(said, reading, number.end))
        }
        // Spaces may stand before the line's end.
        None if place >= row.least && line_end(bytes, said.end).is_some() => Some(said),
        None => None,
    }
}

// What the next word says at its place, where it is a number.
#[inline(always)]
fn small_number(bytes: &[u8], from: usize, spot: Spot, bounds: Bounds) -> Option<Small>
    requires { from ≤ length bytes.now }
    ensures { IfSome result (λ number. IsPlaceRead (bounds_of bounds) (place_of_spot spot) bytes.now
        from number.end 9 number.value) }
{
    let range = range_of(spot, bounds)?;
    let number = next_small(bytes, from, range.limit)?;
    Some(Small {
        value: number.value + range.more,
        end: number.end,
    })
}

// Numbers from 0 on and below a limit, and how much more than the number is said.
#[derive(Clone, Copy)]
pub(crate) struct Range {
    pub(crate) limit: u32,
    pub(crate) more: u32,
}

// The numbers that may stand at a place, if there is one from 0 on.
#[inline(always)]
fn range_of(spot: Spot, bounds: Bounds) -> Option<Range>
    ensures fits { IfSome result (λ range. range.limit + range.more ≤ 2 ^ 32) }
    ensures says { IfSome result (λ range. (word : List ℕ) → is_number word ≡ true
        → value_of word < range.limit
        → IsSaidFor (bounds_of bounds) (place_of_spot spot) word (value_of word + range.more)) }
{
    match spot {
        Spot::Number(0, last) => Some(Range {
            limit: last.checked_add(1)?,
            more: 0,
        }),
        Spot::NumberOrNull(0, last) => Some(Range {
            limit: u32::from(last) + 1,
            more: 1,
        }),
        Spot::TypeNumber => Some(Range {
            limit: bounds.types,
            more: 0,
        }),
        _ => None,
    }
}

#[inline(always)]
fn wide_number(bytes: &[u8], from: usize, form: WideForm) -> Option<Any>
    requires { from ≤ length bytes.now }
    ensures number { (bounds : GrammarBounds) → IfSome result (λ number.
        IsPlaceRead bounds (wide_place_of form) bytes.now from number.end 9 number.value) }
    ensures low { IfSome result (λ number. IsLow form number.value) }
{
    match form {
        WideForm::Put => next_any(bytes, from),
        WideForm::PushPlain => next_any(bytes, from),
        WideForm::Sweep => None,
    }
}
