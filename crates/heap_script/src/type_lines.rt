// The type lines of a script.

ghost use Rattle.std.specs.Prelude.{◌≡◌, ◌⊎◌, ◌≤◌, ◌==◌, ◌&&◌, ◌||◌, not, nat_lt, nat_le, false, [], ◌∷◌, length, drop, codes, IfOk, IfErr};
ghost use Rattle.std.specs.Prelude.{Some, None};
ghost use Rattle.std.specs.List.{list_all};
ghost use Rattle.gc_graph.specs.Words.{is_number, is_text as is_same};
ghost use Rattle.gc_graph.specs.Reasons.{type_of_words};
ghost use Rattle.line_words.specs.Cursor.{line_words, IsLineEnd};
ghost use Rattle.heap_script.specs.Past.{IsReasonOf, bounds_in};
ghost use Rattle.heap_script.specs.TypeLines.{AreNumbers, IsFirstRead, AreBothRead, ended_by};
ghost use Rattle.heap_script.specs.TypeLines.{reason_of_lists, reason_of_type};
ghost use Rattle.heap_script.specs.TypeLines as spec;

use super::letters::{are_letters, field_words, kinds_of};
use super::past::Past;
use super::words::is_text;
use command_text::reasons::{BAD_NUMBER, COUNT, NO_MEMORY, RANGE, UNKNOWN_WORD};
use gc_graph::Kind;
use line_words::{next_word, number};
use std::alloc::Global;
use type_table::TypeDecl;

const MOST_LETTERS: usize = 64;

const MOST_CALLBACKS: usize = 16;

/// As many as `GCInfoTable` of cppgc numbers.
const MOST_TYPES: u32 = 16_383;

/// As many as a mask has bits.
const MOST_WORDS: u32 = 64;

/// The version whose type lines name weak callbacks.
const WITH_WEAK: u8 = 2;

/// What a type line declares, and where the line ends.
#[derive(Drop)]
pub(crate) struct TypeLine {
    pub(crate) decl: TypeDecl,
    pub(crate) end: usize,
}

/// The callbacks of a list, whether there are too many or one that isn't there, whether there is none
/// after its name, where the list ends, and whether the word `weak` ends it.
#[derive(Drop)]
pub(crate) struct Callbacks {
    numbers: Vec<u32>,
    over: bool,
    bare: bool,
    end: usize,
    weak: bool,
}

/// The prefinalizers and the weak callbacks, whether there are too many or one that isn't there, and
/// where the line ends.
#[derive(Drop)]
pub(crate) struct Lists {
    first: Vec<u32>,
    second: Vec<u32>,
    over: bool,
    end: usize,
}

/// What the line declares whose first word, `type`, ends at `from`, or the number of the reason why
/// it declares nothing. These lines stand before it.
pub(crate) fn read_type(
    alloc: Global,
    bytes: &[u8],
    from: usize,
    past: &Past,
    callbacks: u32,
) -> Result<TypeLine, u32>
    requires { from ≤ length bytes.now }
    ensures fine { IfOk result (λ _. reason_of_type past.now.version (bounds_in callbacks past.now)
        (line_words (drop from bytes.now)) ≡ None) }
    ensures decl { IfOk result (λ line.
        type_of_words (codes "type" ∷ line_words (drop from bytes.now)) ≡ Some line.decl) }
    ensures end { IfOk result (λ line. IsLineEnd bytes.now from line.end) }
    ensures fault { IfErr result (IsReasonOf (reason_of_type past.now.version
        (bounds_in callbacks past.now) (line_words (drop from bytes.now)))) }
{
    let (start, after) = next_word(bytes, from);
    if start == after {
        return Err(COUNT);
    }
    let letters = &bytes[start..after];
    if !are_letters(letters) {
        return Err(UNKNOWN_WORD);
    }
    let lists = match read_lists(alloc, bytes, after, past.version, callbacks) {
        Ok(lists) => lists,
        Err(reason) => return Err(reason),
    };
    if is_over(letters.len(), lists.over, past.types) {
        return Err(RANGE);
    }
    let kinds = match kinds_of(alloc, letters) {
        Ok(kinds) => kinds,
        Err(_) => return Err(NO_MEMORY),
    };
    if is_past_shown(&lists.second, &kinds) {
        return Err(RANGE);
    }
    Ok(TypeLine {
        decl: TypeDecl::new(kinds, lists.first, lists.second),
        end: lists.end,
    })
}

fn is_over(letters: usize, called: bool, types: u32) -> bool
    ensures { result ≡ (nat_lt 64 letters || (called || nat_le 16383 types)) }
{
    letters > MOST_LETTERS || called || types >= MOST_TYPES
}

fn is_past_shown(callbacks: &[u32], kinds: &[Kind]) -> bool
    requires { length kinds.now ≤ 64 }
    ensures { result ≡ spec.is_past_shown callbacks.now kinds.now }
{
    !callbacks.is_empty() && field_words(kinds) > MOST_WORDS
}

// The two lists that follow the letters, each of which may be missing.
fn read_lists(
    alloc: Global,
    bytes: &[u8],
    from: usize,
    version: u8,
    callbacks: u32,
) -> Result<Lists, u32>
    requires { from ≤ length bytes.now }
    ensures fine { IfOk result (λ _.
        reason_of_lists version (line_words (drop from bytes.now)) ≡ None) }
    ensures called { IfOk result (AreBothRead version callbacks bytes.now from) }
    ensures end { IfOk result (λ lists. IsLineEnd bytes.now from lists.end) }
    ensures fault { IfErr result (IsReasonOf
        (reason_of_lists version (line_words (drop from bytes.now)))) }
{
    let first = match read_first(alloc, bytes, from, version, callbacks) {
        Ok(first) => first,
        Err(reason) => return Err(reason),
    };
    if !first.weak {
        if first.bare {
            return Err(COUNT);
        }
        return Ok(Lists {
            first: first.numbers,
            second: Vec::new(alloc),
            over: first.over,
            end: first.end,
        });
    }
    let second = match read_numbers(alloc, bytes, first.end, callbacks, false) {
        Ok(second) => second,
        Err(reason) => return Err(reason),
    };
    if is_any_bare(&first, &second) {
        return Err(COUNT);
    }
    Ok(Lists {
        first: first.numbers,
        second: second.numbers,
        over: first.over || second.over,
        end: second.end,
    })
}

fn is_any_bare(first: &Callbacks, second: &Callbacks) -> bool
    ensures { result ≡ (first.now.bare || second.now.bare) }
{
    first.bare || second.bare
}

// The list that begins with `pre`.
fn read_first(
    alloc: Global,
    bytes: &[u8],
    from: usize,
    version: u8,
    callbacks: u32,
) -> Result<Callbacks, u32>
    requires { from ≤ length bytes.now }
    ensures read { IfOk result (IsFirstRead version callbacks bytes.now from) }
    ensures fault { IfErr result (IsReasonOf
        (reason_of_lists version (line_words (drop from bytes.now)))) }
{
    let (start, end) = next_word(bytes, from);
    if start == end {
        return Ok(no_callbacks(alloc, end, false));
    }
    if is_text(&bytes[start..end], b"pre") {
        return read_numbers(alloc, bytes, end, callbacks, version == WITH_WEAK);
    }
    if stops_at(version == WITH_WEAK, &bytes[start..end]) {
        return Ok(no_callbacks(alloc, end, true));
    }
    Err(UNKNOWN_WORD)
}

// No list, where the line ends or that of the weak callbacks begins.
fn no_callbacks(alloc: Global, end: usize, weak: bool) -> Callbacks
    ensures numbers { result.numbers.items ≡ [] }
    ensures over { result.over ≡ false }
    ensures bare { result.bare ≡ false }
    ensures end { result.end ≡ end }
    ensures weak { result.weak ≡ weak }
{
    Callbacks {
        numbers: Vec::new(alloc),
        over: false,
        bare: false,
        end,
        weak,
    }
}

// The numbers that stand there up to the line's end, or to the word `weak` where it stops them. Only
// as many are kept as a type can have.
#[inline(always)]
fn read_numbers(
    alloc: Global,
    bytes: &[u8],
    from: usize,
    callbacks: u32,
    stops: bool,
) -> Result<Callbacks, u32>
    requires { from ≤ length bytes.now }
    ensures read { IfOk result (AreNumbers callbacks stops bytes.now from) }
    ensures fault { IfErr result (λ reason. (reason ≡ 0) ⊎ ((reason ≡ 3)
        × (list_all is_number (ended_by stops (line_words (drop from bytes.now))) ≡ false))) }
{
    let mut numbers = Vec::new(alloc);
    let mut over = false;
    let mut at = from;
    loop {
        let (start, end) = next_word(bytes, at);
        if start == end {
            return Ok(ended(numbers, over, end, false));
        }
        match number(&bytes[start..end]) {
            Some(value) => {
                if !is_kept(value, callbacks, numbers.len()) {
                    over = true;
                } else if numbers.push(value as u32).is_err() {
                    return Err(NO_MEMORY);
                }
            }
            None if stops_at(stops, &bytes[start..end]) => {
                return Ok(ended(numbers, over, end, true));
            }
            None => return Err(BAD_NUMBER),
        }
        at = end;
    }
}

fn ended(numbers: Vec<u32>, over: bool, end: usize, weak: bool) -> Callbacks
    ensures numbers { result.numbers.items ≡ numbers.items }
    ensures over { result.over ≡ over }
    ensures bare { result.bare ≡ (length numbers.items == 0 && not over) }
    ensures end { result.end ≡ end }
    ensures weak { result.weak ≡ weak }
{
    let bare = numbers.is_empty() && !over;
    Callbacks {
        numbers,
        over,
        bare,
        end,
        weak,
    }
}

// Whether this word ends the list, where `weak` does.
fn stops_at(stops: bool, word: &[u8]) -> bool
    ensures { result ≡ (stops && is_same word.now (codes "weak")) }
{
    stops && is_text(word, b"weak")
}

// Whether a type can have this callback besides so many.
fn is_kept(value: u64, callbacks: u32, count: usize) -> bool
    ensures { result ≡ (nat_lt value callbacks && nat_lt count 16) }
{
    value < u64::from(callbacks) && count < MOST_CALLBACKS
}
