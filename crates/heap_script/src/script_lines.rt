// One line of a script after the header: a type or a command.

ghost use Rattle.std.specs.Prelude.{◌≡◌, ◌<◌, ◌≤◌, ◌-◌, ◌∷◌, false, take, drop, codes, length, IfOk, IfErr};
ghost use Rattle.gc_graph.specs.Words.{is_text as is_same};
ghost use Rattle.line_words.specs.Cursor.{IsLineEnd, line_words, words_from};
ghost use Rattle.heap_script.specs.Past.{reason_after, IsReasonOf, IsPlain, IsTypeKept, IsCommandKept};
ghost use Rattle.heap_script.specs.Past.{IsCommandAdded, IsLineKept, IsLineRead, AreFaultyWords};

use super::past::Past;
use super::type_lines::read_type;
use super::words::is_text;
use command_text::reasons::{NO_MEMORY, ORDER, SECTION};
use command_text::{Bounds, QuickLine, quick_line, read_command};
use gc_graph::Command;
use line_words::next_word;
use std::alloc::Global;
use type_table::TypeDecl;

/// What the lines that were read say.
#[derive(Drop)]
pub(crate) struct Kept {
    pub(crate) past: Past,
    pub(crate) types: Vec<TypeDecl>,
    pub(crate) commands: Vec<Command>,
}

/// Keeps what the line says that begins at `at`, and tells where it ends, or the number of the reason
/// why it says nothing.
#[inline(always)]
pub(crate) fn keep_line(
    alloc: Global,
    bytes: &[u8],
    at: usize,
    callbacks: u32,
    kept: &mut Kept,
) -> Result<usize, u32>
    requires within { at ≤ length bytes.now }
    requires lines { kept.old.past.lines < 1000000 }
    ensures kept { IfOk result (λ _.
        IsLineRead callbacks (line_words (drop at bytes.now)) kept.old kept.new) }
    ensures end { IfOk result (λ end. IsLineEnd bytes.now at end) }
    ensures fault { IfErr result
        (AreFaultyWords callbacks kept.old.past (line_words (drop at bytes.now))) }
    ensures same { IfErr result (λ _. kept.new.past ≡ kept.old.past) }
{
    let bounds = Bounds {
        types: kept.past.types,
        callbacks,
    };
    if let Some(line) = quick_line(bytes, at, bounds) {
        return keep_quick(line, kept);
    }
    let (start, end) = next_word(bytes, at);
    if start == end {
        kept.past.add_blank();
        return Ok(end);
    }
    keep_words(alloc, bytes, start, end, callbacks, kept)
}

// Keeps a command that no thread's order is.
#[inline(always)]
fn keep_quick(line: QuickLine, kept: &mut Kept) -> Result<usize, u32>
    requires plain { IsPlain line.command }
    requires lines { kept.old.past.lines < 1000000 }
    ensures kept { IfOk result (λ _. IsCommandAdded line.command kept.old kept.new) }
    ensures end { IfOk result (λ end. end ≡ line.end) }
    ensures memory { IfErr result (λ reason. reason ≡ 0) }
    ensures same { IfErr result (λ _. kept.new.past ≡ kept.old.past) }
{
    if kept.commands.push(line.command).is_err() {
        return Err(NO_MEMORY);
    }
    kept.past.add_plain(&line.command);
    Ok(line.end)
}

// Keeps what the line says whose first word stands from `start` to `end`.
fn keep_words(
    alloc: Global,
    bytes: &[u8],
    start: usize,
    end: usize,
    callbacks: u32,
    kept: &mut Kept,
) -> Result<usize, u32>
    requires word { start < end }
    requires within { end ≤ length bytes.now }
    requires lines { kept.old.past.lines < 1000000 }
    ensures kept { IfOk result (λ _.
        IsLineKept (words_from bytes.now start end) kept.old kept.new) }
    ensures end { IfOk result (λ line_end. IsLineEnd bytes.now end line_end) }
    ensures fine { IfOk result (λ _.
        reason_after callbacks kept.old.past (words_from bytes.now start end) ≡ None) }
    ensures fault { IfErr result (IsReasonOf
        (reason_after callbacks kept.old.past (words_from bytes.now start end))) }
    ensures same { IfErr result (λ _. kept.new.past ≡ kept.old.past) }
{
    if is_text(&bytes[start..end], b"type") {
        keep_type(alloc, bytes, end, callbacks, kept)
    } else {
        keep_command(bytes, start, end, callbacks, kept)
    }
}

fn keep_type(
    alloc: Global,
    bytes: &[u8],
    from: usize,
    callbacks: u32,
    kept: &mut Kept,
) -> Result<usize, u32>
    requires within { from ≤ length bytes.now }
    requires lines { kept.old.past.lines < 1000000 }
    ensures kept { IfOk result (λ _.
        IsTypeKept (codes "type" ∷ line_words (drop from bytes.now)) kept.old kept.new) }
    ensures end { IfOk result (λ end. IsLineEnd bytes.now from end) }
    ensures fine { IfOk result (λ _. reason_after callbacks kept.old.past
        (codes "type" ∷ line_words (drop from bytes.now)) ≡ None) }
    ensures fault { IfErr result (IsReasonOf (reason_after callbacks kept.old.past
        (codes "type" ∷ line_words (drop from bytes.now)))) }
    ensures same { IfErr result (λ _. kept.new.past ≡ kept.old.past) }
{
    match read_type(alloc, bytes, from, &kept.past, callbacks) {
        Ok(line) => {
            if !kept.past.bare {
                return Err(ORDER);
            }
            if kept.types.push(line.decl).is_err() {
                return Err(NO_MEMORY);
            }
            kept.past.add_type();
            Ok(line.end)
        }
        Err(reason) => Err(reason),
    }
}

fn keep_command(
    bytes: &[u8],
    start: usize,
    end: usize,
    callbacks: u32,
    kept: &mut Kept,
) -> Result<usize, u32>
    requires word { start < end }
    requires within { end ≤ length bytes.now }
    requires plain { is_same (take (end - start) (drop start bytes.now)) (codes "type") ≡ false }
    requires lines { kept.old.past.lines < 1000000 }
    ensures kept { IfOk result (λ _.
        IsCommandKept (words_from bytes.now start end) kept.old kept.new) }
    ensures end { IfOk result (λ line_end. IsLineEnd bytes.now end line_end) }
    ensures fine { IfOk result (λ _.
        reason_after callbacks kept.old.past (words_from bytes.now start end) ≡ None) }
    ensures fault { IfErr result (IsReasonOf
        (reason_after callbacks kept.old.past (words_from bytes.now start end))) }
    ensures same { IfErr result (λ _. kept.new.past ≡ kept.old.past) }
{
    let bounds = Bounds {
        types: kept.past.types,
        callbacks,
    };
    let line = read_command(bytes, start, end, bounds);
    match line.said {
        Ok(command) => {
            if kept.past.breaks(&command) {
                return Err(SECTION);
            }
            if kept.commands.push(command).is_err() {
                return Err(NO_MEMORY);
            }
            kept.past.add_command(&command);
            Ok(line.end)
        }
        Err(reason) => Err(reason),
    }
}
