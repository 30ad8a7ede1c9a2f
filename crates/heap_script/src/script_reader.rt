// The lines of a script, one after the other.

ghost use Rattle.std.specs.Prelude.{◌≡◌, ◌+◌, ◌<◌, ◌≤◌, ◌∷◌, true, length, drop, nat_lt};
ghost use Rattle.std.specs.Prelude.{IfOk, IfErr};
ghost use Rattle.gc_graph.specs.Script.{is_header, version_of};
ghost use Rattle.gc_graph.specs.Words.{lines_of};
ghost use Rattle.line_words.specs.Cursor.{first_line};
ghost use Rattle.heap_script.specs.Reading.{IsWholeScript, fault_with};
ghost use Rattle.heap_script.specs.Scripts.{IsFaultOf};

use super::lines::{count_from, header_of, next_line};
use super::past::Past;
use super::script::ScriptFault;
use super::script_lines::{Kept, keep_line};
use command_text::reasons::{HEADER, NO_MEMORY, SECTION, TOO_LONG};
use std::alloc::Global;

const MOST_BYTES: usize = 16_777_216;

const MOST_LINES: u32 = 1_000_000;

pub(crate) fn read_lines(alloc: Global, bytes: &[u8], callbacks: u32) -> Result<Kept, ScriptFault>
    ensures whole { IfOk result (IsWholeScript callbacks bytes.now) }
    ensures fault { IfErr result (IsFaultOf callbacks bytes.now) }
{
    if bytes.len() > MOST_BYTES {
        return Err(too_long());
    }
    match header_of(bytes) {
        Some(header) => read_after(
            alloc,
            bytes,
            next_line(bytes, header.end),
            header.version,
            callbacks,
        ),
        None => Err(fault_at(bytes, 0, 0, HEADER)),
    }
}

// Reads the lines after the header, which names this version. They begin at `from`.
fn read_after(
    alloc: Global,
    bytes: &[u8],
    from: usize,
    version: u8,
    callbacks: u32,
) -> Result<Kept, ScriptFault>
    requires few { length bytes.now ≤ 16777216 }
    requires within { from ≤ length bytes.now }
    requires header { is_header (first_line bytes.now) ≡ true }
    requires version { version_of (first_line bytes.now) ≡ version }
    requires lines { lines_of bytes.now ≡ first_line bytes.now ∷ lines_of (drop from bytes.now) }
    ensures whole { IfOk result (IsWholeScript callbacks bytes.now) }
    ensures fault { IfErr result (IsFaultOf callbacks bytes.now) }
{
    let mut kept = Kept {
        past: Past::new(version),
        types: Vec::new(alloc),
        commands: Vec::new(alloc),
    };
    let mut at = from;
    while at < bytes.len() {
        if kept.past.lines == MOST_LINES {
            return Err(too_long());
        }
        match keep_line(alloc, bytes, at, callbacks, &mut kept) {
            Ok(end) => at = next_line(bytes, end),
            Err(reason) => return Err(fault_at(bytes, at, kept.past.lines, reason)),
        }
    }
    if kept.past.is_at_rest() {
        return Ok(kept);
    }
    Err(ScriptFault {
        line: kept.past.last,
        reason: SECTION,
    })
}

// The fault of the line that begins there, once the lines are known not to be too many.
fn fault_at(bytes: &[u8], at: usize, lines: u32, reason: u32) -> ScriptFault
    requires within { at ≤ length bytes.now }
    requires few { length bytes.now ≤ 16777216 }
    requires lines { lines < 1000000 }
    ensures { result ≡ fault_with (lines + length (lines_of (drop at bytes.now))) lines reason }
{
    if reason != NO_MEMORY && is_too_many(lines as usize + count_from(bytes, at)) {
        return too_long();
    }
    ScriptFault {
        line: lines + 1,
        reason,
    }
}

fn is_too_many(lines: usize) -> bool
    ensures { result ≡ nat_lt 1000000 lines }
{
    lines > MOST_LINES as usize
}

fn too_long() -> ScriptFault
    ensures { result ≡ record { line = 0; reason = 8 } }
{
    ScriptFault {
        line: 0,
        reason: TOO_LONG,
    }
}
