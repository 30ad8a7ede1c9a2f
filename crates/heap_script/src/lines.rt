// Lines of a script: where one ends, where the next begins, and how many there are.

ghost use Rattle.std.specs.Prelude.{◌≡◌, ◌⊎◌, ◌<◌, ◌≤◌, true, false, length, drop, Some, slice_get};
ghost use Rattle.std.specs.Prelude.{MatchOption};
ghost use Rattle.gc_graph.specs.Script.{is_header};
ghost use Rattle.gc_graph.specs.Words.{lines_of};
ghost use Rattle.line_words.specs.Cursor.{first_line, lines_after, IsLineEnd};
ghost use Rattle.heap_script.specs.Headers.{IsHeader, version_by_name};

use super::words::is_text;
use line_words::next_word;

/// The version that the first line names, and where it ends.
#[derive(Clone, Copy, Drop)]
pub(crate) struct Header {
    pub(crate) version: u8,
    pub(crate) end: usize,
}

/// Where the line after the one that ends there begins.
pub(crate) fn next_line(bytes: &[u8], end: usize) -> usize
    requires within { end ≤ length bytes.now }
    requires stop { (end ≡ length bytes.now) ⊎ (slice_get bytes.now end ≡ Some 10) }
    ensures lines { lines_of (drop result bytes.now) ≡ lines_after (drop end bytes.now) }
    ensures order { end ≤ result }
    ensures within { result ≤ length bytes.now }
    ensures later { end < length bytes.now → end < result }
{
    if end < bytes.len() { end + 1 } else { end }
}

/// The header, if the first line is one.
pub(crate) fn header_of(bytes: &[u8]) -> Option<Header>
    ensures { MatchOption result (is_header (first_line bytes.now) ≡ false)
        (λ header. IsHeader bytes.now header) }
{
    let (name, after) = next_word(bytes, 0);
    if !is_text(&bytes[name..after], b"oilpan") {
        return None;
    }
    let (start, end) = next_word(bytes, after);
    let version = version_named(&bytes[start..end]);
    if version == 0 {
        return None;
    }
    let (more, end) = next_word(bytes, end);
    if more < end {
        None
    } else {
        Some(Header { version, end })
    }
}

// The version with this name, or 0.
fn version_named(word: &[u8]) -> u8
    ensures { result ≡ version_by_name word.now }
{
    if is_text(word, b"1") {
        1
    } else if is_text(word, b"2") {
        2
    } else {
        0
    }
}

/// How many lines begin at `from` or later.
pub(crate) fn count_from(bytes: &[u8], from: usize) -> usize
    requires { from ≤ length bytes.now }
    ensures count { result ≡ length (lines_of (drop from bytes.now)) }
    ensures few { result ≤ length bytes.now }
{
    let mut count = 0;
    let mut at = from;
    while at < bytes.len() {
        at = next_line(bytes, line_end(bytes, at));
        count += 1;
    }
    count
}

fn line_end(bytes: &[u8], from: usize) -> usize
    requires { from ≤ length bytes.now }
    ensures { IsLineEnd bytes.now from result }
{
    let mut at = from;
    loop {
        let (start, end) = next_word(bytes, at);
        if start == end {
            return end;
        }
        at = end;
    }
}
