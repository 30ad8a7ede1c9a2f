// What standard error is told, and the exit status.

use heap_script::number_below;
use script_run::{Status, end};
use std::alloc::Global;

// The exit status, and what standard error is told, where a slash is the end of a line.
const ENDINGS: &str = "\
0|
2|cppgc_main: too long/
2|cppgc_main: script line 3 reason 7/
3|cppgc_main: read fault/
4|cppgc_main: write fault/
5|cppgc_main: no memory/
6|cppgc_main: usage/
";

/// The status whose ending has this place among them.
fn status_at(place: u32) -> Status {
    match place {
        0 => Status::Done,
        1 => Status::TooLong,
        2 => Status::Script { line: 3, reason: 7 },
        3 => Status::ReadFault,
        4 => Status::WriteFault,
        5 => Status::NoMemory,
        _ => Status::Usage,
    }
}

fn is_right(alloc: Global, status: Status, exit_status: &str, message: &str) -> bool {
    let mut errors = Vec::new(alloc);
    is_told(&mut errors, status, exit_status) && is_text(&errors, message)
}

fn is_told(errors: &mut Vec<u8>, status: Status, exit_status: &str) -> bool {
    let ending = end(status, errors);
    ending.told.is_ok()
        && number_below(256, exit_status.as_bytes()) == Some(u32::from(ending.exit_status))
}

fn is_text(bytes: &[u8], wanted: &str) -> bool {
    match wanted.strip_suffix('/') {
        Some(line) => bytes.strip_suffix(b"\n") == Some(line.as_bytes()),
        None => bytes == wanted.as_bytes(),
    }
}

/// The place of the first ending that is another.
fn first_wrong(alloc: Global) -> Option<u32> {
    for (row, place) in ENDINGS.lines().zip(0u32..) {
        let (exit_status, message) = row.split_once('|').unwrap_or(("", ""));
        if !is_right(alloc, status_at(place), exit_status, message) {
            return Some(place);
        }
    }
    None
}

#[test]
fn endings_have_their_messages(rt: HostRuntime) {
    assert_eq!(rt; first_wrong(rt.alloc()), None);
}
