// A script that ends after each of its bytes in turn: it is run, or nothing is written.

use super::runs::{STEADY, run_of};
use script_run::Status;
use std::alloc::Global;
use std::sync::Wait;
use std::thread::Threads;

// The lines of a script whose prefinalizers act on an object that is kept. After the bar stands for each
// byte of the line which reason the line has where it ends with this byte; 0 is none.
const LINES: &str = "\
oilpan 1|11111110
type SP|2224400
type S pre 1 2|22244002244000
new 0 0|2244440
new 1 0|2244440
set 0 0 1|224444440
drop 1|222440
new 1 1|2244440
set 1 0 0|224444440
drop 1|222440
gc now precise|24422442222220
get 0 0 3|224444440
word 0 1|22244440
sweep all|222244330
gc now precise|24422442222220
sweep all|222244330
";

/// Whether the run of the script ends so, and has written something just where it is done.
fn comes_to<R: Threads + Wait + Copy + Send + 'static>(
    rt: &R,
    alloc: Global,
    script: &[u8],
    status: Status,
) -> bool {
    match run_of(alloc, "--pages 4 --page-words 256", script, STEADY) {
        Ok(mut run) => run.ends_so(rt, alloc, status)
            && run.has_written() == (status == Status::Done),
        Err(_) => false,
    }
}

/// How the run of a script ends that has this reason in this line, or none.
fn status_of(line: u32, reason: u8) -> Status {
    match reason {
        b'0' => Status::Done,
        _ => Status::Script {
            line,
            reason: u32::from(reason.saturating_sub(b'0')),
        },
    }
}

/// Whether the script comes to what the row says after each byte that it gets, and is done after the end
/// of the line.
fn is_right<R: Threads + Wait + Copy + Send + 'static>(
    rt: &R,
    alloc: Global,
    script: &mut Vec<u8>,
    line: u32,
    row: &str,
) -> bool {
    let (text, reasons) = row.split_once('|').unwrap_or(("", ""));
    for (byte, reason) in text.as_bytes().iter().zip(reasons.as_bytes()) {
        if script.push(*byte).is_err() || !comes_to(rt, alloc, script, status_of(line, *reason)) {
            return false;
        }
    }
    text.len() == reasons.len()
        && script.push(b'\n').is_ok()
        && comes_to(rt, alloc, script, Status::Done)
}

/// The first line of which something else comes.
fn first_wrong<R: Threads + Wait + Copy + Send + 'static>(rt: &R, alloc: Global) -> Option<u32> {
    let mut script = Vec::new(alloc);
    for (row, line) in LINES.lines().zip(1u32..) {
        if !is_right(rt, alloc, &mut script, line, row) {
            return Some(line);
        }
    }
    None
}

#[test]
fn script_that_ends_after_any_byte_is_run_or_nothing_is_written(rt: HostRuntime) {
    assert!(rt; comes_to(&rt, rt.alloc(), b"", status_of(1, b'1')));
    assert_eq!(rt; first_wrong(&rt, rt.alloc()), None);
}
