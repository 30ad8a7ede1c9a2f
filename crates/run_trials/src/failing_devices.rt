// Devices that fail at each call in turn, and sinks whose room ends at each byte.

ghost use Rattle.std.specs.Prelude.{◌≤◌};

use super::runs::{Case, Devices, PLAIN, STEADY, comes_out};
use script_run::Status;
use std::alloc::Global;
use std::sync::Wait;
use std::thread::Threads;

/// A prefinalizer acts on an object that is kept: a script of 159 bytes with its report of 271.
const ACTING: Case<'_> = Case {
    words: "--pages 4 --page-words 256",
    script: b"oilpan 1\ntype SP\ntype S pre 1 2\nnew 0 0\nnew 1 0\nset 0 0 1\ndrop 1\nnew 1 1\n\
set 1 0 0\ndrop 1\ngc now precise\nget 0 0 3\nword 0 1\nsweep all\ngc now precise\nsweep all\n",
    report: b"type 0\ntype 1\nnode 0 at 0\nnode 1 at 4\nok\nok\nnode 2 at 256\nok\nok\n\
pause kept 2 dead 1 crew 0 traced 2 walked 0\nprefinalise 2 2\nprefinalise 2 1\nnull\nword 1\n\
finalise 2\nswept to 4\npause kept 1 dead 1 crew 0 traced 1 walked 0\nfinalise 1\nswept to 4\n\
end objects 1 used 4 pages 1\n",
};

/// The same on a heap with four markers, which `gc now` doesn't start.
const ON_FOUR_MARKERS: Case<'_> = Case {
    words: "--pages 4 --page-words 256 --markers 4",
    ..ACTING
};

/// The script's summary, of 64 bytes.
const SUMMED: Case<'_> = Case {
    words: "--summary",
    report: b"summary commands 4 cycles 1 objects 0 used 0 finalised 1 full 0\n",
    ..PLAIN
};

/// The first of so many calls of the source after whose failure something else comes than a read
/// fault with nothing written.
fn first_wrong_read<R: Threads + Wait + Copy + Send + 'static>(
    rt: &R,
    alloc: Global,
    case: Case<'_>,
    most: usize,
    calls: u32,
) -> Option<u32>
    requires { 1 ≤ most }
{
    for bad_read in 1..=calls {
        let devices = Devices {
            most,
            bad_read,
            ..STEADY
        };
        if !comes_out(rt, alloc, case, devices, Status::ReadFault, 0) {
            return Some(bad_read);
        }
    }
    None
}

#[test]
fn failed_read_is_answered_and_nothing_is_written(rt: HostRuntime) {
    let wrong = first_wrong_read(&rt, rt.alloc(), PLAIN, 1, 57)
        .or(first_wrong_read(&rt, rt.alloc(), PLAIN, 1_000_000, 2))
        .or(first_wrong_read(&rt, rt.alloc(), ACTING, 8, 21))
        .or(first_wrong_read(&rt, rt.alloc(), ON_FOUR_MARKERS, 8, 21));
    assert_eq!(rt; wrong, None);
}

/// The first of so many calls of the sink after whose failure something else comes than a write
/// fault with all that the calls before wrote.
fn first_wrong_write<R: Threads + Wait + Copy + Send + 'static>(
    rt: &R,
    alloc: Global,
    case: Case<'_>,
    most: usize,
    calls: u32,
) -> Option<u32>
    requires { 1 ≤ most }
{
    let mut written = 0usize;
    for bad_write in 1..=calls {
        let devices = Devices {
            most,
            bad_write,
            ..STEADY
        };
        if !comes_out(rt, alloc, case, devices, Status::WriteFault, written) {
            return Some(bad_write);
        }
        written = written.saturating_add(most);
    }
    None
}

/// Whether there is no second write of a report that goes out whole.
fn goes_out_whole<R: Threads + Wait + Copy + Send + 'static>(rt: &R, alloc: Global) -> bool {
    let devices = Devices {
        bad_write: 2,
        ..STEADY
    };
    comes_out(rt, alloc, PLAIN, devices, Status::Done, 119)
}

// By sevens the first report takes 17 writes, and by ones the other takes 271. No call has the number 0,
// so a report that doesn't go out whole counts as one.
#[test]
fn failed_write_leaves_what_was_written_before(rt: HostRuntime) {
    let wrong = first_wrong_write(&rt, rt.alloc(), PLAIN, 7, 17)
        .or(first_wrong_write(&rt, rt.alloc(), PLAIN, 1_000_000, 1))
        .or(first_wrong_write(&rt, rt.alloc(), ACTING, 1, 271))
        .or(first_wrong_write(&rt, rt.alloc(), ON_FOUR_MARKERS, 1, 271))
        .or(if goes_out_whole(&rt, rt.alloc()) {
            None
        } else {
            Some(0)
        });
    assert_eq!(rt; wrong, None);
}

/// Whether the case ends so on a sink with so much room, which takes a byte a call, and fills it.
fn fills<R: Threads + Wait + Copy + Send + 'static>(
    rt: &R,
    alloc: Global,
    case: Case<'_>,
    status: Status,
    room: usize,
) -> bool {
    let devices = Devices {
        most: 1,
        room,
        ..STEADY
    };
    comes_out(rt, alloc, case, devices, status, room)
}

/// The first room below that of the whole report of which something else comes than a write fault
/// after as many bytes.
fn first_wrong_room<R: Threads + Wait + Copy + Send + 'static>(
    rt: &R,
    alloc: Global,
    case: Case<'_>,
) -> Option<usize> {
    for room in 0..case.report.len() {
        if !fills(rt, alloc, case, Status::WriteFault, room) {
            return Some(room);
        }
    }
    None
}

#[test]
fn room_that_ends_is_a_failed_write(rt: HostRuntime) {
    assert_eq!(rt; first_wrong_room(&rt, rt.alloc(), PLAIN), None);
}

#[test]
fn summary_stops_where_the_room_ends(rt: HostRuntime) {
    let wrong = first_wrong_room(&rt, rt.alloc(), SUMMED);
    assert!(rt; wrong.is_none() && fills(&rt, rt.alloc(), SUMMED, Status::Done, 64));
}
