// Reports of more than one piece, on devices that fail at a call or have no more room, also while
// markers are at work.

use super::rows::number_at;
use super::runs::{Case, Devices, comes_out};
use script_run::Status;
use std::alloc::{AllocError, Global};
use std::sync::Wait;
use std::thread::Threads;

// How many bytes go a call; which call fails, or 0; the sink's room; how many bytes are written: no
// more after a failed write.
//
// 30,000 lines of three bytes and the last of 29. With 21,760 lines a piece has room for 256 bytes,
// so it takes one more, and goes out with 65,283 bytes.
const THREES: &str = "\
1000000 1 1000000 0
1000000 2 1000000 65283
1000000 3 1000000 90029
50000 1 1000000 0
50000 2 1000000 50000
50000 3 1000000 65283
50000 4 1000000 90029
1000 66 1000000 65000
1000 67 1000000 65283
1000 91 1000000 89283
1000 92 1000000 90029
1000000 0 65282 0
1000000 0 65283 65283
1000000 0 90028 65283
1000000 0 90029 90029
1000 0 70000 69283
";

// The first line has 13 bytes. With 21,756 lines of three after it a piece has room for 255.
const THIRTEEN_FIRST: &str = "\
1000000 1 1000000 0
1000000 2 1000000 65281
1000000 3 1000000 75042
";

// The first six lines have 45 bytes. After 21,746 of three the first piece goes out with 65,283 bytes,
// while the markers are at work. The last one has 9,791.
const MARKED: &str = "\
1000000 1 1000000 0
1000000 2 1000000 65283
1000000 3 1000000 75074
1000000 0 65282 0
1000000 0 75073 65283
1000 1 1000000 0
1000 66 1000000 65000
1000 67 1000000 65283
1000 76 1000000 74283
1000 77 1000000 75074
1 1 1000000 0
1 2 1000000 1
1 65283 1000000 65282
1 65284 1000000 65283
1 75074 1000000 75073
";

// A script of 1,000,000 lines.
const WHOLE: &str = "\
1000000 0 4000000 3000026
";

/// The words of a run; the header and its first lines with their answers, and then so many commands with
/// an answer of three bytes; the end line.
#[derive(Clone, Copy, Drop)]
struct Long {
    words: &'static str,
    start: &'static [u8],
    answer: &'static [u8],
    count: u32,
    end: &'static [u8],
}

const ALL_THREES: Long = Long {
    words: "",
    start: b"oilpan 1\ndrop 0\n",
    answer: b"ok\n",
    count: 29_999,
    end: b"end objects 0 used 0 pages 0\n",
};

const ONE_THIRTEEN: Long = Long {
    start: b"oilpan 1\nset 0 0 0\n",
    answer: b"refused null\n",
    count: 25_000,
    ..ALL_THREES
};

const MOST_LINES: Long = Long {
    count: 999_998,
    ..ALL_THREES
};

const BESIDE_MARKERS: Long = Long {
    words: "--pages 4 --page-words 256 --markers 4",
    start: b"oilpan 1\ntype S\nnew 0 0\nnew 1 0\nset 0 0 1\ndrop 1\ngc start\n",
    answer: b"type 0\nnode 0 at 0\nnode 1 at 3\nok\nok\nstarted\n",
    count: 25_000,
    end: b"end objects 2 used 6 pages 1\n",
};

fn add_lines(text: &mut Vec<u8>, start: &[u8], line: &[u8], count: u32) -> Result<(), AllocError> {
    text.extend_from_slice(start)?;
    for _turn in 0..count {
        text.extend_from_slice(line)?;
    }
    Ok(())
}

fn add_both(script: &mut Vec<u8>, report: &mut Vec<u8>, long: &Long) -> Result<(), AllocError> {
    add_lines(script, long.start, b"drop 0\n", long.count)?;
    add_lines(report, long.answer, b"ok\n", long.count)?;
    report.extend_from_slice(long.end)
}

/// The number of the first row of which something else comes, counted from 1; 0 where memory is
/// wanting.
fn first_wrong<R: Threads + Wait + Copy + Send + 'static>(
    rt: &R,
    alloc: Global,
    long: &Long,
    rows: &str,
) -> Option<u32> {
    let mut script = Vec::new(alloc);
    let mut report = Vec::new(alloc);
    if add_both(&mut script, &mut report, long).is_err() {
        return Some(0);
    }
    let case = Case {
        words: long.words,
        script: &script,
        report: &report,
    };
    first_wrong_row(rt, alloc, case, rows)
}

fn first_wrong_row<R: Threads + Wait + Copy + Send + 'static>(
    rt: &R,
    alloc: Global,
    case: Case<'_>,
    rows: &str,
) -> Option<u32> {
    for (row, number) in rows.lines().zip(1u32..) {
        if !is_right(rt, alloc, case, row) {
            return Some(number);
        }
    }
    None
}

fn is_right<R: Threads + Wait + Copy + Send + 'static>(
    rt: &R,
    alloc: Global,
    case: Case<'_>,
    row: &str,
) -> bool {
    let devices = Devices {
        most: (number_at(row, 0) as usize).max(1),
        bad_read: 0,
        bad_write: number_at(row, 1),
        room: number_at(row, 2) as usize,
    };
    let written = number_at(row, 3) as usize;
    let status = if written == case.report.len() {
        Status::Done
    } else {
        Status::WriteFault
    };
    comes_out(rt, alloc, case, devices, status, written)
}

#[test]
fn long_report_goes_out_in_pieces_of_whole_lines(rt: HostRuntime) {
    assert_eq!(rt; first_wrong(&rt, rt.alloc(), &ALL_THREES, THREES), None);
    assert_eq!(rt;
        first_wrong(&rt, rt.alloc(), &ONE_THIRTEEN, THIRTEEN_FIRST),
        None
    );
}

#[test]
fn report_of_a_million_lines_goes_out_whole(rt: HostRuntime) {
    assert_eq!(rt; first_wrong(&rt, rt.alloc(), &MOST_LINES, WHOLE), None);
}

#[test]
fn nothing_more_is_written_after_a_write_that_fails_beside_markers(rt: HostRuntime) {
    assert_eq!(rt; first_wrong(&rt, rt.alloc(), &BESIDE_MARKERS, MARKED), None);
}
