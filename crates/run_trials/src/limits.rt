// Input at the limits, and one past them: 16,777,216 bytes and 1,000,000 lines.

use super::rows::{number_at, status_at};
use super::runs::{Case, STEADY, comes_out};
use std::alloc::{AllocError, Global};
use std::sync::Wait;
use std::thread::Threads;

// A byte; how often it stands after the header; the exit status; how many bytes are written.
const PADDED: &str = "\
32 16777207 0 29
32 16777208 2 0
10 999999 0 29
10 1000000 2 0
";

// The header and so many bytes more.
fn add_padded(script: &mut Vec<u8>, byte: u8, more: u32) -> Result<(), AllocError> {
    script.extend_from_slice(b"oilpan 1\n")?;
    for _turn in 0..more {
        script.push(byte)?;
    }
    Ok(())
}

fn is_right<R: Threads + Wait + Copy + Send + 'static>(rt: &R, alloc: Global, row: &str) -> bool {
    let byte = if number_at(row, 0) == 10 { b'\n' } else { b' ' };
    let mut script = Vec::new(alloc);
    add_padded(&mut script, byte, number_at(row, 1)).is_ok() && ends_so(rt, alloc, &script, row)
}

fn ends_so<R: Threads + Wait + Copy + Send + 'static>(
    rt: &R,
    alloc: Global,
    script: &[u8],
    row: &str,
) -> bool {
    let case = Case {
        words: "",
        script,
        report: b"end objects 0 used 0 pages 0\n",
    };
    let written = number_at(row, 3) as usize;
    comes_out(rt, alloc, case, STEADY, status_at(row, 2), written)
}

/// The number of the first row of which something else comes, counted from 1.
fn first_wrong<R: Threads + Wait + Copy + Send + 'static>(
    rt: &R,
    alloc: Global,
    rows: &str,
) -> Option<u32> {
    for (row, number) in rows.lines().zip(1u32..) {
        if !is_right(rt, alloc, row) {
            return Some(number);
        }
    }
    None
}

#[test]
fn input_up_to_the_limits_is_read(rt: HostRuntime) {
    assert_eq!(rt; first_wrong(&rt, rt.alloc(), PADDED), None);
}
