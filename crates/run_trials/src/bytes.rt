// Each of the 256 bytes in a script: a space alone parts words, and the byte 10 alone ends a line.

use super::fault_cases::{add_lines, has_fault};
use std::alloc::{AllocError, Global};

// What stands before the byte, and what after it, where a slash is the end of a line; the first fault
// where the byte is the end of a line, and the one where it is no space either. A space makes none.
const AROUND: &str = "\
oilpan|1/|1 1|1 1
oilpan 1|/|none|1 1
oilpan 1/drop|0/|2 4|2 2
oilpan 1/drop 0|/|none|2 3
";

fn add_around(script: &mut Vec<u8>, before: &str, byte: u8, after: &str) -> Result<(), AllocError> {
    add_lines(script, before)?;
    script.push(byte)?;
    add_lines(script, after)
}

/// Whether the script of the row has with this byte the fault that it has to.
fn is_right(alloc: Global, row: &str, byte: u8) -> bool {
    let mut parts = row.split('|');
    let before = parts.next().unwrap_or("");
    let after = parts.next().unwrap_or("");
    let at_end = parts.next().unwrap_or("");
    let wanted = match byte {
        b' ' => "none",
        b'\n' => at_end,
        _ => parts.next().unwrap_or(""),
    };
    let mut script = Vec::new(alloc);
    add_around(&mut script, before, byte, after).is_ok() && has_fault(alloc, &script, wanted)
}

/// The first byte with which the script of the row has another fault.
fn first_wrong_byte(alloc: Global, row: &str) -> Option<u8> {
    for byte in 0..=255u8 {
        if !is_right(alloc, row, byte) {
            return Some(byte);
        }
    }
    None
}

/// The first row that has such a byte, counted from 1.
fn first_wrong(alloc: Global) -> Option<u32> {
    for (row, number) in AROUND.lines().zip(1u32..) {
        if first_wrong_byte(alloc, row).is_some() {
            return Some(number);
        }
    }
    None
}

#[test]
fn each_byte_but_a_space_and_the_end_of_a_line_belongs_to_a_word(rt: HostRuntime) {
    assert_eq!(rt; first_wrong(rt.alloc()), None);
}
