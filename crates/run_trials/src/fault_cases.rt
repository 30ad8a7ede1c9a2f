// A table of scripts, each with its first fault.

use heap_script::{ScriptFault, number_below, read_script};
use std::alloc::{AllocError, Global};

/// The number of the first case whose script has another fault, counted from 1. A case is a line of
/// the table: what follows `before` in the script, a bar, and the line and the reason of the first
/// fault, or `none`. Where more bars stand before that one, they part the beginning, what stands
/// after it over and over, how often, and the rest. A slash is the end of a line.
pub(crate) fn first_wrong(alloc: Global, before: &str, table: &str) -> Option<u32> {
    for (case, number) in table.lines().zip(1u32..) {
        if !is_right(alloc, before, case) {
            return Some(number);
        }
    }
    None
}

fn is_right(alloc: Global, before: &str, case: &str) -> bool {
    let mut script = Vec::new(alloc);
    match case.rsplit_once('|') {
        Some((parts, wanted)) => {
            add_script(&mut script, before, parts).is_ok() && has_fault(alloc, &script, wanted)
        }
        None => false,
    }
}

fn add_script(script: &mut Vec<u8>, before: &str, parts: &str) -> Result<(), AllocError> {
    let mut parts = parts.split('|');
    add_lines(script, before)?;
    add_lines(script, parts.next().unwrap_or(""))?;
    let piece = parts.next().unwrap_or("");
    let count = parts.next().unwrap_or("").as_bytes();
    for _turn in 0..number_below(16_777_216, count).unwrap_or(0) {
        add_lines(script, piece)?;
    }
    add_lines(script, parts.next().unwrap_or(""))
}

/// Adds a text in which a slash is the end of a line.
pub(crate) fn add_lines(script: &mut Vec<u8>, text: &str) -> Result<(), AllocError> {
    for byte in text.as_bytes() {
        script.push(if *byte == b'/' { b'\n' } else { *byte })?;
    }
    Ok(())
}

/// Whether the script has this line and reason as its first fault, or `none`.
pub(crate) fn has_fault(alloc: Global, script: &[u8], wanted: &str) -> bool {
    match read_script(alloc, script, 1) {
        Ok(_script) => wanted == "none",
        Err(fault) => is_fault(&fault, wanted),
    }
}

fn is_fault(fault: &ScriptFault, wanted: &str) -> bool {
    match wanted.split_once(' ') {
        Some((line, reason)) => {
            number_below(u32::MAX, line.as_bytes()) == Some(fault.line)
                && number_below(10, reason.as_bytes()) == Some(fault.reason)
        }
        None => false,
    }
}
