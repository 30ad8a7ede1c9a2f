// What the threads of a script were answered, and what they entered, beside lines of text.

use cross_thread_region::HeldHistory;
use gc_graph::{Entry, Line, Op, Reply};
use thread_queues::ThreadQueues;

/// Whether the replies are those of the lines. A line has a thread and its reply, or the totals that
/// it was told.
pub(crate) fn are_told(queues: &ThreadQueues, wanted: &str) -> bool {
    let mut lines = wanted.lines();
    for i in 0..queues.reply_count() {
        match lines.next() {
            Some(line) if is_told(queues.reply(i), line) => {}
            _ => return false,
        }
    }
    lines.next().is_none()
}

fn is_told(told: Line, line: &str) -> bool {
    match told {
        Line::Reply { j, reply } => is_number(line, 0, u64::from(j)) && is_reply(reply, line, 1),
        Line::ReplyTotals { j, o, n, u, f } => {
            is_number(line, 0, u64::from(j))
                && word_at(line, 1) == "totals"
                && is_number(line, 2, o)
                && is_number(line, 3, n)
                && is_number(line, 4, u)
                && is_number(line, 5, f)
        }
        _ => false,
    }
}

/// Whether the reply stands at this place of the line.
fn is_reply(reply: Reply, line: &str, place: usize) -> bool {
    match reply {
        Reply::Done => word_at(line, place) == "done",
        Reply::Node(node) => {
            word_at(line, place) == "node"
                && is_number(line, place.saturating_add(1), u64::from(node))
        }
        Reply::Null => word_at(line, place) == "null",
        Reply::NoMemory => false,
    }
}

/// Whether the thread's entries are those of the lines, in their order. A line has a call with its slots,
/// and its reply.
pub(crate) fn has_entered(held: &HeldHistory, thread: u32, wanted: &str) -> bool {
    let mut lines = wanted.lines();
    for i in 0..held.len() {
        let entry = held.entry(i);
        if entry.thread != thread {
            continue;
        }
        match lines.next() {
            Some(line) if is_entry(entry, line) => {}
            _ => return false,
        }
    }
    lines.next().is_none()
}

fn is_entry(entry: Entry, line: &str) -> bool {
    match entry.op {
        Op::Copy { from, into } => is_call(line, "copy", from, into)
            && is_reply(entry.reply, line, 3),
        Op::Upgrade { from, into } => {
            is_call(line, "upgrade", from, into) && is_reply(entry.reply, line, 3)
        }
        Op::Clear { slot } => {
            word_at(line, 0) == "clear"
                && is_number(line, 1, u64::from(slot))
                && is_reply(entry.reply, line, 2)
        }
        Op::Weaken { slot } => {
            word_at(line, 0) == "weaken"
                && is_number(line, 1, u64::from(slot))
                && is_reply(entry.reply, line, 2)
        }
        _ => false,
    }
}

fn is_call(line: &str, name: &str, from: u32, into: u32) -> bool {
    word_at(line, 0) == name
        && is_number(line, 1, u64::from(from))
        && is_number(line, 2, u64::from(into))
}

fn word_at(line: &str, place: usize) -> &str {
    line.split(' ').nth(place).unwrap_or("")
}

/// Whether this number stands at this place of the line.
fn is_number(line: &str, place: usize, number: u64) -> bool {
    word_at(line, place).parse::<u64>() == Ok(number)
}
