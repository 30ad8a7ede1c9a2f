// The text of what threads did to the region, and of what they were answered.

ghost use Rattle.std.specs.Prelude.{◌≡◌, ◌+◌, ◌≤◌, ◌++◌, length, codes, decimal};
ghost use Rattle.gc_graph.specs.Report.{entry_text, op_text, reply_text, seen_text};

use super::text::{TextBuffer, add_named, add_wide};
use gc_graph::{Entry, Op, Reply};

pub(crate) fn add_reply<B: TextBuffer>(text: &mut B, j: u32, reply: Reply)
    requires { 200 ≤ B.room text.old }
    ensures items { B.held text.new
        ≡ B.held text.old ++ (codes "reply " ++ decimal j ++ codes " " ++ reply_text reply) }
    ensures room { B.room text.old ≤ B.room text.new + 200 }
{
    add_named(text, b"reply ", j);
    text.add(b" ");
    add_answer(text, reply);
}

/// The totals that a thread has seen.
pub(crate) fn add_seen<B: TextBuffer>(text: &mut B, j: u32, o: u64, n: u64, u: u64, f: u64)
    requires { 200 ≤ B.room text.old }
    ensures items { B.held text.new
        ≡ B.held text.old
        ++ (codes "reply " ++ decimal j ++ codes " totals " ++ seen_text o n u f) }
    ensures room { B.room text.old ≤ B.room text.new + 200 }
{
    add_named(text, b"reply ", j);
    add_wide(text, b" totals ", o);
    add_wide(text, b" ", n);
    add_wide(text, b" ", u);
    add_wide(text, b" ", f);
}

pub(crate) fn add_entry<B: TextBuffer>(text: &mut B, entry: Entry)
    requires { 200 ≤ B.room text.old }
    ensures items { B.held text.new ≡ B.held text.old ++ entry_text entry }
    ensures room { B.room text.old ≤ B.room text.new + 200 }
{
    add_named(text, b"entry ", entry.thread);
    text.add(b" ");
    add_op(text, entry.op);
    text.add(b" ");
    add_answer(text, entry.reply);
}

fn add_op<B: TextBuffer>(text: &mut B, op: Op)
    requires { 40 ≤ B.room text.old }
    ensures items { B.held text.new ≡ B.held text.old ++ op_text op }
    ensures room { B.room text.old ≤ B.room text.new + 40 }
{
    match op {
        Op::Export { slot, node } => add_both(text, b"export ", slot, node),
        Op::Import { slot } => add_named(text, b"import ", slot),
        Op::Start => text.add(b"start"),
        Op::Pause { cleared } => add_named(text, b"pause ", cleared),
        Op::Copy { from, into } => add_both(text, b"copy ", from, into),
        Op::Clear { slot } => add_named(text, b"clear ", slot),
        Op::Weaken { slot } => add_named(text, b"weaken ", slot),
        Op::Upgrade { from, into } => add_both(text, b"upgrade ", from, into),
    }
}

fn add_both<B: TextBuffer>(text: &mut B, name: &[u8], one: u32, other: u32)
    requires room { 40 ≤ B.room text.old }
    requires short { length name.now ≤ 10 }
    ensures items { B.held text.new
        ≡ B.held text.old ++ (name.now ++ decimal one ++ codes " " ++ decimal other) }
    ensures room { B.room text.old ≤ B.room text.new + 40 }
{
    add_named(text, name, one);
    add_named(text, b" ", other);
}

fn add_answer<B: TextBuffer>(text: &mut B, reply: Reply)
    requires { 20 ≤ B.room text.old }
    ensures items { B.held text.new ≡ B.held text.old ++ reply_text reply }
    ensures room { B.room text.old ≤ B.room text.new + 20 }
{
    match reply {
        Reply::Done => text.add(b"done"),
        Reply::Node(k) => add_named(text, b"node ", k),
        Reply::Null => text.add(b"null"),
        Reply::NoMemory => text.add(b"memory"),
    }
}
