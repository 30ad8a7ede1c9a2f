// The text of each line of a report.

ghost use Rattle.std.specs.Prelude.{◌≡◌, ◌+◌, ◌≤◌, ◌++◌, length, codes, decimal};
ghost use Rattle.gc_graph.specs.Report as spec;
ghost use Rattle.gc_graph.specs.Report.{line_text, line_bytes, refusal_text, done_text};
ghost use Rattle.gc_graph.specs.Report.{pause_text, totals_text, summary_text};

use super::region_text::{add_entry, add_reply, add_seen};
use super::text::{TextBuffer, add_named, add_wide};
use gc_graph::{Line, Refusal};

/// A line with its end, which has fewer than 256 bytes.
#[inline(always)]
pub(crate) fn add_whole_line<B: TextBuffer>(text: &mut B, line: &Line)
    requires { 256 ≤ B.room text.old }
    ensures items { B.held text.new ≡ B.held text.old ++ line_bytes line.now }
    ensures room { B.room text.old ≤ B.room text.new + 256 }
{
    match *line {
        Line::Fine => text.add(b"ok\n"),
        _ => {
            add_quickly(text, line);
            text.add(b"\n");
        }
    }
}

// The most frequent lines, without a call.
#[inline(always)]
fn add_quickly<B: TextBuffer>(text: &mut B, line: &Line)
    requires { 200 ≤ B.room text.old }
    ensures items { B.held text.new ≡ B.held text.old ++ line_text line.now }
    ensures room { B.room text.old ≤ B.room text.new + 200 }
{
    match *line {
        Line::Placed { k, a } => add_placed(text, k, a),
        Line::Finalise { k } => add_named(text, b"finalise ", k),
        _ => add_line(text, line),
    }
}

#[inline(never)]
fn add_line<B: TextBuffer>(text: &mut B, line: &Line)
    requires { 200 ≤ B.room text.old }
    ensures items { B.held text.new ≡ B.held text.old ++ line_text line.now }
    ensures room { B.room text.old ≤ B.room text.new + 200 }
{
    match *line {
        Line::TypeLine { t } => add_named(text, b"type ", t),
        Line::Placed { k, a } => add_placed(text, k, a),
        Line::Full => text.add(b"full"),
        Line::Memory => text.add(b"memory"),
        Line::Refused(why) => add_refusal(text, why),
        Line::Fine => text.add(b"ok"),
        Line::Node { k } => add_named(text, b"node ", k),
        Line::Null => text.add(b"null"),
        Line::Word { n } => add_wide(text, b"word ", n),
        Line::Started => text.add(b"started"),
        Line::Step { t, done } => add_step(text, t, done),
        Line::Pause {
            kept,
            dead,
            crew,
            traced,
            walked,
        } => add_pause(text, kept, dead, crew, traced, walked),
        Line::WeakCall { k, d } => add_run(text, b"weakcall ", k, d),
        Line::Prefinalise { k, c } => add_run(text, b"prefinalise ", k, c),
        Line::Finalise { k } => add_named(text, b"finalise ", k),
        Line::Swept { c } => add_named(text, b"swept to ", c),
        Line::Objects { n, u, g } => add_totals(text, b"", n, u, g),
        Line::Queued => text.add(b"queued"),
        Line::Going { m } => add_named(text, b"going ", m),
        Line::Reply { j, reply } => add_reply(text, j, reply),
        Line::ReplyTotals { j, o, n, u, f } => add_seen(text, j, o, n, u, f),
        Line::Entry(entry) => add_entry(text, entry),
        Line::Joined { m } => add_named(text, b"joined ", m),
        Line::End { n, u, g } => add_totals(text, b"end ", n, u, g),
        Line::Summary {
            c,
            y,
            n,
            u,
            f,
            full,
        } => add_summary(text, c, y, n, u, f, full),
    }
}

#[inline(always)]
fn add_placed<B: TextBuffer>(text: &mut B, k: u32, a: u32)
    requires { 200 ≤ B.room text.old }
    ensures items { B.held text.new ≡ B.held text.old ++ line_text (Line.Placed k a) }
    ensures room { B.room text.old ≤ B.room text.new + 200 }
{
    add_named(text, b"node ", k);
    add_named(text, b" at ", a);
}

fn add_refusal<B: TextBuffer>(text: &mut B, why: Refusal)
    requires { 200 ≤ B.room text.old }
    ensures items { B.held text.new ≡ B.held text.old ++ (codes "refused " ++ refusal_text why) }
    ensures room { B.room text.old ≤ B.room text.new + 200 }
{
    text.add(b"refused ");
    match why {
        Refusal::Phase => text.add(b"phase"),
        Refusal::Null => text.add(b"null"),
        Refusal::Field => text.add(b"field"),
        Refusal::Kind => text.add(b"kind"),
        Refusal::Stack => text.add(b"stack"),
        Refusal::Empty => text.add(b"empty"),
    }
}

fn add_step<B: TextBuffer>(text: &mut B, t: u32, done: bool)
    requires { 200 ≤ B.room text.old }
    ensures items { B.held text.new ≡ B.held text.old ++ line_text (Line.Step t done) }
    ensures room { B.room text.old ≤ B.room text.new + 200 }
{
    add_named(text, b"step traced ", t);
    text.add(b" ");
    text.add(word_of(done));
}

fn word_of(done: bool) -> &'static [u8]
    ensures value { result.now ≡ done_text done }
    ensures short { length result.now ≤ 4 }
{
    if done {
        b"done".as_slice()
    } else {
        b"more".as_slice()
    }
}

fn add_pause<B: TextBuffer>(
    text: &mut B,
    kept: u32,
    dead: u32,
    crew: u32,
    traced: u32,
    walked: bool,
)
    requires { 200 ≤ B.room text.old }
    ensures items { B.held text.new ≡ B.held text.old ++ pause_text kept dead crew traced walked }
    ensures room { B.room text.old ≤ B.room text.new + 200 }
{
    add_named(text, b"pause kept ", kept);
    add_named(text, b" dead ", dead);
    add_named(text, b" crew ", crew);
    add_named(text, b" traced ", traced);
    text.add(b" walked ");
    text.add(digit_of(walked));
}

fn digit_of(walked: bool) -> &'static [u8]
    ensures value { result.now ≡ spec.digit_of walked }
    ensures short { length result.now ≤ 1 }
{
    if walked {
        b"1".as_slice()
    } else {
        b"0".as_slice()
    }
}

// A callback that was run for a node.
fn add_run<B: TextBuffer>(text: &mut B, name: &[u8], k: u32, callback: u32)
    requires room { 200 ≤ B.room text.old }
    requires short { length name.now ≤ 12 }
    ensures items { B.held text.new ≡ B.held text.old
        ++ (name.now ++ (decimal k ++ (codes " " ++ decimal callback))) }
    ensures room { B.room text.old ≤ B.room text.new + 200 }
{
    add_named(text, name, k);
    add_named(text, b" ", callback);
}

fn add_totals<B: TextBuffer>(text: &mut B, name: &[u8], n: u32, u: u32, g: u32)
    requires room { 200 ≤ B.room text.old }
    requires short { length name.now ≤ 10 }
    ensures items { B.held text.new ≡ B.held text.old ++ (name.now ++ totals_text n u g) }
    ensures room { B.room text.old ≤ B.room text.new + 200 }
{
    text.add(name);
    add_named(text, b"objects ", n);
    add_named(text, b" used ", u);
    add_named(text, b" pages ", g);
}

fn add_summary<B: TextBuffer>(text: &mut B, c: u64, y: u64, n: u64, u: u64, f: u64, full: u64)
    requires { 200 ≤ B.room text.old }
    ensures items { B.held text.new ≡ B.held text.old ++ summary_text c y n u f full }
    ensures room { B.room text.old ≤ B.room text.new + 200 }
{
    add_wide(text, b"summary commands ", c);
    add_wide(text, b" cycles ", y);
    add_wide(text, b" objects ", n);
    add_wide(text, b" used ", u);
    add_wide(text, b" finalised ", f);
    add_wide(text, b" full ", full);
}
