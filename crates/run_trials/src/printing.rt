// The text of each line of a report, by hand from the report's forms.

use super::held_text::{Printer, printer_with};
use gc_graph::{Entry, Line, Op, Refusal, Reply};
use heap_script::{ListSink, print_line};
use std::alloc::Global;

const TEXTS: &str = "\
type 0
node 1 at 4294967295
full
memory
refused phase
refused null
refused field
refused kind
refused stack
refused empty
ok
node 7
null
word 18446744073709551615
started
step traced 5 done
step traced 6 more
weakcall 4294967295 5
prefinalise 3 4
finalise 12
swept to 90
queued
going 2
joined 8
pause kept 1 dead 2 crew 0 traced 3 walked 1
pause kept 9 dead 0 crew 4 traced 5 walked 0
objects 4 used 5 pages 6
end objects 4 used 5 pages 6
reply 8 totals 1 2 3 18446744073709551615
summary commands 1 cycles 2 objects 3 used 4 finalised 5 full 18446744073709551615
reply 1 done
reply 2 node 10
reply 3 null
reply 8 memory
entry 0 export 31 7 done
entry 0 import 5 node 7
entry 0 start done
entry 0 pause 3 done
entry 1 copy 2 3 done
entry 2 clear 4 done
entry 3 weaken 6 done
entry 8 upgrade 8 9 null
";

/// The line whose text has this place among the texts.
fn line_at(place: u32) -> Line {
    match place {
        0..=23 => answer_at(place),
        24..=29 => totals_at(place),
        _ => threads_line_at(place),
    }
}

fn answer_at(place: u32) -> Line {
    match place {
        0 => Line::TypeLine { t: 0 },
        1 => Line::Placed { k: 1, a: u32::MAX },
        2 => Line::Full,
        3 => Line::Memory,
        4 => Line::Refused(Refusal::Phase),
        5 => Line::Refused(Refusal::Null),
        6 => Line::Refused(Refusal::Field),
        7 => Line::Refused(Refusal::Kind),
        8 => Line::Refused(Refusal::Stack),
        9 => Line::Refused(Refusal::Empty),
        10 => Line::Fine,
        11 => Line::Node { k: 7 },
        12 => Line::Null,
        13 => Line::Word { n: u64::MAX },
        14 => Line::Started,
        15 => Line::Step { t: 5, done: true },
        16 => Line::Step { t: 6, done: false },
        17 => Line::WeakCall { k: u32::MAX, d: 5 },
        18 => Line::Prefinalise { k: 3, c: 4 },
        19 => Line::Finalise { k: 12 },
        20 => Line::Swept { c: 90 },
        21 => Line::Queued,
        22 => Line::Going { m: 2 },
        _ => Line::Joined { m: 8 },
    }
}

fn totals_at(place: u32) -> Line {
    match place {
        24 => pause(1, 2, 0, 3, true),
        25 => pause(9, 0, 4, 5, false),
        26 => Line::Objects { n: 4, u: 5, g: 6 },
        27 => Line::End { n: 4, u: 5, g: 6 },
        28 => Line::ReplyTotals {
            j: 8,
            o: 1,
            n: 2,
            u: 3,
            f: u64::MAX,
        },
        _ => Line::Summary {
            c: 1,
            y: 2,
            n: 3,
            u: 4,
            f: 5,
            full: u64::MAX,
        },
    }
}

fn threads_line_at(place: u32) -> Line {
    match place {
        30 => reply(1, Reply::Done),
        31 => reply(2, Reply::Node(10)),
        32 => reply(3, Reply::Null),
        33 => reply(8, Reply::NoMemory),
        34 => entry(0, Op::Export { slot: 31, node: 7 }, Reply::Done),
        35 => entry(0, Op::Import { slot: 5 }, Reply::Node(7)),
        36 => entry(0, Op::Start, Reply::Done),
        37 => entry(0, Op::Pause { cleared: 3 }, Reply::Done),
        38 => entry(1, Op::Copy { from: 2, into: 3 }, Reply::Done),
        39 => entry(2, Op::Clear { slot: 4 }, Reply::Done),
        40 => entry(3, Op::Weaken { slot: 6 }, Reply::Done),
        _ => entry(8, Op::Upgrade { from: 8, into: 9 }, Reply::Null),
    }
}

fn pause(kept: u32, dead: u32, crew: u32, traced: u32, walked: bool) -> Line {
    Line::Pause {
        kept,
        dead,
        crew,
        traced,
        walked,
    }
}

fn reply(j: u32, reply: Reply) -> Line {
    Line::Reply { j, reply }
}

fn entry(thread: u32, op: Op, reply: Reply) -> Line {
    Line::Entry(Entry { thread, op, reply })
}

impl Printer {
    /// Whether the line comes out as wanted, with its end, where it is held back and where it is
    /// written at once.
    fn prints(&mut self, line: &Line, wanted: &str) -> bool {
        let start = self.sink.bytes().len();
        self.pieces.print(line, &mut self.sink).is_ok()
            && self.sink.bytes().len() == start
            && self.pieces.hand_down(&mut self.sink).is_ok()
            && has_taken(&self.sink, start, wanted)
            && is_written(line, &mut self.sink, wanted)
    }

    /// The place of the first line that comes out otherwise.
    fn first_wrong(&mut self) -> Option<u32> {
        for (wanted, place) in TEXTS.lines().zip(0u32..) {
            if !self.prints(&line_at(place), wanted) {
                return Some(place);
            }
        }
        None
    }
}

fn is_written(line: &Line, sink: &mut ListSink, wanted: &str) -> bool {
    let start = sink.bytes().len();
    print_line(line, sink).is_ok() && has_taken(sink, start, wanted)
}

/// Whether after so many bytes the sink has taken this line and its end.
fn has_taken(sink: &ListSink, start: usize, wanted: &str) -> bool {
    let taken = sink.bytes().get(start..).unwrap_or(b"");
    taken.strip_suffix(b"\n") == Some(wanted.as_bytes())
}

fn first_wrong(alloc: Global) -> Option<u32> {
    match printer_with(alloc, 5, 0, 4000) {
        Ok(mut printer) => printer.first_wrong(),
        Err(_) => Some(u32::MAX),
    }
}

#[test]
fn report_lines_are_printed(rt: HostRuntime) {
    assert_eq!(rt; first_wrong(rt.alloc()), None);
}
