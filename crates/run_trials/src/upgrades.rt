// Two threads upgrade one weak slot of the region, while the owner collects.

use super::delays::Delays;
use super::lawful::{count_of, line_of, place_of};
use super::runs::{STEADY, run_of};
use super::settled::{Settled, first_unsettled};
use std::alloc::Global;
use std::sync::{Arc, Wait};
use std::thread::Threads;

/// Only the weak slot 0 of the region names the node when the two threads go. Each clears the slot that
/// it made.
const SCRIPT: &[u8] = b"oilpan 1\ntype S\nnew 0 0\nexport 0 0\nat 1 weaken 0\nthreads go\n\
threads join\nat 1 upgrade 0 1\nat 1 clear 1\nat 2 upgrade 0 2\nat 2 clear 2\ndrop 0\nthreads go\n\
gc now precise\nthreads join\ngc now precise\nsweep all\n";

/// The node is finalised once, whichever pause condemned it.
const SUMMED: Settled = Settled {
    words: "--pages 4 --page-words 256 --markers 4 --summary",
    script: SCRIPT,
    report: "summary commands 15 cycles 2 objects 0 used 0 finalised 1 full 0\n",
};

/// The lines up to the first pause. All in all a report has 31.
const BEFORE: &str = "type 0\nnode 0 at 0\nok\nqueued\ngoing 1\nreply 1 done\n\
entry 0 export 0 0 done\nentry 1 weaken 0 done\njoined 1\nqueued\nqueued\nqueued\nqueued\nok\ngoing 2\n\
pause ";

/// What the report says where the first pause kept the node, or where it condemned it: the rest of that
/// line, its entry, and the lines from the join on.
#[derive(Clone, Copy, Drop)]
struct Form {
    pause: &'static str,
    entry: &'static str,
    end: &'static str,
}

const KEPT: Form = Form {
    pause: "pause kept 1 dead 0 crew 0 traced 1 walked 0",
    entry: "entry 0 pause 0 done",
    end: "joined 2\npause kept 0 dead 1 crew 0 traced 0 walked 0\nfinalise 0\nswept to 4\n\
end objects 0 used 0 pages 0\n",
};

const CONDEMNED: Form = Form {
    pause: "pause kept 0 dead 1 crew 0 traced 0 walked 0",
    entry: "entry 0 pause 1 done",
    end: "joined 2\nfinalise 0\npause kept 0 dead 0 crew 0 traced 0 walked 0\nswept to 4\n\
end objects 0 used 0 pages 0\n",
};

/// How the entries and replies of a thread begin, and how many replies it had before.
#[derive(Clone, Copy, Drop)]
struct Upgrader {
    upgrade: &'static str,
    clear: &'static str,
    reply: &'static str,
    before: u32,
}

const FIRST: Upgrader = Upgrader {
    upgrade: "entry 1 upgrade 0 1 ",
    clear: "entry 1 clear 1 done",
    reply: "reply 1 ",
    before: 1,
};

const SECOND: Upgrader = Upgrader {
    upgrade: "entry 2 upgrade 0 2 ",
    clear: "entry 2 clear 2 done",
    reply: "reply 2 ",
    before: 0,
};

/// Whether the report is one that the script may have.
fn is_lawful(report: &str) -> bool {
    let kept = line_of(report, "pause ", 0) == KEPT.pause;
    let form = if kept { KEPT } else { CONDEMNED };
    report.starts_with(BEFORE)
        && line_of(report, "pause ", 0) == form.pause
        && report.ends_with(form.end)
        && count_of(report, "", "") == 31
        && place_of(report, "entry 0 start done") < place_of(report, form.entry)
        && place_of(report, form.entry) < place_of(report, "joined 2")
        && is_told(report, kept, form.entry, FIRST)
        && is_told(report, kept, form.entry, SECOND)
        && (!kept || is_upgraded_before(report, form.entry))
}

/// Whether a thread was told the node exactly where the pause kept it or came later, and said the same
/// in its entry. A slot that was strong at the start or at the pause keeps the node.
fn is_told(report: &str, kept: bool, pause: &str, thread: Upgrader) -> bool {
    let answer = if kept || place_of(report, thread.upgrade) < place_of(report, pause) {
        "node 0"
    } else {
        "null"
    };
    place_of(report, thread.upgrade) < place_of(report, thread.clear)
        && place_of(report, thread.clear) < place_of(report, "joined 2")
        && line_of(report, thread.upgrade, 0).ends_with(answer)
        && line_of(report, thread.reply, thread.before).ends_with(answer)
        && line_of(report, thread.reply, thread.before.saturating_add(1)).ends_with("done")
        && (kept
            || !(is_strong_at(report, "entry 0 start done", thread)
                || is_strong_at(report, pause, thread)))
}

/// Whether the slot that the thread made is strong at an entry.
fn is_strong_at(report: &str, entry: &str, thread: Upgrader) -> bool {
    place_of(report, thread.upgrade) < place_of(report, entry)
        && place_of(report, entry) < place_of(report, thread.clear)
}

/// Whether a thread has upgraded the slot before the pause.
fn is_upgraded_before(report: &str, pause: &str) -> bool {
    place_of(report, FIRST.upgrade) < place_of(report, pause)
        || place_of(report, SECOND.upgrade) < place_of(report, pause)
}

/// Whether the run of this seed has a lawful report.
fn is_right<R: Threads + Wait + Copy + Send + 'static>(rt: &R, alloc: Global, seed: u32) -> bool {
    let Ok(gate) = Delays::shared(alloc, u64::from(seed)) else {
        return false;
    };
    match run_of(
        alloc,
        "--pages 4 --page-words 256 --markers 4",
        SCRIPT,
        STEADY,
    ) {
        Ok(mut run) => is_lawful(run.report_behind(rt, alloc, &gate)),
        Err(_) => false,
    }
}

/// The first seed of 100 whose report isn't lawful.
fn first_wrong<R: Threads + Wait + Copy + Send + 'static>(rt: &R, alloc: Global) -> Option<u32> {
    for seed in 0..100 {
        if !is_right(rt, alloc, seed) {
            return Some(seed);
        }
    }
    None
}

#[test]
fn slot_upgraded_by_two_threads_on_four_markers_has_one_summary(rt: HostRuntime) {
    assert_eq!(rt; first_unsettled(&rt, rt.alloc(), &SUMMED, 200), None);
}

#[test]
fn node_that_two_threads_upgrade_beside_a_pause_is_kept_or_condemned_lawfully(rt: HostRuntime) {
    assert_eq!(rt; first_wrong(&rt, rt.alloc()), None);
}
