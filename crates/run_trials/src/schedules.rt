// Runs beside 1 to 8 markers, whom a gate holds for drawn times, as it holds the owner.

use super::delays::Delays;
use super::lawful::{Trial, is_lawful};
use super::runs::{STEADY, run_of};
use super::settled::{Settled, first_unsettled};
use std::alloc::Global;
use std::sync::{Arc, Wait};
use std::thread;
use std::thread::Threads;

/// So many runs of each script, with 1 to 8 markers in turn.
const RUNS: u32 = 200;

/// The words of the runs in turn.
pub(crate) const WORDS: &str = "\
--pages 4 --page-words 256 --markers 1
--pages 4 --page-words 256 --markers 2
--pages 4 --page-words 256 --markers 3
--pages 4 --page-words 256 --markers 4
--pages 4 --page-words 256 --markers 5
--pages 4 --page-words 256 --markers 6
--pages 4 --page-words 256 --markers 7
--pages 4 --page-words 256 --markers 8
";

/// Node 0 has 1, and 1 has 2. Beside the markers 0 gets the new node 4 too, and loses 1. Nothing has
/// node 3.
const CUT: Trial = Trial {
    script: "oilpan 1\ntype SS\nnew 0 0\nnew 1 0\nset 0 0 1\nnew 2 0\nset 1 0 2\ndrop 1\n\
new 2 0\ndrop 2\n\
gc start\nnew 1 0\nset 0 1 1\ndrop 1\ngc step 2\nset 0 0 -\n\
gc finish precise\nget 0 1 1\ndrop 1\nsweep all\ngc now precise\nsweep all\n",
    objects: 5,
    least: 2,
    garbage: 1,
    left: 2,
    reads: "walked 0\nnode 4\nok\nfinalise ",
    end: "swept to 4\nend objects 2 used 8 pages 1\n",
};

/// Nodes 0 and 1 are named by slots; 1 has 2, 2 has 3, 3 has 4. Beside the markers the owner takes the
/// chain apart from its head: 0 gets 2, 1 gets 3, 0 gets 4, each before its holder loses it; and last
/// 0 loses 2, which a write has marked. Nothing has node 5.
const MOVED: Trial = Trial {
    script: "oilpan 1\ntype SS\nnew 0 0\nnew 1 0\nnew 2 0\nnew 3 0\nnew 4 0\nnew 5 0\nset 1 0 2\n\
set 2 0 3\nset 3 0 4\ndrop 2\ndrop 3\ndrop 4\ndrop 5\n\
gc start\nget 1 0 6\nset 0 0 6\nset 1 0 -\nget 6 0 7\nset 1 1 7\nset 6 0 -\ngc step 1\nget 7 0 8\n\
set 0 1 8\nset 7 0 -\ndrop 6\ndrop 7\ndrop 8\nset 0 0 -\n\
gc finish precise\nget 1 1 7\nget 0 1 8\ndrop 7\ndrop 8\nsweep all\ngc now precise\nsweep all\n",
    objects: 6,
    least: 5,
    garbage: 1,
    left: 4,
    reads: "walked 0\nnode 3\nnode 4\nok\nok\nfinalise 5\n",
    end: "finalise 2\nswept to 4\nend objects 4 used 16 pages 1\n",
};

/// Node 0 has four branches of two nodes each: 1 and 2, 3 and 4, 5 and 6, 7 and 8. Beside the markers
/// it loses the first two, and the third takes the place of the last. Nothing has node 9.
const BRANCHES: Trial = Trial {
    script: "oilpan 1\ntype SSSS\nnew 0 0\nnew 1 0\nset 0 0 1\nnew 2 0\nset 1 0 2\nnew 1 0\n\
set 0 1 1\nnew 2 0\nset 1 0 2\nnew 1 0\nset 0 2 1\nnew 2 0\nset 1 0 2\nnew 1 0\nset 0 3 1\n\
new 2 0\nset 1 0 2\nnew 2 0\ndrop 1\ndrop 2\n\
gc start\nset 0 0 -\ngc step 1\nset 0 1 -\nget 0 2 1\ngc step 2\nset 0 2 -\nset 0 3 1\ndrop 1\n\
gc finish precise\nget 0 3 1\nget 1 0 2\ndrop 1\ndrop 2\nsweep all\ngc now precise\nsweep all\n",
    objects: 10,
    least: 3,
    garbage: 1,
    left: 3,
    reads: "walked 0\nnode 5\nnode 6\nok\nok\nfinalise ",
    end: "swept to 4\nend objects 3 used 18 pages 1\n",
};

/// Node 0 has a pair with 1 as its key and 2 as its value, which has 3; 1 has a pair of 2 and 4. Beside
/// the markers nothing but the pair has 1 any more, and then the pair becomes one of 0 and a new node,
/// 6. Nothing has node 5.
const PAIRED: Trial = Trial {
    script: "oilpan 1\ntype E\ntype S\nnew 0 0\nnew 1 0\nnew 2 1\nnew 3 1\nset 2 0 3\n\
pair 0 0 1 2\nnew 4 1\npair 1 0 2 4\ndrop 2\ndrop 3\ndrop 4\nnew 5 1\ndrop 5\n\
gc start\ndrop 1\nnew 6 1\npair 0 0 0 6\ndrop 6\ngc step 1\n\
gc finish precise\nkey 0 0 7\nval 0 0 8\ndrop 7\ndrop 8\nsweep all\ngc now precise\nsweep all\n",
    objects: 7,
    least: 2,
    garbage: 1,
    left: 2,
    reads: "walked 0\nnode 0\nnode 6\nok\nok\nfinalise ",
    end: "swept to 4\nend objects 2 used 7 pages 2\n",
};

/// Node 0 names 1 weakly, and 1 has 2. Weak slots name 1, 3 and 4, which nothing else has. Beside the
/// markers 1 and 4 are read; 0 gets 1, and the new node 5 in its place, which names 0 weakly.
const WEAK: Trial = Trial {
    script: "oilpan 1\ntype SW\nnew 0 0\nnew 1 0\nset 0 1 1\nnew 2 0\nset 1 0 2\nweak 0 1\n\
new 3 0\nweak 1 3\nnew 4 0\nweak 2 4\ndrop 1\ndrop 2\ndrop 3\ndrop 4\n\
gc start\nread 0 1\nread 2 4\ndrop 4\nset 0 0 1\ndrop 1\ngc step 1\nnew 5 0\nset 5 1 0\n\
set 0 0 5\ndrop 5\n\
gc finish precise\nget 0 1 7\nread 1 8\ndrop 7\nsweep all\ngc now precise\nget 0 1 7\nsweep all\n",
    objects: 6,
    least: 4,
    garbage: 1,
    left: 2,
    reads: "walked 0\nnode 1\nnull\nok\nfinalise 3\n",
    end: "swept to 4\nend objects 2 used 8 pages 1\n",
};

/// The script ends while markers are at work.
const UNFINISHED: Settled = Settled {
    words: "--pages 4 --page-words 256 --markers 4",
    script: b"oilpan 1\ntype S\nnew 0 0\nnew 1 0\nset 0 0 1\ngc start\ndrop 1\n",
    report: "type 0\nnode 0 at 0\nnode 1 at 3\nok\nstarted\nok\nend objects 2 used 6 pages 1\n",
};

/// Whether the run of this seed is done, and its report is lawful.
fn is_right<R: Threads + Wait + Copy + Send + 'static>(
    rt: &R,
    alloc: Global,
    words: &str,
    seed: u32,
    trial: &Trial,
) -> bool {
    match Delays::shared(alloc, u64::from(seed)) {
        Ok(gate) => is_lawful_behind(rt, alloc, words, trial, &gate),
        Err(_) => false,
    }
}

fn is_lawful_behind<R: Threads + Wait + Copy + Send + 'static>(
    rt: &R,
    alloc: Global,
    words: &str,
    trial: &Trial,
    gate: &Arc<Delays>,
) -> bool {
    match run_of(alloc, words, trial.script.as_bytes(), STEADY) {
        Ok(mut run) => is_lawful(trial, run.report_behind(rt, alloc, gate)),
        Err(_) => false,
    }
}

/// The words of the run of this seed.
fn words_at(seed: u32) -> &'static str {
    WORDS.lines().nth((seed % 8) as usize).unwrap_or("")
}

/// The first seed whose run isn't as it has to be.
fn first_wrong<R: Threads + Wait + Copy + Send + 'static>(
    rt: &R,
    alloc: Global,
    trial: &Trial,
) -> Option<u32> {
    for seed in 0..RUNS {
        if !is_right(rt, alloc, words_at(seed), seed, trial) {
            return Some(seed);
        }
    }
    None
}

#[test]
fn lost_branch_may_be_kept_and_a_new_node_is(rt: HostRuntime) {
    assert_eq!(rt; first_wrong(&rt, rt.alloc(), &CUT), None);
}

#[test]
fn moved_nodes_are_kept(rt: HostRuntime) {
    assert_eq!(rt; first_wrong(&rt, rt.alloc(), &MOVED), None);
}

#[test]
fn branch_in_another_place_is_kept(rt: HostRuntime) {
    assert_eq!(rt; first_wrong(&rt, rt.alloc(), &BRANCHES), None);
}

#[test]
fn pair_written_beside_markers_keeps_its_value(rt: HostRuntime) {
    assert_eq!(rt; first_wrong(&rt, rt.alloc(), &PAIRED), None);
}

#[test]
fn weak_handles_read_beside_markers_are_lawful(rt: HostRuntime) {
    assert_eq!(rt; first_wrong(&rt, rt.alloc(), &WEAK), None);
}

/// The first seed of which two runs at once, on threads of their own and with two markers each, aren't
/// both as they have to be.
fn first_wrong_of_two<R: Threads + Wait + Copy + Send + Sync + 'static>(
    rt: &R,
    alloc: Global,
) -> Option<u32> {
    let words = words_at(1);
    for seed in 0..RUNS {
        let (one, other) = thread::join(
            rt,
            || is_right(rt, alloc, words, seed, &BRANCHES),
            || is_right(rt, alloc, words, seed, &PAIRED),
        );
        if !(one && other) {
            return Some(seed);
        }
    }
    None
}

#[test]
fn two_heaps_have_markers_at_once(rt: HostRuntime) {
    assert_eq!(rt; first_wrong_of_two(&rt, rt.alloc()), None);
}

#[test]
fn script_ends_while_markers_are_at_work(rt: HostRuntime) {
    assert_eq!(rt; first_unsettled(&rt, rt.alloc(), &UNFINISHED, RUNS), None);
}
