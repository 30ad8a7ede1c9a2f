// Totals that are published while the threads of a script are away.

ghost use Rattle.std.specs.Prelude.{◌≡◌, ◌≤◌, ◌<◌, ◌+◌, IfOk};
ghost use Rattle.std.specs.Arc.{arc_value};
ghost use Rattle.region_trials.specs.ScriptRounds.{AreHere, AreAway};

use crate::published_totals::totals_at;
use crate::script_gates::Barrier;
use crate::script_replies::are_told;
use crate::script_stage::Stage;
use gc_graph::{Line, NoMemory, Order};
use std::alloc::Global;
use std::sync::{Arc, Wait};
use std::thread::Threads;
use thread_gate::FreeGate;
use thread_queues::{ThreadQueues, Totals};

const THREADS: u32 = 8;

/// Each thread asks for the totals so often in a round.
const EACH: u32 = 200;

/// So often totals are published while threads are away, with ordinals one after the other.
const TIMES: u64 = 300;

/// A hold lets go after so many turns, and the test fails.
const TURNS: u32 = 1 << 24;

fn queue_totals(stage: &mut Stage, thread: u32) -> Result<(), NoMemory>
    requires here { AreHere (arc_value stage.old.region) stage.old.pass stage.old.queues }
    requires above { 1 ≤ thread }
    requires below { thread ≤ 8 }
    ensures here { AreHere (arc_value stage.new.region) stage.new.pass stage.new.queues }
    ensures last { stage.new.queues.last ≡ stage.old.queues.last }
{
    for _ in 0..EACH {
        stage.queue(thread, Order::Totals)?;
    }
    Ok(())
}

fn queue_for_all(stage: &mut Stage) -> Result<(), NoMemory>
    requires here { AreHere (arc_value stage.old.region) stage.old.pass stage.old.queues }
    ensures here { AreHere (arc_value stage.new.region) stage.new.pass stage.new.queues }
    ensures last { stage.new.queues.last ≡ stage.old.queues.last }
{
    for i in 0..THREADS {
        queue_totals(stage, i + 1)?;
    }
    Ok(())
}

/// Totals are published with the ordinals behind this one.
fn publish_often<R: Wait>(rt: &R, stage: &mut Stage, behind: u64)
    requires away { AreAway (arc_value stage.old.region) stage.old.pass stage.old.queues }
    requires last { stage.old.queues.last.ordinal ≤ behind }
    requires few { behind ≤ 100_000 }
    ensures away { AreAway (arc_value stage.new.region) stage.new.pass stage.new.queues }
    ensures last { stage.new.queues.last.ordinal ≤ behind + 300 }
{
    for i in 0..TIMES {
        stage.publish(rt, totals_at(behind + i + 1));
    }
}

/// Whether each thread was told as many totals as it asked for, which were published together, none of
/// them before these ordinals or after them, and none older than the ones before.
fn are_in_order(queues: &ThreadQueues, first: u64, last: u64) -> bool {
    let mut least = first;
    for i in 0..queues.reply_count() {
        let Line::ReplyTotals { j, o, n, u, f } = queues.reply(i) else {
            return false;
        };
        if i % EACH == 0 {
            least = first;
        }
        let told = Totals {
            ordinal: o,
            objects: n,
            used: u,
            finalised: f,
        };
        if j != (i / EACH).wrapping_add(1) || o < least || o > last || told != totals_at(o) {
            return false;
        }
        least = o;
    }
    queues.reply_count() == THREADS * EACH
}

/// A round in which all threads ask for totals, from those behind this ordinal on.
fn round<R: Threads + Wait + Copy + Send + 'static>(
    rt: &R,
    stage: &mut Stage,
    gate: &Arc<FreeGate>,
    behind: u64,
) -> Result<bool, NoMemory>
    requires here { AreHere (arc_value stage.old.region) stage.old.pass stage.old.queues }
    requires last { stage.old.queues.last.ordinal ≤ behind }
    requires few { behind ≤ 10_000 }
    ensures here { AreHere (arc_value stage.new.region) stage.new.pass stage.new.queues }
    ensures last { stage.new.queues.last.ordinal ≤ behind + 302 }
{
    stage.queues.publish(rt, totals_at(behind + 1));
    stage.queues.publish(rt, totals_at(behind + 2));
    queue_for_all(stage)?;
    stage.go(rt, gate);
    publish_often(rt, stage, behind + 2);
    stage.join(rt);
    Ok(are_in_order(&stage.queues, behind + 2, behind + 2 + TIMES))
}

/// Two rounds, each with totals that are published before it and in it.
fn rounds<R: Threads + Wait + Copy + Send + 'static>(
    rt: &R,
    alloc: Global,
) -> Result<bool, NoMemory> {
    let gate = Arc::new(alloc, FreeGate)?;
    let mut stage = Stage::new(rt, alloc)?;
    let early = round(rt, &mut stage, &gate, 0)?;
    let late = round(rt, &mut stage, &gate, 302)?;
    Ok(early && late)
}

#[test]
fn totals_are_those_from_the_start_to_the_join_and_never_fall(rt: HostRuntime) {
    assert!(rt; matches!(rounds(&rt, rt.alloc()), Ok(true)));
}

/// Thread 1 asks twice, and is held before its second order until other totals are published.
fn reads_between<R: Threads + Wait + Copy + Send + 'static>(
    rt: &R,
    alloc: Global,
) -> Result<bool, NoMemory> {
    let gate = Arc::new(alloc, Barrier::new(2, TURNS))?;
    let mut stage = Stage::new(rt, alloc)?;
    stage.queues.publish(rt, totals_at(12));
    stage.queue(1, Order::Totals)?;
    stage.queue(1, Order::Totals)?;
    stage.go(rt, &gate);
    let reached = gate.is_reached();
    stage.publish(rt, totals_at(20));
    gate.open();
    stage.join(rt);
    Ok(
        reached
            && are_told(
                &stage.queues,
                "1 totals 12 36 60 84\n1 totals 20 60 100 140\n",
            ),
    )
}

#[test]
fn a_thread_reads_what_is_published_while_it_is_away(rt: HostRuntime) {
    assert!(rt; matches!(reads_between(&rt, rt.alloc()), Ok(true)));
}
