// The threads of a script: eight at once, in rounds, and dismissed.

ghost use Rattle.std.specs.Prelude.{◌≡◌, ◌<◌, IfOk, OnOk};
ghost use Rattle.std.specs.Arc.{arc_value};
ghost use Rattle.region_trials.specs.ScriptRounds.{AreHere, AreAway};
ghost use Rattle.thread_queues.specs.Going.{IsFirst};

use crate::published_totals::totals_at;
use crate::script_gates::{Barrier, Counts};
use crate::script_replies::{are_told, has_entered};
use crate::script_stage::Stage;
use cross_thread_region::HeldHistory;
use gc_graph::{NoMemory, Order};
use std::alloc::Global;
use std::sync::{Arc, Wait};
use std::thread::Threads;
use thread_gate::{FreeGate, Gate};

/// A hold of so many turns ends while others go on.
const TURNS: u32 = 10_000;

/// What eight threads are answered, where each uses slots of its own but slot 0, which all only read.
const REPLIES: &str = "\
1 done
1 node 3
2 null
3 done
3 done
3 node 3
4 totals 12 36 60 84
5 done
6 done
6 done
6 null
7 totals 12 36 60 84
7 done
8 node 3
";

/// How many orders each has.
const ORDERS: [u64; 8] = [2, 1, 3, 1, 1, 3, 2, 1];

/// The entry of the export and those of all orders but two.
const ENTRIES: u64 = 13;

/// What each thread enters.
const ENTERED: [&str; 8] = [
    "copy 0 3 done\nupgrade 3 4 node 3\n",
    "upgrade 6 7 null\n",
    "copy 0 9 done\nweaken 9 done\nupgrade 9 10 node 3\n",
    "",
    "clear 15 done\n",
    "copy 0 18 done\nclear 18 done\nupgrade 18 19 null\n",
    "weaken 21 done\n",
    "upgrade 0 24 node 3\n",
];

/// The orders of eight threads, which are given from the last thread to the first and mixed.
fn queue_for_all(stage: &mut Stage) -> Result<(), NoMemory>
    requires here { AreHere (arc_value stage.old.region) stage.old.pass stage.old.queues }
    ensures here { AreHere (arc_value stage.new.region) stage.new.pass stage.new.queues }
    ensures last { stage.new.queues.last ≡ stage.old.queues.last }
{
    stage.queue(8, Order::Upgrade { from: 0, into: 24 })?;
    stage.queue(6, Order::Copy { from: 0, into: 18 })?;
    stage.queue(3, Order::Copy { from: 0, into: 9 })?;
    stage.queue(7, Order::Totals)?;
    stage.queue(6, Order::Clear { slot: 18 })?;
    stage.queue(1, Order::Copy { from: 0, into: 3 })?;
    stage.queue(5, Order::Clear { slot: 15 })?;
    stage.queue(3, Order::Weaken { slot: 9 })?;
    stage.queue(7, Order::Weaken { slot: 21 })?;
    stage.queue(4, Order::Totals)?;
    stage.queue(6, Order::Upgrade { from: 18, into: 19 })?;
    stage.queue(3, Order::Upgrade { from: 9, into: 10 })?;
    stage.queue(2, Order::Upgrade { from: 6, into: 7 })?;
    stage.queue(1, Order::Upgrade { from: 3, into: 4 })
}

/// Eight threads that went, and how many they are.
fn all_away<R: Threads + Wait + Copy + Send + 'static, G: Gate + Send + Sync + 'static>(
    rt: &R,
    alloc: Global,
    gate: &Arc<G>,
) -> Result<(Stage, u32), NoMemory>
    ensures away { IfOk result
        (λ made. AreAway (arc_value made.0.region) made.0.pass made.0.queues) }
{
    let mut stage = Stage::new(rt, alloc)?;
    stage.queues.publish(rt, totals_at(12));
    queue_for_all(&mut stage)?;
    let went = stage.go(rt, gate);
    Ok((stage, went))
}

/// Whether each thread entered what its orders are, in their order.
fn have_entered(held: &HeldHistory) -> bool {
    for i in 0..8 {
        if !has_entered(held, i as u32 + 1, ENTERED[i]) {
            return false;
        }
    }
    true
}

/// Whether all orders of the eight threads are in the history, and nothing else.
fn is_all_entered<R: Wait>(rt: &R, stage: &mut Stage) -> bool
    requires { IsFirst (arc_value stage.old.region) stage.old.pass }
{
    let seen = stage.region.entries(&mut stage.pass);
    let held = stage.region.look(rt, &mut stage.pass);
    let entered = have_entered(&held) && u64::from(held.len()) == ENTRIES;
    stage.region.end_look(&mut stage.pass, held);
    entered && seen == ENTRIES
}

fn answers_all<R: Threads + Wait + Copy + Send + 'static>(
    rt: &R,
    alloc: Global,
) -> Result<bool, NoMemory> {
    let gate = Arc::new(alloc, FreeGate)?;
    let (mut stage, went) = all_away(rt, alloc, &gate)?;
    let joined = stage.join(rt);
    let told = are_told(&stage.queues, REPLIES) && !stage.queues.awaits();
    Ok(went == 8 && joined == 8 && told && is_all_entered(rt, &mut stage))
}

#[test]
fn eight_threads_are_answered_thread_after_thread(rt: HostRuntime) {
    assert!(rt; matches!(answers_all(&rt, rt.alloc()), Ok(true)));
}

fn counts_orders<R: Threads + Wait + Copy + Send + 'static>(
    rt: &R,
    alloc: Global,
) -> Result<bool, NoMemory> {
    let gate = Arc::new(alloc, Counts::new())?;
    let (mut stage, _) = all_away(rt, alloc, &gate)?;
    stage.join(rt);
    Ok(gate.are(&ORDERS))
}

#[test]
fn each_order_passes_the_gate_once(rt: HostRuntime) {
    assert!(rt; matches!(counts_orders(&rt, rt.alloc()), Ok(true)));
}

/// The first thread that comes to the gate is held there while the owner dismisses all.
fn waits_for_all<R: Threads + Wait + Copy + Send + 'static>(
    rt: &R,
    alloc: Global,
) -> Result<bool, NoMemory> {
    let gate = Arc::new(alloc, Barrier::new(1, TURNS))?;
    let (mut stage, _) = all_away(rt, alloc, &gate)?;
    stage.queues.dismiss(rt, &*stage.region, &mut stage.pass);
    let passes = gate.passes();
    let told = are_told(&stage.queues, REPLIES) && stage.queues.awaits();
    stage.queues.dismiss(rt, &*stage.region, &mut stage.pass);
    Ok(passes == 14 && told && is_all_entered(rt, &mut stage))
}

#[test]
fn a_dismissal_waits_for_all_threads(rt: HostRuntime) {
    assert!(rt; matches!(waits_for_all(&rt, rt.alloc()), Ok(true)));
}

/// A round of threads 2 and 5.
fn two_go<R: Threads + Wait + Copy + Send + 'static>(
    rt: &R,
    stage: &mut Stage,
    gate: &Arc<FreeGate>,
) -> Result<bool, NoMemory>
    requires here { AreHere (arc_value stage.old.region) stage.old.pass stage.old.queues }
    requires last { stage.old.queues.last.ordinal < 12 }
    ensures here { AreHere (arc_value stage.new.region) stage.new.pass stage.new.queues }
    ensures last { OnOk result (stage.new.queues.last.ordinal ≡ 12) }
{
    stage.queues.publish(rt, totals_at(12));
    stage.queue(5, Order::Clear { slot: 0 })?;
    stage.queue(2, Order::Totals)?;
    let went = stage.go(rt, gate);
    let awaits = stage.queues.awaits();
    let joined = stage.join(rt);
    let told = are_told(&stage.queues, "2 totals 12 36 60 84\n5 done\n");
    Ok(went == 2 && awaits && joined == 2 && told && !stage.queues.awaits())
}

/// After it, one of thread 2 alone, which finds what thread 5 left.
fn one_goes<R: Threads + Wait + Copy + Send + 'static>(
    rt: &R,
    stage: &mut Stage,
    gate: &Arc<FreeGate>,
) -> Result<bool, NoMemory>
    requires here { AreHere (arc_value stage.old.region) stage.old.pass stage.old.queues }
    requires last { stage.old.queues.last.ordinal ≡ 12 }
    ensures here { AreHere (arc_value stage.new.region) stage.new.pass stage.new.queues }
{
    stage.queues.publish(rt, totals_at(20));
    stage.queue(2, Order::Upgrade { from: 0, into: 1 })?;
    stage.queue(2, Order::Totals)?;
    let went = stage.go(rt, gate);
    let joined = stage.join(rt);
    Ok(went == 1 && joined == 1 && are_told(&stage.queues, "2 null\n2 totals 20 60 100 140\n"))
}

/// And one of none.
fn none_goes<R: Threads + Wait + Copy + Send + 'static>(
    rt: &R,
    stage: &mut Stage,
    gate: &Arc<FreeGate>,
) -> bool
    requires here { AreHere (arc_value stage.old.region) stage.old.pass stage.old.queues }
{
    let went = stage.go(rt, gate);
    let joined = stage.join(rt);
    went == 0 && joined == 0 && stage.queues.reply_count() == 0 && !stage.queues.awaits()
}

fn rounds<R: Threads + Wait + Copy + Send + 'static>(
    rt: &R,
    alloc: Global,
) -> Result<bool, NoMemory> {
    let gate = Arc::new(alloc, FreeGate)?;
    let mut stage = Stage::new(rt, alloc)?;
    let two = two_go(rt, &mut stage, &gate)?;
    let one = one_goes(rt, &mut stage, &gate)?;
    Ok(two && one && none_goes(rt, &mut stage, &gate))
}

#[test]
fn rounds_are_told_each_for_itself(rt: HostRuntime) {
    assert!(rt; matches!(rounds(&rt, rt.alloc()), Ok(true)));
}
