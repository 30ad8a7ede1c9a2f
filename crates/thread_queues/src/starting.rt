// A thread is started, or its orders are done by the caller.

ghost use Rattle.std.specs.Prelude.{◌≡◌, ◌≤◌};
ghost use Rattle.std.specs.Arc.{arc_value};
ghost use Rattle.thread_queues.specs.Orders.{IsOwn};
ghost use Rattle.thread_queues.specs.Endings.{HasRun};
ghost use Rattle.thread_queues.specs.Runs.{away_with, thread_view};

use crate::endings::{Begun, EndOf, Ended, InPlace};
use crate::script_thread::Work;
use crate::working::Workplace;
use cross_thread_region::Region;
use heap_stats::Board;
use std::snapshot::Snapshot;
use std::sync::{Arc, Wait};
use std::thread;
use std::thread::Threads;
use thread_gate::Gate;

/// What threads share with the owner of a heap.
#[derive(Drop)]
pub(crate) struct Shared<'a, G> {
    pub(crate) region: &'a Arc<Region>,
    pub(crate) board: &'a Arc<Board>,
    pub(crate) gate: &'a Arc<G>,
}

/// Starts a thread. Where it is refused, or a clone for it, the caller does its orders.
pub(crate) fn started<R: Threads + Wait + Copy + Send + 'static, G: Gate + Send + Sync + 'static>(
    rt: &R,
    thread: u32,
    shared: &Shared<'_, G>,
    begun: Begun,
) -> Work
    requires few { thread ≤ 8 }
    requires own { IsOwn (arc_value shared.now.region.now) begun.own.region thread }
    requires board { begun.own.board.board ≡ arc_value shared.now.board.now }
    ensures { thread_view result ≡ away_with begun }
{
    let was = Snapshot::of(&begun);
    let (Ok(region), Ok(board), Ok(gate)) = (
        Arc::try_clone(shared.region),
        Arc::try_clone(shared.board),
        Arc::try_clone(shared.gate),
    ) else {
        let place = Workplace {
            thread,
            region: &**shared.region,
            board: &**shared.board,
            gate: &**shared.gate,
        };
        return Work::Ran(InPlace::new(was, run(rt, &place, begun)));
    };
    let end = EndOf(Snapshot::of(&begun));
    let own_rt = *rt;
    let there = move || run_there(own_rt, thread, region, board, gate, begun);
    match thread::spawn_with(rt, end, there) {
        Ok(handle) => Work::Runs(handle),
        Err(refused) => Work::Ran(InPlace::new(was, (refused.value)())),
    }
}

/// Does the orders with a share of region, board and gate.
fn run_there<R: Wait + Copy, G: Gate>(
    rt: R,
    thread: u32,
    region: Arc<Region>,
    board: Arc<Board>,
    gate: Arc<G>,
    begun: Begun,
) -> Ended
    requires few { thread ≤ 8 }
    requires own { IsOwn (arc_value region) begun.own.region thread }
    requires board { begun.own.board.board ≡ arc_value board }
    ensures { HasRun begun result }
{
    let place = Workplace {
        thread,
        region: &*region,
        board: &*board,
        gate: &*gate,
    };
    run(&rt, &place, begun)
}

/// Does the orders.
fn run<R: Wait, G: Gate>(rt: &R, place: &Workplace<'_, G>, begun: Begun) -> Ended
    requires few { place.now.thread ≤ 8 }
    requires own { IsOwn place.now.region.now begun.own.region place.now.thread }
    requires board { begun.own.board.board ≡ place.now.board.now }
    ensures { HasRun begun result }
{
    let Begun { mut queue, mut own } = begun;
    queue.do_orders(rt, place, &mut own);
    Ended { queue, own }
}
