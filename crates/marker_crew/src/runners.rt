// One marker of a crew: it drains on a thread of its own, or on the caller's.

ghost use Rattle.std.specs.Prelude.{◌≡◌, None};
ghost use Rattle.std.specs.Arc.{arc_value};
ghost use Rattle.marker_crew.specs.Crews.{HasDrained};
ghost use Rattle.marker_crew.specs.Runners.{began_as};

use crate::draining::drain;
use crate::endings::{Begun, EndOf, Ended, InPlace};
use page_words::Words;
use std::snapshot::Snapshot;
use std::sync::Arc;
use std::thread;
use std::thread::{PromisedHandle, Threads};
use thread_gate::Gate;
use type_table::TypeTable;

/// A marker that was started.
#[derive(Drop)]
pub(crate) enum Runner {
    There(PromisedHandle<Ended, EndOf>),
    Here(InPlace),
}

/// Starts a marker. Where a thread is refused, or a clone for it, the marker drains here.
pub(crate) fn started<G: Gate + Send + Sync + 'static, R: Threads>(
    rt: &R,
    words: &Arc<Words>,
    types: &Arc<TypeTable>,
    begun: Begun,
    worker: u32,
    gate: &Arc<G>,
) -> Runner
    requires heap { begun.seat.heap ≡ arc_value words.now }
    requires types { arc_value types.now ≡ begun.seat.types }
    requires hand { begun.seat.hand ≡ None }
    ensures { began_as result ≡ begun }
{
    let was = Snapshot::of(&begun);
    let (Ok(words_there), Ok(types_there), Ok(gate_there)) = (
        Arc::try_clone(words),
        Arc::try_clone(types),
        Arc::try_clone(gate),
    ) else {
        return Runner::Here(InPlace::new(was, run(words, types, begun, worker, &**gate)));
    };
    let end = EndOf(Snapshot::of(&begun));
    let there = move || run_there(words_there, types_there, begun, worker, gate_there);
    match thread::spawn_with(rt, end, there) {
        Ok(handle) => Runner::There(handle),
        Err(refused) => Runner::Here(InPlace::new(was, (refused.value)())),
    }
}

/// Drains with a share of words, types and gate.
fn run_there<G: Gate>(
    words: Arc<Words>,
    types: Arc<TypeTable>,
    begun: Begun,
    worker: u32,
    gate: Arc<G>,
) -> Ended
    requires heap { begun.seat.heap ≡ arc_value words }
    requires types { arc_value types ≡ begun.seat.types }
    requires hand { begun.seat.hand ≡ None }
    ensures { HasDrained begun result }
{
    run(&words, &types, begun, worker, &*gate)
}

/// Drains, as many items at most as the heap has words.
fn run<G: Gate>(words: &Words, types: &TypeTable, begun: Begun, worker: u32, gate: &G) -> Ended
    requires heap { begun.seat.heap ≡ words.now }
    requires types { types.now ≡ begun.seat.types }
    requires hand { begun.seat.hand ≡ None }
    ensures { HasDrained begun result }
{
    let Begun {
        mut seat,
        mut share,
        mut notes,
    } = begun;
    let drained = drain(
        words,
        types,
        &mut seat,
        &mut share,
        &mut notes,
        words.count(),
        worker,
        gate,
    );
    Ended {
        seat,
        share,
        notes,
        drained,
    }
}

/// Waits for a marker.
pub(crate) fn wait_for<R: Threads>(rt: &R, runner: Runner) -> Ended
    ensures { HasDrained (began_as runner) result }
{
    match runner {
        Runner::There(handle) => handle.join(rt),
        Runner::Here(marker) => marker.into_end(),
    }
}
