// A callback that counts how often it is called, on a heap of two objects.

ghost use Rattle.std.specs.Prelude.{◌≡◌, ◌==◌, None, Some, length, map, IfOk, if◌then◌else◌};
ghost use Rattle.gc_graph.specs.Actions.{action_of};
ghost use Rattle.callback_table.specs.Table.{callback_kinds};
ghost use Rattle.callback_table.specs.WeakRegistry.{places_of, left_by};

use callback_table::{Action, ActionKind, Bodies, Callback, CallbackTable, Registry, WeakRegistry};
use gc_graph::NoMemory;
use std::alloc::Global;
use std::sync::Arc;
use std::sync::atomic::{AtomicU64, Ordering};

/// An object at place 0 that is dead, and one at place 5 that lives. Neither has a field.
#[derive(Drop)]
struct TwoObjects;

impl Bodies for TwoObjects {
    ghost use Rattle.std.specs.Prelude.{[], ◌∷◌};
    ghost use Rattle.gc_graph.specs.State.Life.{Live, Dead};

    ghost nodes = { λ heap.
        record { object = record { ty = 0; extra = 0; kinds = []; values = [] }; place = 0; life = Dead }
        ∷ record { object = record { ty = 0; extra = 0; kinds = []; values = [] }; place = 5; life = Live }
        ∷ [] };

    ghost is_ready = { λ heap. Unit {0} };

    ghost keeps = { λ old new. Unit {0} };

    fn dead(&mut self, place: u32) -> bool {
        place == 0
    }

    fn words(&mut self, _place: u32, _into: &mut [u64; 64]) -> u32 {
        0
    }

    fn apply(&mut self, _place: u32, _action: Action) {}

    ghost keeps_itself = { λ bodies. tt };

    ghost keeps_on = { λ first second third a b. tt };
}

/// How often the callback was called in all when the registrations were run, and when they were run
/// again: one of the living object, and three of the dead one, of which one was taken away. Besides,
/// the kind of the last callback.
fn calls_made(
    alloc: Global,
    table: &CallbackTable,
    calls: &AtomicU64,
) -> Result<(u64, u64, ActionKind), NoMemory>
    requires { length (callback_kinds table.now) ≡ 1 }
{
    let mut registry = Registry::new(alloc);
    registry.register(1, 5, &[0])?;
    registry.register(0, 5, &[0, 0, 0])?;
    registry.place_last(3, 0);
    registry.unregister_last(1);
    registry.run_dead(table, &mut TwoObjects);
    let first = calls.load(Ordering::SeqCst);
    registry.run_dead(table, &mut TwoObjects);
    let second = calls.load(Ordering::SeqCst);
    Ok((first, second, table.kind(table.len() - 1)))
}

/// A mask for one place alone, and how often was asked for one.
#[derive(Drop)]
struct OneMask {
    place: u32,
    asked: u32,
}

impl OneMask {
    fn mask(&mut self, place: u32) -> Option<u64>
        ensures answer { result ≡ (if place == self.old.place then Some 1 else None) }
        ensures place { self.new.place ≡ self.old.place }
    {
        self.asked = self.asked.wrapping_add(1);
        if place == self.place { Some(1) } else { None }
    }
}

/// What is asked for masks counts how often, and is known afterwards.
fn prepare_one(one: &mut OneMask, registry: &mut WeakRegistry)
    ensures left { registry.new.entries ≡ left_by
        (map (λ place. (if place == one.old.place then Some 1 else None))
        (places_of registry.old.entries)) registry.old.entries }
    ensures place { one.new.place ≡ one.old.place }
{
    let mut mask = |place: u32| -> Option<u64>
        ensures answer { result ≡ (if place == one.entry.now.place then Some 1 else None) }
        ensures place { one.exit.now.place ≡ one.entry.now.place }
    { one.mask(place) };
    registry.prepare(&mut mask);
}

/// How often was asked for a mask, how often the callback was called in all when the weak callbacks
/// were run, and when they were run again, and how many the second run tells.
fn weak_calls_made(
    alloc: Global,
    table: &CallbackTable,
    calls: &AtomicU64,
) -> Result<(u32, u64, u64, usize), NoMemory>
    requires { length (callback_kinds table.now) ≡ 1 }
{
    let mut registry = WeakRegistry::new(alloc);
    registry.register(1, 5, &[0])?;
    registry.register(0, 5, &[0, 0])?;
    registry.place_last(0);
    registry.register(0, 0, &[0])?;
    registry.unregister_last();
    let mut one = OneMask { place: 0, asked: 0 };
    prepare_one(&mut one, &mut registry);
    registry.run(table, &mut TwoObjects);
    let first = calls.load(Ordering::SeqCst);
    registry.run(table, &mut TwoObjects);
    let second = calls.load(Ordering::SeqCst);
    Ok((one.asked, first, second, registry.ran().len()))
}

/// A table of one callback, whose calls are counted.
fn counting_table(alloc: Global, calls: &Arc<AtomicU64>) -> Result<CallbackTable, NoMemory>
    ensures { IfOk result (λ table. length (callback_kinds table) ≡ 1) }
{
    let counted = calls.clone()?;
    let call = Box::new(
        alloc,
        move |words: &[u64]| -> Action
            ensures { result ≡ action_of ActionKind.Nothing words.entry.now }
        {
            let _ = words;
            counted.fetch_add(1, Ordering::SeqCst);
            Action::Nothing
        },
    )?;
    let list = vec![in alloc; Callback::new(ActionKind::Nothing, call)]?;
    Ok(CallbackTable::new(list))
}

/// The same for a callback that counts how often it is called.
fn calls_counted(
    alloc: Global,
    calls: &Arc<AtomicU64>,
) -> Result<(u64, u64, ActionKind), NoMemory> {
    match counting_table(alloc, calls) {
        Ok(table) => calls_made(alloc, &table, calls),
        Err(_) => Err(NoMemory),
    }
}

/// The same for weak callbacks.
fn weak_calls_counted(
    alloc: Global,
    calls: &Arc<AtomicU64>,
) -> Result<(u32, u64, u64, usize), NoMemory> {
    match counting_table(alloc, calls) {
        Ok(table) => weak_calls_made(alloc, &table, calls),
        Err(_) => Err(NoMemory),
    }
}

/// Whether was asked once for each of two masks, and the callback called twice in each run.
fn is_called_twice_a_run(alloc: Global) -> bool {
    match Arc::new(alloc, AtomicU64::new(0)) {
        Ok(calls) => matches!(weak_calls_counted(alloc, &calls), Ok((2, 2, 4, 2))),
        Err(_) => false,
    }
}

/// Whether the callback was called twice when the registrations were run, and never again.
fn is_called_twice(alloc: Global) -> bool {
    match Arc::new(alloc, AtomicU64::new(0)) {
        Ok(calls) => matches!(
            calls_counted(alloc, &calls),
            Ok((2, 2, ActionKind::Nothing))
        ),
        Err(_) => false,
    }
}

#[test]
fn dead_object_is_prefinalised_once(rt: HostRuntime) {
    assert!(rt; is_called_twice(rt.alloc()));
}

#[test]
fn weak_callbacks_of_a_masked_object_run_each_time(rt: HostRuntime) {
    assert!(rt; is_called_twice_a_run(rt.alloc()));
}
