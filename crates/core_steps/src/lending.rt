// The mutator lends views to markers, and takes them back.

ghost use Rattle.std.specs.Prelude.{◌≡◌, ◌+◌, ◌-◌, ◌++◌, ◌<◌, ◌&&◌, true, OnOk};
ghost use Rattle.std.specs.Prelude.{slice_set};
ghost use Rattle.marker_core.specs.Views.{fresh_view, spent_view, view_at};
ghost use Rattle.marker_core.specs.CycleSteps.{can_split, split, can_join, core_joined};
ghost use Rattle.std.specs.Option.{is_none};

use gc_graph::NoMemory;
use marker_core::{CoreState, List, MarkerView, MutatorView};
use std::alloc::Global;
use std::mem;

fn new_view(alloc: Global, spent: bool) -> MarkerView
    ensures { result ≡ record fresh_view { spent = spent } }
{
    MarkerView {
        spent,
        known: List::new(alloc),
        marked: List::new(alloc),
        traced: List::new(alloc),
        noted: List::new(alloc),
        hand: None,
        done: List::new(alloc),
        missed: List::new(alloc),
        halted: false,
        last: None,
    }
}

/// Takes a marker's view out, and leaves a spent one. It is spent where there is no such marker.
pub fn take_view(alloc: Global, views: &mut List<MarkerView>, marker: u32) -> MarkerView
    ensures view { result ≡ view_at views.old marker }
    ensures rest { views.new ≡ slice_set views.old marker spent_view }
{
    let at = marker as usize;
    let spent = new_view(alloc, true);
    if at < views.items.len() {
        return mem::replace(&mut views.items[at], spent);
    }
    spent
}

pub fn can_split(s: &CoreState) -> bool
    ensures { result ≡ can_split s.now }
{
    s.mutator.on
}

pub fn lend(alloc: Global, s: &mut CoreState) -> Result<(), NoMemory>
    ensures { OnOk result (s.new ≡ split s.old) }
{
    // As many views as can't be counted have no room either.
    let Some(lent) = s.mutator.lent.checked_add(1) else {
        return Err(NoMemory);
    };
    s.markers.push(new_view(alloc, false))?;
    s.mutator.lent = lent;
    Ok(())
}

pub fn can_join(s: &CoreState, marker: u32) -> bool
    ensures { result ≡ can_join s.now marker }
{
    match s.markers.as_slice().get(marker as usize) {
        Some(v) => !v.spent && v.hand.is_none(),
        None => false,
    }
}

/// The items of another list come after those of this one.
fn append<T: Copy + Drop>(list: &mut List<T>, more: &[T]) -> Result<(), NoMemory>
    ensures { OnOk result (list.new ≡ list.old ++ more.now) }
{
    list.items.extend_from_slice(more)?;
    Ok(())
}

/// What a marker's view found comes to the mutator, which has one view less out.
fn take_in(mutator: &mut MutatorView, v: &MarkerView) -> Result<(), NoMemory>
    ensures { OnOk result (mutator.new ≡ record mutator.old {
      marked = mutator.old.marked ++ v.now.marked;
      traced = mutator.old.traced ++ v.now.traced;
      noted = mutator.old.noted ++ v.now.noted;
      done = mutator.old.done ++ v.now.done;
      missed = mutator.old.missed ++ v.now.missed;
      lent = mutator.old.lent - 1;
    }) }
{
    append(&mut mutator.marked, v.marked.as_slice())?;
    append(&mut mutator.traced, v.traced.as_slice())?;
    append(&mut mutator.noted, v.noted.as_slice())?;
    append(&mut mutator.done, v.done.as_slice())?;
    append(&mut mutator.missed, v.missed.as_slice())?;
    mutator.lent = mutator.lent.saturating_sub(1);
    Ok(())
}

pub fn join(alloc: Global, s: &mut CoreState, marker: u32) -> Result<(), NoMemory>
    ensures { OnOk result (s.new ≡ core_joined s.old marker) }
{
    let v = take_view(alloc, &mut s.markers, marker);
    take_in(&mut s.mutator, &v)
}
