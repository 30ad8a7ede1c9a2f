// Slots, and a test of places that changes as it is asked. The other calls are made by the heap.

ghost use Rattle.std.specs.Prelude.{◌≡◌, ◌<◌, All, false, length, map, not, slice_index_or};
ghost use Rattle.gc_graph.specs.Pause.{clear_slot};
ghost use Rattle.persistent_slots.specs.Clearing.{taken};

use gc_graph::NoMemory;
use persistent_slots::Slots;
use std::alloc::Global;

/// Marks of places, and how often they were looked at.
#[derive(Drop)]
struct Marks {
    marks: Vec<bool>,
    looks: u32,
}

impl Marks {
    fn is_marked(&mut self, place: u32) -> bool
        requires { place < length self.old.marks.items }
        ensures answer { result ≡ slice_index_or self.old.marks.items place false }
        ensures marks { self.new.marks.items ≡ self.old.marks.items }
    {
        self.looks = self.looks.wrapping_add(1);
        self.marks[place as usize]
    }
}

/// The contract speaks of the places alone, although the test counts how often it is asked.
fn clear_unmarked(marks: &mut Marks, slots: &mut Slots)
    requires { All (λ place. place < length marks.old.marks.items) (taken slots.old) }
    ensures { slots.new ≡ map (clear_slot
        (λ place. not (slice_index_or marks.old.marks.items place false))) slots.old }
{
    slots.clear_dead(
        |place: u32| -> bool
            requires { place < length marks.now.marks.items }
            ensures answer { result
                ≡ not (slice_index_or marks.entry.now.marks.items place false) }
            ensures marks { marks.exit.now.marks.items ≡ marks.entry.now.marks.items }
        { !marks.is_marked(place) },
    );
}

/// What the first and the last of four slots hold after the clearing, and how often was asked: place
/// 1 has no mark, and place 0 has one.
fn cleared_slots(alloc: Global) -> Result<(Option<u32>, Option<u32>, u32), NoMemory> {
    let mut slots = Slots::new(alloc, 4)?;
    slots.set(0, 1);
    slots.set(3, 0);
    let mut marks = Marks {
        marks: vec![in alloc; true, false]?,
        looks: 0,
    };
    clear_unmarked(&mut marks, &mut slots);
    Ok((slots.get(0), slots.get(3), marks.looks))
}

#[test]
fn each_place_is_asked_of_once(rt: HostRuntime) {
    assert!(rt; matches!(cleared_slots(rt.alloc()), Ok((None, Some(0), 2))));
}
