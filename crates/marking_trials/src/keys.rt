// Notes under keys on equal steps. Heaps with pairs are tested with the program.

ghost use Rattle.std.specs.Prelude.{◌<◌};

use pair_notes::Index;
use std::alloc::Global;

/// Of 300 notes under 100 keys in turn, how many found no room or have a key that is told wrong; and
/// one more where an index without notes tells one.
fn wrong_notes(alloc: Global) -> u32 {
    let mut index = Index::new(alloc);
    let mut wrong = u32::from(index.first_under(7) < 300);
    for i in 0..300usize {
        if !index.make_room(i) {
            wrong = wrong.saturating_add(1);
        }
    }
    for i in 0..300u32 {
        index.link(i as usize, 4096 * (i % 100));
    }
    for key in 0..100u32 {
        wrong = wrong.saturating_add(u32::from(!tells(&index, key)));
    }
    wrong
}

/// Whether a key tells its three notes, the latest of which comes second, and no more.
fn tells(index: &Index, key: u32) -> bool
    requires { key < 100 }
{
    let first = index.first_under(4096 * key);
    let third = key as usize + 100;
    first == key as usize
        && index.after(first) == third + 100
        && index.after(third + 100) == third
        && index.after(third) >= 300
}

#[test]
fn a_key_tells_all_its_notes(rt: HostRuntime) {
    assert!(rt; wrong_notes(rt.alloc()) == 0);
}
