// Each call by one thread, on lists whose items are known.

use gc_graph::NoMemory;
use mark_worklist::{Refused, Share, SharedList};
use std::alloc::Global;

/// A list and the two shares of it.
fn with_two(alloc: Global) -> Result<(SharedList, Share, Share), NoMemory> {
    let (list, mut shares) = SharedList::new(alloc, 2)?;
    let two = shares.remove(1);
    let one = shares.remove(0);
    Ok((list, one, two))
}

/// Whether the first item put is the first that is popped and stolen, and lists without items are idle
/// once a pop and a steal found nothing.
fn first_in_first_out(list: &mut SharedList, one: &mut Share, two: &mut Share) -> bool {
    let put = [
        list.push(7).is_ok(),
        list.push(8).is_ok(),
        list.push(9).is_ok(),
        one.push(10).is_ok(),
    ];
    let taken = [
        two.steal(),
        list.pop(),
        list.pop(),
        two.pop(),
        two.steal(),
        two.steal(),
    ];
    put == [true, true, true, true]
        && taken == [Some(7), Some(9), None, Some(8), Some(10), None]
        && are_idle_by_then(list, one, two)
}

/// Whether each is idle just where a pop and a steal of it found nothing.
fn are_idle_by_then(list: &mut SharedList, one: &mut Share, two: &mut Share) -> bool {
    let found = [list.steal(), one.pop()];
    let idle = [list.idle(), one.idle(), two.idle()];
    let last = (two.pop(), two.idle());
    found == [None, None]
        && idle == [true, false, false]
        && last == (None, true)
        && one.refused() == 0
        && list.refused() == 0
        && Refused(3) == Refused(3)
}

fn items_keep_their_order(alloc: Global) -> bool {
    match with_two(alloc) {
        Ok((mut list, mut one, mut two)) => first_in_first_out(&mut list, &mut one, &mut two),
        Err(_) => false,
    }
}

/// Whether a steal from five items gives the first one and moves half of the others, which the thief pops
/// and others steal then.
fn half_of_the_others_moved(list: &mut SharedList, one: &mut Share, two: &mut Share) -> bool {
    for a in 1..6 {
        let _ = list.push(a);
    }
    let stolen = [two.steal(), two.pop()];
    let rest = [list.pop(), one.steal(), one.steal(), one.steal()];
    stolen == [Some(1), Some(2)] && rest == [Some(4), Some(5), Some(3), None]
}

fn half_is_moved(alloc: Global) -> bool {
    match with_two(alloc) {
        Ok((mut list, mut one, mut two)) => {
            half_of_the_others_moved(&mut list, &mut one, &mut two)
        }
        Err(_) => false,
    }
}

/// Whether a list without shares gives its item back, and is idle then.
fn gives_it_back(list: &mut SharedList) -> bool {
    let put = list.push(5).is_ok();
    let taken = [list.pop(), list.pop(), list.steal()];
    put && taken == [Some(5), None, None] && list.idle()
}

fn list_without_shares(alloc: Global) -> bool {
    match SharedList::new(alloc, 0) {
        Ok((mut list, shares)) => shares.is_empty() && gives_it_back(&mut list),
        Err(_) => false,
    }
}

#[test]
fn items_come_out_in_their_order(rt: HostRuntime) {
    assert!(rt; items_keep_their_order(rt.alloc()));
}

#[test]
fn thief_has_items_of_its_own_then(rt: HostRuntime) {
    assert!(rt; half_is_moved(rt.alloc()));
}

#[test]
fn owner_needs_no_shares(rt: HostRuntime) {
    assert!(rt; list_without_shares(rt.alloc()));
}
