// A marking list on its own.

use mark_worklist::Worklist;
use std::alloc::Global;

/// Whether two places are taken and each comes back once, in either order, which leaves an idle
/// list.
fn pops_each_once(alloc: Global) -> bool {
    let Ok((mut list, shares)) = Worklist::new(alloc, 0) else {
        return false;
    };
    let taken = list.reserve(1).is_ok() & list.push(7).is_ok() & list.push(3).is_ok();
    let both = match (list.pop(), list.pop()) {
        (Some(3), Some(7)) | (Some(7), Some(3)) => true,
        _ => false,
    };
    let done = list.pop().is_none() & list.idle() & (list.len() == 0);
    taken & both & done & (list.refused() == 0) & shares.is_empty()
}

#[test]
fn each_push_is_popped_once(rt: HostRuntime) {
    assert!(rt; pops_each_once(rt.alloc()));
}
