// One thread puts items on its list, and another one takes them from it meanwhile.

ghost use Rattle.std.specs.Prelude.{◌≡◌, ◌+◌, length, IfOk, OnOk};
ghost use Rattle.mark_worklist.specs.Shares.{IsSameShare, put_of};
ghost use Rattle.mark_worklist.specs.Joining.{IsSameList, put_by};
ghost use Rattle.mark_worklist.specs.Families.{at};

use gc_graph::NoMemory;
use mark_worklist::{Share, SharedList, Tally};
use std::alloc::Global;
use std::thread;
use std::thread::Threads;

/// So many items are put on a list, from which another thread takes some. The tally tells how many were
/// put, how many of these were taken, and how many are left. Want of memory is free.
pub fn shared_out<R: Threads + Sync>(rt: &R, alloc: Global, count: u32) -> Result<Tally, NoMemory>
    ensures put { IfOk result (λ tally. tally.pushed ≡ count) }
    ensures kept { IfOk result (λ tally. tally.taken + tally.left ≡ count) }
{
    let (list, mut shares) = SharedList::new(alloc, 1)?;
    let share = shares.remove(0);
    let ((mut list, done), share) = thread::join(
        rt,
        move || -> (SharedList, Result<(), NoMemory>)
            ensures same { IsSameList list result.0 }
            ensures put { OnOk result.1
                (length (put_of (at result.0 0)) ≡ length (put_of (at list 0)) + count) }
        { put_all(list, count) },
        move || -> Share
            ensures same { IsSameShare share result }
            ensures put { put_of result ≡ put_of share }
        { take_all(share, count) },
    );
    shares.push_reserved(share);
    let tally = list.finish(shares);
    done?;
    Ok(tally)
}

/// Puts so many items on the list.
fn put_all(mut list: SharedList, count: u32) -> (SharedList, Result<(), NoMemory>)
    ensures same { IsSameList list result.0 }
    ensures put { OnOk result.1
        (length (put_of (at result.0 0)) ≡ length (put_of (at list 0)) + count) }
{
    for item in 0..count {
        if list.push(item).is_err() {
            return (list, Err(NoMemory));
        }
    }
    (list, Ok(()))
}

/// Takes so many items at most, until none is found.
fn take_all(mut share: Share, count: u32) -> Share
    ensures same { IsSameShare share result }
    ensures put { put_of result ≡ put_of share }
{
    for _item in 0..count {
        if share.pop().is_none() && share.steal().is_none() {
            return share;
        }
    }
    share
}
